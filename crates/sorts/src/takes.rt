// Whether a field of a sort takes a text.
ghost use Rattle.std.specs.Prelude.{◌≡◌};
ghost use Rattle.sorts.specs.Sorts.{legal_in};

use crate::name::read_name;
use crate::range::{read_between, read_flag, read_frequency};
use crate::signed::{read_delay, read_offset};
use crate::sort::Sort;
use crate::word::{read_modulation, read_quick_key, read_tag};

impl Sort {
    pub fn takes(self, text: &[u8]) -> bool
        ensures value { result ≡ legal_in self text.now }
    {
        match self {
            Sort::Name(_) => read_name(text).is_some(),
            Sort::Number { low, high } => read_between(text, low, high).is_some(),
            Sort::Flag => read_flag(text).is_some(),
            Sort::Delay => read_delay(text).is_some(),
            Sort::Offset => read_offset(text).is_some(),
            Sort::QuickKey { high } => read_quick_key(text, high).is_some(),
            Sort::Tag => read_tag(text).is_some(),
            Sort::Frequency => read_frequency(text).is_some(),
            Sort::Modulation => read_modulation(text).is_some(),
            Sort::Reserve => false,
        }
    }
}
