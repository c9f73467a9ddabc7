// Numbers in a range.
ghost use Rattle.std.specs.Prelude.{◌≡◌, if◌then◌else◌, Some, None};
ghost use Rattle.text.specs.Number.{value};
ghost use Rattle.text.specs.Frequency.{legal_frequency};
ghost use Rattle.sorts.specs.Sorts.{flag, legal_in};
ghost use Rattle.sorts.specs.Values.{is_between, flag_of};

use text::frequency::Frequency;
use text::number::read_number;

// The number from `low` to `high` that a text writes.
pub fn read_between(text: &[u8], low: u32, high: u32) -> Option<u32>
    ensures value { result ≡ (if is_between low high text.now then Some (value text.now) else None) }
{
    read_number(text).filter(|n| low <= *n && *n <= high)
}

// The same of a number that a byte holds; one function for both widths would need a trait that says what a number means, and be no plainer.
pub fn read_small(text: &[u8], low: u8, high: u8) -> Option<u8>
    ensures value { result ≡ (if is_between low high text.now then Some (value text.now) else None) }
{
    read_between(text, low as u32, high as u32).map(|n| n as u8)
}

// The 0 or 1 that a text writes.
pub fn read_flag(text: &[u8]) -> Option<bool>
    ensures value { result ≡ (if legal_in flag text.now then Some (flag_of text.now) else None) }
{
    read_between(text, 0, 1).map(|n| n == 1)
}

// The steps of the frequency that a text writes.
pub fn read_frequency(text: &[u8]) -> Option<u32>
    ensures value { result ≡ (if legal_frequency text.now then Some (value text.now) else None) }
{
    Frequency::from_text(text).map(|frequency| frequency.steps())
}
