// The name of a record: at most 16 bytes.
ghost use Rattle.std.specs.Prelude.{◌≡◌, ◌≤◌, List, ℕ, length, take};
ghost use Rattle.common.specs.Name.{padded, written_name};
ghost use Rattle.common.specs.NameLaws.{fields_back};

use sorts::{NameText, StartingName, read_name};
use std::marker::Model;

// The most bytes of a name.
const LONGEST_NAME: usize = 16;

// Behind the bytes that count stand zeros. An `ArrayString` counts in a `usize`: with it a record would be longer than the 48 bytes that a test allows.
#[derive(Clone, Copy)]
pub struct Name {
    bytes: [u8; LONGEST_NAME],
    len: u8,
}

impl Model for Name {
    ghost Value = { List ℕ };

    ghost view = { λ n. take n.len n.bytes };

    ghost invariant = { λ n. (n.len ≤ 16) × (n.bytes ≡ padded (take n.len n.bytes)) };

    ghost inverse = { λ t. record { bytes = padded t; len = length t } };

    ghost inverse_ok = { λ a h. fields_back a.len a.bytes h.0 h.1 (λ bytes len. record { bytes = bytes; len = len }) };
}

impl Name {
    pub fn new(text: &[u8]) -> Name
        requires short { length text.now ≤ 16 }
        ensures value { result ≡ text.now }
    {
        let mut bytes = [0; LONGEST_NAME];
        bytes[..text.len()].copy_from_slice(text);
        Name {
            bytes,
            len: text.len() as u8,
        }
    }

    // The bytes that count.
    pub fn text(&self) -> &[u8]
        ensures value { result.now ≡ self.now }
        ensures short { length result.now ≤ 16 }
    {
        &self.bytes[..self.len as usize]
    }

    // Writes a text as the name, if it is one.
    pub fn write(&mut self, start: StartingName, text: &[u8])
        ensures after { self.new ≡ written_name self.old start text.now }
    {
        match read_name(text) {
            None => {}
            Some(NameText::Blank) => *self = Name::new(start.text()),
            Some(NameText::Own) => *self = Name::new(text),
        }
    }
}
