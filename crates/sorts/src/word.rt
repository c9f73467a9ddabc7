// Values that words stand for: flags, quick keys, tags and modulations.
ghost use Rattle.std.specs.Prelude.{◌≡◌, ◌+◌, ◌<◌, ◌≤◌, length, if◌then◌else◌, Some, None};
ghost use Rattle.std.specs.Option.{ForSome};
ghost use Rattle.text.specs.Writing.{Puts};
ghost use Rattle.sorts.specs.Values.{flag_text, number_or, is_quick_key, quick_key_of, quick_key_text, is_tag, tag_of, tag_text, is_modulation, modulation_of, modulation_text};

use crate::range::{read_between, read_small};
use crate::value::{Modulation, QuickKey, Tag};
use text::writer::Writer;

// The word for no quick key.
const NO_KEY: &[u8] = b".";

// The word for no tag.
const NO_TAG: &[u8] = b"NONE";

// The highest tag.
const HIGHEST_TAG: u32 = 999;

pub fn put_flag(w: &mut Writer<'_>, flag: bool)
    requires room { w.old.at + 5 ≤ length w.old.out.now }
    ensures puts { Puts w.old w.new (flag_text flag) }
    ensures bound { w.new.at ≤ w.old.at + 5 }
{
    w.put_byte(if flag { b'1' } else { b'0' });
}

// Puts a number, or the word that stands for none.
fn put_number_or(w: &mut Writer<'_>, number: Option<u32>, word: &[u8])
    requires small { ForSome number (λ n. n < 100000) }
    requires word { length word.now ≤ 5 }
    requires room { w.old.at + 5 ≤ length w.old.out.now }
    ensures puts { Puts w.old w.new (number_or word.now number) }
    ensures bound { w.new.at ≤ w.old.at + 5 }
{
    match number {
        Some(n) => w.put_number(n),
        None => w.put_bytes(word),
    }
}

// Quick keys and tags are read by two functions: each value has its own width.

// The quick key up to `high` that a text stands for.
pub fn read_quick_key(text: &[u8], high: u8) -> Option<QuickKey>
    ensures value { result ≡ (if is_quick_key high text.now then Some (quick_key_of text.now) else None) }
{
    if text == NO_KEY {
        Some(None)
    } else {
        read_small(text, 0, high).map(Some)
    }
}

pub fn put_quick_key(w: &mut Writer<'_>, key: QuickKey)
    requires room { w.old.at + 5 ≤ length w.old.out.now }
    ensures puts { Puts w.old w.new (quick_key_text key) }
    ensures bound { w.new.at ≤ w.old.at + 5 }
{
    put_number_or(w, key.map(u32::from), NO_KEY);
}

// The tag that a text stands for.
pub fn read_tag(text: &[u8]) -> Option<Tag>
    ensures value { result ≡ (if is_tag text.now then Some (tag_of text.now) else None) }
{
    if text == NO_TAG {
        Some(None)
    } else {
        read_between(text, 0, HIGHEST_TAG).map(|n| Some(n as u16))
    }
}

pub fn put_tag(w: &mut Writer<'_>, tag: Tag)
    requires room { w.old.at + 5 ≤ length w.old.out.now }
    ensures puts { Puts w.old w.new (tag_text tag) }
    ensures bound { w.new.at ≤ w.old.at + 5 }
{
    put_number_or(w, tag.map(u32::from), NO_TAG);
}

impl Modulation {
    pub const ALL: [Modulation; 6] = [
        Modulation::Auto,
        Modulation::Am,
        Modulation::Fm,
        Modulation::Nfm,
        Modulation::Wfm,
        Modulation::Fmb,
    ];

    pub fn text(self) -> &'static [u8]
        ensures value { result.now ≡ modulation_text self }
    {
        match self {
            Modulation::Auto => b"AUTO",
            Modulation::Am => b"AM",
            Modulation::Fm => b"FM",
            Modulation::Nfm => b"NFM",
            Modulation::Wfm => b"WFM",
            Modulation::Fmb => b"FMB",
        }
    }
}

// The modulation that a text names.
pub fn read_modulation(text: &[u8]) -> Option<Modulation>
    ensures value { result ≡ (if is_modulation text.now then Some (modulation_of text.now) else None) }
{
    Modulation::ALL
        .iter()
        .copied()
        .find(|modulation| text == modulation.text())
}

pub fn put_modulation(w: &mut Writer<'_>, modulation: Modulation)
    requires room { w.old.at + 5 ≤ length w.old.out.now }
    ensures puts { Puts w.old w.new (modulation_text modulation) }
    ensures bound { w.new.at ≤ w.old.at + 5 }
{
    w.put_bytes(modulation.text());
}
