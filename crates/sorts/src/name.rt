// Names: 1 to 16 bytes, where only spaces give the starting name.
ghost use Rattle.std.specs.Prelude.{◌≡◌};
ghost use Rattle.make.specs.Shapes.{text_byte, every, long};
ghost use Rattle.sorts.specs.Values.{all_spaces, name_text, start_text};

use crate::sort::StartingName;
use crate::value::NameText;

// The most bytes of a name.
const LONGEST_NAME: usize = 16;

// A byte from 32 to 126 that is no comma.
fn is_text_byte(byte: u8) -> bool
    ensures value { result ≡ text_byte byte }
{
    byte >= b' ' && byte <= b'~' && byte != b','
}

// A length from 1 to 16 bytes.
fn has_name_length(text: &[u8]) -> bool
    ensures value { result ≡ long 1 16 text.now }
{
    text.len() >= 1 && text.len() <= LONGEST_NAME
}

fn has_text_bytes(text: &[u8]) -> bool
    ensures value { result ≡ every text_byte text.now }
{
    text.iter().all(|byte| is_text_byte(*byte))
}

fn has_only_spaces(text: &[u8]) -> bool
    ensures value { result ≡ all_spaces text.now }
{
    text.iter().all(|byte| *byte == b' ')
}

// What a text is as a name, if it is one.
pub fn read_name(text: &[u8]) -> Option<NameText>
    ensures value { result ≡ name_text text.now }
{
    if !has_name_length(text) || !has_text_bytes(text) {
        None
    } else if has_only_spaces(text) {
        Some(NameText::Blank)
    } else {
        Some(NameText::Own)
    }
}

impl StartingName {
    pub fn text(self) -> &'static [u8]
        ensures value { result.now ≡ start_text self }
    {
        match self {
            StartingName::System => b"SYSTEM",
            StartingName::Site => b"SITE",
            StartingName::Group => b"GROUP",
            StartingName::Channel => b"CHANNEL",
            StartingName::Talkgroup => b"TGID",
        }
    }
}
