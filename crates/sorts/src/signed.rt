// Listed numbers that may have a sign: delays and volume offsets.
ghost use Rattle.std.specs.Prelude.{◌≡◌, if◌then◌else◌, Some, None};
ghost use Rattle.text.specs.Signed.{signed_of};
ghost use Rattle.sorts.specs.Values.{is_delay_value, is_delay, is_offset_value, is_offset, is_short};

use text::signed::read_signed;

fn is_delay(n: i8) -> bool
    ensures value { result ≡ is_delay_value n }
{
    match n {
        -10 | -5 | -2 | 0 | 1 | 2 | 5 | 10 | 30 => true,
        _ => false,
    }
}

fn is_offset(n: i8) -> bool
    ensures value { result ≡ is_offset_value n }
{
    n >= -3 && n <= 3
}

// The number that a text writes, if a byte holds it.
fn read_short(text: &[u8]) -> Option<i8>
    ensures value { result ≡ (if is_short text.now then Some (signed_of text.now) else None) }
{
    i8::try_from(read_signed(text)?).ok()
}

// The delay that a text writes.
pub fn read_delay(text: &[u8]) -> Option<i8>
    ensures value { result ≡ (if is_delay text.now then Some (signed_of text.now) else None) }
{
    read_short(text).filter(|n| is_delay(*n))
}

// The volume offset that a text writes.
pub fn read_offset(text: &[u8]) -> Option<i8>
    ensures value { result ≡ (if is_offset text.now then Some (signed_of text.now) else None) }
{
    read_short(text).filter(|n| is_offset(*n))
}
