// Numbers with a sign: one + or - may lead one to five digits; only - is shown, and never for 0.
ghost use Rattle.std.specs.Prelude.{◌≡◌, ◌<◌, pos, if◌then◌else◌, Some, None, unsigned_abs};
ghost use Rattle.std.specs.Option.{option_map, ForSome};
ghost use Rattle.text.specs.Number.{number_in};
ghost use Rattle.text.specs.Signed.{is_signed, signed_of};

use crate::number::read_number;

// The number that one to five digits write.
#[tactic(auto, using(crate::proofs::Texts::read_below))]
fn read_magnitude(text: &[u8]) -> Option<i32>
    ensures value { result ≡ option_map pos (number_in 5 text.now) }
    ensures small { ForSome result (λ n. unsigned_abs n < 100000) }
{
    let n = read_number(text)?;
    Some(n as i32)
}

// The number that a text writes, with or without a sign.
pub fn read_signed(text: &[u8]) -> Option<i32>
    ensures { result ≡ (if is_signed text.now then Some (signed_of text.now) else None) }
{
    match text {
        [b'-', digits @ ..] => read_magnitude(digits).map(|n| -n),
        [b'+', digits @ ..] => read_magnitude(digits),
        _ => read_magnitude(text),
    }
}
