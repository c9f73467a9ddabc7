// Numbers without a sign: read from one to five digits, shown without leading zeros.
ghost use Rattle.std.specs.Prelude.{◌≡◌, ◌<◌, ◌≤◌, length, decimal};
ghost use Rattle.text.specs.Number.{number_in, fixed};

// A number that is read has at most this many digits.
const NUMBER_DIGITS: usize = 5;

// The number that one to `most` digits write. The library's `parse` takes a `str`, a sign, and any number of digits.
#[tactic(auto, using(crate::proofs::Steps::ten_fits))]
pub(crate) fn read_digits(text: &[u8], most: usize) -> Option<u32>
    requires { most ≤ 9 }
    ensures { result ≡ number_in most text.now }
{
    if text.is_empty() || text.len() > most {
        return None;
    }
    let mut n = 0;
    for b in text {
        if !b.is_ascii_digit() {
            return None;
        }
        n = n * 10 + u32::from(*b - b'0');
    }
    Some(n)
}

// The number that a text of one to five digits writes.
pub fn read_number(text: &[u8]) -> Option<u32>
    ensures { result ≡ number_in 5 text.now }
{
    read_digits(text, NUMBER_DIGITS)
}

// Fills `out` with the last digits of `n`, as many as it has places. It calls itself as the definition does; what `fmt` writes no contract says.
pub(crate) fn fill_digits(n: u32, out: &mut [u8])
    ensures { out.new ≡ fixed (length out.old) n }
{
    if let Some((last, front)) = out.split_last_mut() {
        *last = b'0' + (n % 10) as u8;
        fill_digits(n / 10, front);
    }
}

// How many digits a number of at most five has.
pub(crate) fn width_of(n: u32) -> usize
    requires { n < 100000 }
    ensures { (fixed result n ≡ decimal n) × (result ≡ length (decimal n)) × (result ≤ 5) }
{
    n.max(1).ilog10() as usize + 1
}
