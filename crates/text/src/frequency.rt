// Frequencies in steps of 100 Hz: 0, or from 25 MHz to 1300 MHz.
ghost use Rattle.std.specs.Prelude.{◌≡◌, ◌+◌, ◌≤◌, true, false, T, length, if◌then◌else◌, MatchOption, MatchResult};
ghost use Rattle.text.specs.Frequency.{in_band, legal_frequency};
ghost use Rattle.text.specs.Number.{value, fixed};
ghost use Rattle.text.specs.Writing.{Puts};

use crate::number::read_digits;
use crate::writer::Writer;

// A frequency is read from at most, and shown with, this many digits.
const FREQUENCY_DIGITS: usize = 8;

const LOWEST: u32 = 250_000;

const HIGHEST: u32 = 13_000_000;

// A frequency that the engine may hold: 0, or from LOWEST to HIGHEST.
#[derive(Clone, Copy)]
pub struct Frequency {
    steps: u32,
    ghost ok: { T (in_band steps) },
}

// A number of steps outside the band.
#[derive(Clone, Copy, Debug, PartialEq, Eq)]
pub struct OutOfBand;

// The frequency of a number of steps, as a table's row holds it.
impl TryFrom<u32> for Frequency {
    type Error = OutOfBand;

    ghost try_from_gives = { λ steps r. MatchResult r (λ f. (f.steps ≡ steps) × (in_band steps ≡ true)) (λ _. in_band steps ≡ false) };

    fn try_from(steps: u32) -> Result<Frequency, OutOfBand> {
        match steps {
            0 | LOWEST..=HIGHEST => Ok(Frequency { steps }),
            _ => Err(OutOfBand),
        }
    }
}

impl Frequency {
    // The frequency of a table's row: 0 where the row's number is none.
    pub fn from_row(steps: u32) -> Frequency
        ensures { result.steps ≡ (if in_band steps then steps else 0) }
    {
        Frequency::try_from(steps).unwrap_or(Frequency { steps: 0 })
    }

    // The frequency that a text of one to eight digits writes.
    pub fn from_text(text: &[u8]) -> Option<Frequency>
        ensures { MatchOption result (legal_frequency text.now ≡ false) (λ f. (f.steps ≡ value text.now) × (legal_frequency text.now ≡ true)) }
    {
        let steps = read_digits(text, FREQUENCY_DIGITS)?;
        Frequency::try_from(steps).ok()
    }

    // The number of steps, as a table's row holds it.
    pub fn steps(self) -> u32
        ensures { result ≡ self.steps }
    {
        self.steps
    }

    // Writes the frequency with eight digits.
    pub fn put(self, w: &mut Writer<'_>)
        requires room { w.old.at + 8 ≤ length w.old.out.now }
        ensures puts { Puts w.old w.new (fixed 8 self.steps) }
        ensures end { w.new.at ≡ w.old.at + 8 }
    {
        w.put_digits(self.steps, FREQUENCY_DIGITS);
    }
}
