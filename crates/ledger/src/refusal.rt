// Why a line is refused.
ghost use Rattle.std.specs.Prelude.{◌≡◌};
ghost use Rattle.ledger.specs.Refusals.{refusal_of};

#[derive(Clone, Copy, PartialEq, Eq, Debug)]
pub enum Refusal {
    TooLong,
    Wrong,
    ModeOff,
}

impl Refusal {
    // The reply to a line that is refused.
    pub fn text(self) -> &'static [u8]
        ensures value { result.now ≡ refusal_of self }
    {
        match self {
            Refusal::TooLong => b"ORER\r",
            Refusal::Wrong => b"ERR\r",
            Refusal::ModeOff => b"NG\r",
        }
    }
}
