// Places in a chain.
ghost use Rattle.std.specs.Prelude.{◌≡◌};
ghost use Rattle.pool.specs.Walks.{sequence};

// A place in a chain, counted from 1; a type of its own beside `Index`, so that a place is never taken for a block.
#[derive(Clone, Copy, PartialEq, Eq)]
pub struct SequenceNumber {
    pub(crate) place: u32,
}

impl SequenceNumber {
    // The place of that number; 0 is no place, and no error, so this is no `TryFrom`.
    pub fn new(place: u32) -> Option<SequenceNumber>
        ensures { result ≡ sequence place }
    {
        if place == 0 {
            None
        } else {
            Some(SequenceNumber { place })
        }
    }

    pub fn place(self) -> u32
        ensures { result ≡ self.place }
    {
        self.place
    }
}
