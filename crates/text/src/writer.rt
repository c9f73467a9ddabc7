// Texts written one behind the other into a reply buffer. What lies elsewhere in the buffer stays as it was.
ghost use Rattle.std.specs.Prelude.{◌≡◌, ◌+◌, ◌<◌, ◌≤◌, [], ◌∷◌, length, decimal, unsigned_abs};
ghost use Rattle.std.specs.Fmt.{signed_decimal};
ghost use Rattle.text.specs.Number.{fixed};
ghost use Rattle.text.specs.Writing.{Puts};

use crate::number::{fill_digits, width_of};

// A buffer, and the place behind what is written; what lies behind that place stays as it was.
#[derive(Drop)]
pub struct Writer<'a> {
    pub out: &'a mut [u8],
    pub at: usize,
}

impl<'a> Writer<'a> {
    pub fn put_bytes(&mut self, bytes: &[u8])
        requires room { self.old.at + length bytes.now ≤ length self.old.out.now }
        ensures { Puts self.old self.new bytes.now }
    {
        let end = self.at + bytes.len();
        self.out[self.at..end].copy_from_slice(bytes);
        self.at = end;
    }

    pub fn put_byte(&mut self, byte: u8)
        requires room { self.old.at + 1 ≤ length self.old.out.now }
        ensures { Puts self.old self.new (byte ∷ []) }
    {
        self.put_bytes(&[byte]);
    }

    // Writes the last `width` digits of `n`.
    pub(crate) fn put_digits(&mut self, n: u32, width: usize)
        requires room { self.old.at + width ≤ length self.old.out.now }
        ensures puts { Puts self.old self.new (fixed width n) }
        ensures end { self.new.at ≡ self.old.at + width }
    {
        let end = self.at + width;
        fill_digits(n, &mut self.out[self.at..end]);
        self.at = end;
    }

    // Writes `n` with no leading zeros.
    pub fn put_number(&mut self, n: u32)
        requires small { n < 100000 }
        requires room { self.old.at + 5 ≤ length self.old.out.now }
        ensures puts { Puts self.old self.new (decimal n) }
        ensures bound { self.new.at ≤ self.old.at + 5 }
    {
        self.put_digits(n, width_of(n));
    }

    // Writes `n`, with - in front where it is below 0.
    pub fn put_signed(&mut self, n: i32)
        requires small { unsigned_abs n < 100000 }
        requires room { self.old.at + 6 ≤ length self.old.out.now }
        ensures puts { Puts self.old self.new (signed_decimal n) }
        ensures bound { self.new.at ≤ self.old.at + 6 }
    {
        let magnitude = n.unsigned_abs();
        let below = n < 0;
        if below {
            self.put_byte(b'-');
        }
        self.put_number(magnitude);
    }
}
