// The two states of a line, and why a line does not pass its test.
ghost use Rattle.std.specs.Prelude.{◌≡◌, true};
ghost use Rattle.line.specs.Opening.{opens};

use chain::Index;
use make::Kind;

// A line that no test has passed.
#[derive(Drop)]
pub struct UntestedLine<'a> {
    pub line: &'a [u8],
}

// The block that a set line names, and the kind of the record found there.
#[derive(Clone, Copy)]
pub(crate) struct Found {
    pub(crate) index: Index,
    pub(crate) kind: Kind,
}

// A set line that a test has passed. Only a test makes one, and one write spends it.
#[derive(Drop)]
pub struct TestedLine<'a> {
    pub(crate) line: &'a [u8],
    pub(crate) found: Found,
    ghost open: { opens line.now ≡ true },
}

// Why a test gives no tested line.
#[derive(Clone, Copy, PartialEq, Eq, Debug)]
pub enum TestError {
    // Number 1: the buffer is too short for a reply.
    ShortBuffer,
    // The line is refused: how many bytes of the buffer are the refusal.
    Refused(usize),
}
