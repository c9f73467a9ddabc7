// The parts of a line: its bytes, its command, and its fields with how many there are.
ghost use Rattle.std.specs.Prelude.{◌≡◌, ◌≤◌, [], length, drop, Some, None, MatchOption, MatchResult, slice_index_or};
ghost use Rattle.text.specs.Fields.{fields_left, text_of};
ghost use Rattle.ledger.specs.Lines.{printable, command, fields};
ghost use Rattle.line.specs.Opening.{refused_before};

use ledger::command::Command;
use ledger::refusal::Refusal;
use text::field::{Fields, Part};

// Whether every byte is from 32 to 126.
pub fn is_printable(line: &[u8]) -> bool
    ensures value { result ≡ printable line.now }
{
    line.iter().all(|b| matches!(b, 32..=126))
}

// The fields behind a command, and how many there are.
#[derive(Clone, Copy)]
pub struct Arguments<'a> {
    pub fields: Fields<'a>,
    pub count: usize,
    ghost counted: { count ≡ length (fields_left fields) },
}

// A line that begins with a command, cut up.
#[derive(Clone, Copy)]
pub struct Parts<'a> {
    pub command: Command,
    pub arguments: Arguments<'a>,
}

// The bytes of a field: none where it is left out.
pub fn bytes_of<'a>(field: Option<Part<'a>>) -> &'a [u8]
    ensures value { result.now ≡ text_of field.entry }
{
    field.map_or(&[], |part| part.bytes)
}

impl<'a> Arguments<'a> {
    // The bytes of the first field: none where it is left out or there is no field.
    pub fn first(self) -> &'a [u8]
        ensures value { result.now ≡ slice_index_or (fields_left self.entry.fields) 0 [] }
    {
        let mut fields = self.fields;
        bytes_of(fields.next().flatten())
    }

    // The fields behind the first.
    pub fn rest(self) -> Fields<'a>
        ensures value { fields_left result ≡ drop 1 (fields_left self.entry.fields) }
    {
        let mut fields = self.fields;
        let _ = fields.next();
        fields
    }
}

// A line has at most this many bytes.
pub const LONGEST_LINE: usize = 256;

// The parts of a line. It is refused where it is too long, then where it has a byte outside 32 to 126, then where its command is unknown.
pub fn read_line<'a>(line: &'a [u8]) -> Result<Parts<'a>, Refusal>
    ensures { MatchResult result (λ p. (refused_before line.now ≡ None) × (command line.now ≡ Some p.command) × (fields_left p.arguments.fields ≡ fields line.now)) (λ e. refused_before line.now ≡ Some e) }
{
    if line.len() > LONGEST_LINE {
        return Err(Refusal::TooLong);
    }
    if !is_printable(line) {
        return Err(Refusal::Wrong);
    }
    parts_of(line).ok_or(Refusal::Wrong)
}

// The command of a line and its fields, or `None` where the command is unknown.
pub fn parts_of<'a>(line: &'a [u8]) -> Option<Parts<'a>>
    ensures value { MatchOption result (command line.now ≡ None) (λ p. (command line.now ≡ Some p.command) × (fields_left p.arguments.fields ≡ fields line.now)) }
{
    let mut fields = Fields::of(line);
    let first = fields.next()?;
    let command = Command::from_letters(bytes_of(first))?;
    let count = fields.count();
    Some(Parts {
        command,
        arguments: Arguments { fields, count },
    })
}
