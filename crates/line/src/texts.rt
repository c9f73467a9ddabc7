// The fields of a set line: tested against a kind, written into a record.
ghost use Rattle.std.specs.Prelude.{◌≡◌};
ghost use Rattle.text.specs.Fields.{fields_left};
ghost use Rattle.ledger.specs.Texts.{fields_legal};
ghost use Rattle.line.specs.Written.{fields_written};

use make::{Kind, Make};
use text::field::Fields;

// Whether the fields that are still to come are left out or legal, the first of them being field 0 of that kind.
#[tactic(auto, using(crate::proofs::Reading::few_left))]
pub fn fields_legal<M: Make>(kind: Kind, fields: Fields<'_>) -> bool
    ensures value { result ≡ fields_legal M.Make.spec kind 0 (fields_left fields.entry) }
{
    for (number, field) in fields.enumerate() {
        if let Some(part) = field
            && !M::accepts(kind, number, part.bytes)
        {
            return false;
        }
    }
    true
}

// Writes the fields that are still to come into a record, the first of them into its field 0.
#[tactic(auto, using(crate::proofs::Reading::few_left))]
pub fn write_fields<M: Make>(record: &mut M::Record, fields: Fields<'_>)
    ensures after { «record».new ≡ fields_written M.Make.written «record».old 0 (fields_left fields.entry) }
{
    for (number, field) in fields.enumerate() {
        if let Some(part) = field {
            M::write(record, number, part.bytes);
        }
    }
}
