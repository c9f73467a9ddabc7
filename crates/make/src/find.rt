// A system type found by its name.
ghost use Rattle.std.specs.Prelude.{◌≡◌};
ghost use Rattle.make.specs.Data.{type_named};

use crate::rules::Make;

// The number of the first type with this name.
pub fn type_named<M: Make>(text: &[u8]) -> Option<u8>
    ensures value { result ≡ type_named M.Make.spec.types text.now }
{
    (0..M::type_count()).find(|i| M::type_name(*i) == text)
}
