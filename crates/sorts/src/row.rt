// A row of a make's table.
ghost use Rattle.std.specs.Prelude.{◌≡◌};
ghost use Rattle.sorts.specs.Plans.{reserve_row};
ghost use Rattle.sorts.specs.Sorts.{flag};
ghost use Rattle.sorts.specs.declared.sort.Sort.{Sort};

use crate::sort::Sort;

// A field's name and its sort.
#[derive(Clone, Copy)]
pub struct FieldRow {
    pub name: &'static [u8],
    pub sort: Sort,
}

impl FieldRow {
    pub fn new(name: &'static [u8], sort: Sort) -> FieldRow
        ensures name { result.name.now ≡ name.now }
        ensures sort { result.sort ≡ sort }
    {
        FieldRow { name, sort }
    }

    // The row of a number that a byte holds.
    pub fn small(name: &'static [u8], low: u8, high: u8) -> FieldRow
        ensures name { result.name.now ≡ name.now }
        ensures sort { result.sort ≡ Sort.Number low high }
    {
        let (low, high) = (low as u32, high as u32);
        FieldRow::new(name, Sort::Number { low, high })
    }

    // The row of a field without a range, which is 0 or 1.
    pub fn flag(name: &'static [u8]) -> FieldRow
        ensures name { result.name.now ≡ name.now }
        ensures sort { result.sort ≡ flag }
    {
        FieldRow::new(name, Sort::Flag)
    }

    // The row of a reserve field.
    pub fn reserve() -> FieldRow
        ensures name { result.name.now ≡ reserve_row.name }
        ensures sort { result.sort ≡ reserve_row.sort }
    {
        FieldRow::new(b"RSV", Sort::Reserve)
    }
}
