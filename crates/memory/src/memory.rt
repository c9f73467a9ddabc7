// The one struct that carries the invariant.
ghost use Rattle.std.specs.Prelude.{◌≤◌};

use make::Make;
use pool::Pool;

// The records of a make.
#[derive(Drop)]
pub struct Memory<'a, M: Make> {
    pub(crate) pool: Pool<'a, M::Record>,
    ghost few: { pool.chains.tables.count ≤ 45000 },
}
