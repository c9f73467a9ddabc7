// Opening a memory over lent tables, and emptying it.
ghost use Rattle.std.specs.Prelude.{◌≡◌, min, length, drop};
ghost use Rattle.ledger.specs.Ledger.{emptied, block_count};
ghost use Rattle.pool.specs.Elements.{filled};
ghost use Rattle.memory.specs.View.{store_of, Spared};
ghost use Rattle.memory.specs.Table.{blank};

use crate::memory::Memory;
use chain::Link;
use make::{Kind, Make};
use pool::Pool;

impl<'a, M: Make> Memory<'a, M> {
    // A memory with every block free. It has as many blocks as the shorter table has entries, and at most the make's maximum.
    pub fn open(links: &'a mut [Link], records: &'a mut [M::Record]) -> Memory<'a, M>
        ensures store { store_of M.Make result.pool ≡ emptied M.Make.spec (min (min (length links.old) (length records.old)) M.Make.spec.most) }
        ensures links { drop result.pool.chains.tables.count result.pool.chains.tables.links.now ≡ drop result.pool.chains.tables.count links.old }
        ensures records { result.pool.elements.now ≡ filled result.pool.chains.tables.count (blank M.Make) records.old }
    {
        let most = M::block_maximum() as u32;
        let blank = M::fresh(Kind::System, 0);
        Memory {
            pool: Pool::open(links, records, most, blank),
        }
    }

    // Frees every block, as after opening.
    pub fn clear(&mut self)
        ensures store { (store_of M.Make self.new.pool) ≡ emptied M.Make.spec (block_count (store_of M.Make self.old.pool)) }
        ensures records { self.new.pool.elements.now ≡ filled self.old.pool.chains.tables.count (blank M.Make) self.old.pool.elements.now }
        ensures spared { Spared self.old.pool self.new.pool }
    {
        let blank = M::fresh(Kind::System, 0);
        self.pool.reopen(blank);
    }
}
