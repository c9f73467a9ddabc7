// What changes a memory.
ghost use Rattle.std.specs.Prelude.{◌≡◌, ◌<◌, ◌≤◌, true, length};
ghost use Rattle.chain.specs.Entry.{number};
ghost use Rattle.chain.specs.Rows.{head_or};
ghost use Rattle.chain.specs.Blocks.{Living, deleted};
ghost use Rattle.text.specs.Fields.{fields_left};
ghost use Rattle.ledger.specs.Ledger.{number_of, holding, living};
ghost use Rattle.ledger.specs.Texts.{fields_legal};
ghost use Rattle.ledger.specs.Steps.{grown, written};
ghost use Rattle.pool.specs.Elements.{stored};
ghost use Rattle.memory.specs.View.{store_of, Spared};
ghost use Rattle.memory.specs.Table.{rewritten};
ghost use Rattle.reply.specs.Shown.{Proper};

use crate::memory::Memory;
use chain::{Chain, Index};
use line::texts::write_fields;
use make::{Kind, Make};
use text::field::Fields;

impl<'a, M: Make> Memory<'a, M> {
    // A new record of a kind and a type at the tail of a chain, which is that of the systems or whose owner is living. `None` where no block is free.
    pub fn create(&mut self, chain: Chain, kind: Kind, system_type: u8) -> Option<Index>
        requires living { Living (store_of M.Make self.old.pool).blocks chain }
        ensures value { number_of result ≡ head_or 0 (store_of M.Make self.old.pool).blocks.free }
        ensures proper { Proper result }
        ensures store { (store_of M.Make self.new.pool) ≡ grown M.Make.spec (store_of M.Make self.old.pool) (number chain) kind system_type }
        ensures records { self.new.pool.elements.now ≡ stored (head_or 0 (store_of M.Make self.old.pool).blocks.free) (M.Make.made kind system_type) self.old.pool.elements.now }
        ensures spared { Spared self.old.pool self.new.pool }
    {
        let record = M::fresh(kind, system_type);
        self.pool.create(chain, record)
    }

    // Deletes record `x` with its members.
    pub fn delete(&mut self, x: Index)
        requires living { living (store_of M.Make self.old.pool) x.number ≡ true }
        ensures store { (store_of M.Make self.new.pool) ≡ record { blocks = deleted (store_of M.Make self.old.pool).blocks x.number; held = (store_of M.Make self.old.pool).held } }
        ensures records { self.new.pool.elements.now ≡ self.old.pool.elements.now }
        ensures spared { Spared self.old.pool self.new.pool }
    {
        self.pool.delete(x);
    }

    // Writes the fields that are still to come into record `x`. All of them are left out or legal there.
    pub fn write(&mut self, x: Index, fields: Fields<'_>)
        requires living { living (store_of M.Make self.old.pool) x.number ≡ true }
        requires legal { fields_legal M.Make.spec (holding (store_of M.Make self.old.pool) x.number).kind 0 (fields_left fields) ≡ true }
        ensures store { (store_of M.Make self.new.pool) ≡ written M.Make.spec (store_of M.Make self.old.pool) x.number (holding (store_of M.Make self.old.pool) x.number) (fields_left fields.entry) }
        ensures records { self.new.pool.elements.now ≡ rewritten M.Make x.number (fields_left fields.entry) self.old.pool.elements.now }
        ensures spared { Spared self.old.pool self.new.pool }
    {
        let mut record = self.pool.read(x);
        write_fields::<M>(&mut record, fields);
        self.pool.replace(x, record);
    }
}
