// Elements are created, deleted, read and replaced.
ghost use Rattle.std.specs.Prelude.{◌≡◌, ℕ, ◌-◌, ◌<◌, ◌≤◌, true, length, slice_index_or, slice_set};
ghost use Rattle.chain.specs.Entry.{found, number};
ghost use Rattle.chain.specs.Rows.{head_or, occ};
ghost use Rattle.chain.specs.Blocks.{Living, is_used, created, deleted};
ghost use Rattle.chain.specs.Tables.{Spares};
ghost use Rattle.chain.specs.View.{blocks_of, chain_of, free_of};
ghost use Rattle.pool.specs.Elements.{stored};

use crate::pool::Pool;
use chain::{Chain, Index};

impl<'a, T> Pool<'a, T> {
    // Puts `element` into the front free block, and that block behind the tail of `chain`; none where no block is free.
    pub fn create(&mut self, chain: Chain, element: T) -> Option<Index>
    where
        T: Copy,
        requires { Living (blocks_of self.old.chains) chain }
        ensures answer { result ≡ found (head_or 0 (free_of self.old.chains)) }
        ensures blocks { blocks_of self.new.chains ≡ created (blocks_of self.old.chains) (number chain) }
        ensures elements { self.new.elements.now ≡ stored (head_or 0 (free_of self.old.chains)) element self.old.elements.now }
        ensures spared { Spares self.old.chains.tables self.new.chains.tables }
    {
        let x = self.chains.append(chain)?;
        self.elements[x.number() as usize - 1] = element;
        Some(x)
    }

    // Deletes block `x` with its members: these go first, from head to tail, each in this same way, those of the first chain before those of the second.
    // Each freed block goes to the front of the free stack.
    pub fn delete(&mut self, x: Index)
        requires { is_used (blocks_of self.old.chains) x.number ≡ true }
        ensures blocks { blocks_of self.new.chains ≡ deleted (blocks_of self.old.chains) x.number }
        ensures parts { (i d : ℕ) → occ i (chain_of self.new.chains d) ≤ occ i (chain_of self.old.chains d) }
        ensures elements { self.new.elements.now ≡ self.old.elements.now }
        ensures spared { Spares self.old.chains.tables self.new.chains.tables }
    {
        self.chains.remove(x);
    }

    // Where the element of block `x` stands, which is in use.
    fn slot(&self, x: Index) -> usize
        requires { is_used (blocks_of self.now.chains) x.number ≡ true }
        ensures value { result ≡ x.number - 1 }
        ensures within { result < length self.now.elements.now }
    {
        x.number() as usize - 1
    }

    // The element of block `x`, which is in use.
    pub fn read(&self, x: Index) -> T
    where
        T: Copy,
        requires { is_used (blocks_of self.now.chains) x.number ≡ true }
        ensures { (d : T) → result ≡ slice_index_or self.now.elements.now (x.number - 1) d }
    {
        self.elements[self.slot(x)]
    }

    // Puts another element into block `x`, which is in use.
    pub fn replace(&mut self, x: Index, element: T)
    where
        T: Copy,
        requires { is_used (blocks_of self.old.chains) x.number ≡ true }
        ensures elements { self.new.elements.now ≡ slice_set self.old.elements.now (x.number - 1) element }
        ensures same { self.new.chains ≡ self.old.chains }
    {
        let slot = self.slot(x);
        self.elements[slot] = element;
    }
}
