// A block is appended to a chain, or deleted with its members.
ghost use Rattle.std.specs.Prelude.{◌≡◌, ℕ, ◌≤◌, true};
ghost use Rattle.chain.specs.Entry.{found, number};
ghost use Rattle.chain.specs.Rows.{occ, head_or};
ghost use Rattle.chain.specs.Blocks.{Living, is_used, created, deleted};
ghost use Rattle.chain.specs.Tables.{Spares};
ghost use Rattle.chain.specs.View.{blocks_of, chain_of, free_of};

use crate::chains::Chains;
use crate::link::{Chain, Index};

impl<'a> Chains<'a> {
    // Takes the front block of the free stack, and puts it behind the tail of `chain`; none where no block is free.
    pub fn append(&mut self, chain: Chain) -> Option<Index>
        requires { Living (blocks_of self.old) chain }
        ensures answer { result ≡ found (head_or 0 (free_of self.old)) }
        ensures blocks { blocks_of self.new ≡ created (blocks_of self.old) (number chain) }
        ensures spared { Spares self.old.tables self.new.tables }
    {
        self.tables.append(chain)
    }

    // Deletes block `x` with its members: these go first, from head to tail, each in this same way, those of the first chain before those of the second.
    // Each freed block goes to the front of the free stack.
    pub fn remove(&mut self, x: Index)
        requires { is_used (blocks_of self.old) x.number ≡ true }
        ensures blocks { blocks_of self.new ≡ deleted (blocks_of self.old) x.number }
        ensures parts { (i d : ℕ) → occ i (chain_of self.new d) ≤ occ i (chain_of self.old d) }
        ensures spared { Spares self.old.tables self.new.tables }
    {
        self.tables.unlink(x);
        self.tables.clear(x);
    }
}
