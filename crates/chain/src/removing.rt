// A block goes to the free stack after all its members.
ghost use Rattle.std.specs.Prelude.{◌≡◌, ℕ, ◌+◌, ◌≤◌, length, ◌≢◌};
ghost use Rattle.chain.specs.Entry.{found, link_at, front_of, first_of, second_of};
ghost use Rattle.chain.specs.Rows.{occ, tick};
ghost use Rattle.chain.specs.Blocks.{occ_all, total, cleared, removed};
ghost use Rattle.chain.specs.Tables.{Loose, Spares, blocks_in, chains_in, chain_in, free_in};

use crate::link::{Branch, Index};
use crate::tables::Tables;

impl<'a> Tables<'a> {
    // The head of the first chain of the members of `x`, or else that of the second.
    fn front_member(&self, x: Index) -> Option<Index>
        requires from { 1 ≤ x.number }
        requires upto { x.number ≤ length self.now.links.now }
        ensures { result ≡ found (front_of (link_at self.now.links.now x.number)) }
    {
        let link = self.links[x.number as usize - 1];
        let head = |branch| Index::new(link.ends(branch).head);
        head(Branch::First).or(head(Branch::Second))
    }

    // Frees block `x`, which is in no chain, after its members, each with its own members before it.
    pub(crate) fn clear(&mut self, x: Index)
        requires loose { Loose self.old }
        requires from { 1 ≤ x.number }
        requires upto { x.number ≤ self.old.count }
        requires out { occ x.number (free_in self.old) + occ_all x.number (chains_in self.old) ≡ 0 }
        requires room { length (free_in self.old) + total (chains_in self.old) + 1 ≤ self.old.count }
        ensures loose { Loose self.new }
        ensures blocks { (m : ℕ) → total (chains_in self.old) ≤ m → blocks_in self.new ≡ cleared (removed m) (blocks_in self.old) x.number }
        ensures counts { (i : ℕ) → occ i (free_in self.new) + occ_all i (chains_in self.new) ≡ tick i x.number + (occ i (free_in self.old) + occ_all i (chains_in self.old)) }
        ensures size { length (free_in self.new) + total (chains_in self.new) ≡ length (free_in self.old) + total (chains_in self.old) + 1 }
        ensures fewer { total (chains_in self.new) ≤ total (chains_in self.old) }
        ensures shrinks { (i : ℕ) → occ_all i (chains_in self.new) ≤ occ_all i (chains_in self.old) }
        ensures parts { (i d : ℕ) → occ i (chain_in self.new d) ≤ occ i (chain_in self.old d) }
        ensures others { (o : ℕ) → 1 ≤ o → (o ≢ x.number) → occ_all o (chains_in self.old) ≡ 0 → (chain_in self.new (first_of o) ≡ chain_in self.old (first_of o)) × (chain_in self.new (second_of o) ≡ chain_in self.old (second_of o)) }
        ensures spared { Spares self.old self.new }
    {
        while let Some(y) = self.front_member(x) {
            self.unlink(y);
            self.clear(y);
        }
        self.push(x);
    }
}
