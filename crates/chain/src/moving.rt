// A block goes from the free stack behind a chain, out of its chain, and back to the front of the free stack.
ghost use Rattle.std.specs.Prelude.{◌≡◌, ◌+◌, ◌-◌, ◌≤◌, [], length};
ghost use Rattle.chain.specs.Entry.{found, number, first_of, second_of, link_at};
ghost use Rattle.chain.specs.Rows.{occ, head_or};
ghost use Rattle.chain.specs.Blocks.{occ_all, total, Living, created, taken, pushed};
ghost use Rattle.chain.specs.Tables.{Loose, Sound, Spares, blocks_in, chains_in, chain_in, free_in};

use crate::entry::{join, set_beside, set_free};
use crate::link::{Chain, Ends, Index, Link, Member, Side};
use crate::tables::Tables;

impl<'a> Tables<'a> {
    // Takes the front block off the free stack, which has one.
    fn take_front(&mut self)
        requires from { 1 ≤ self.old.free }
        requires upto { self.old.free ≤ length self.old.links.now }
        requires some { 1 ≤ self.old.spare }
        ensures free { self.new.free ≡ (link_at self.old.links.now self.old.free).next }
        ensures spare { self.new.spare ≡ self.old.spare - 1 }
        ensures links { self.new.links.now ≡ self.old.links.now }
        ensures root { self.new.root ≡ self.old.root }
        ensures count { self.new.count ≡ self.old.count }
    {
        self.free = self.links[self.free as usize - 1].next();
        self.spare -= 1;
    }

    // Takes the front block of the free stack, and puts it behind the tail of `chain`; none where no block is free.
    pub(crate) fn append(&mut self, chain: Chain) -> Option<Index>
        requires sound { Sound self.old }
        requires living { Living (blocks_in self.old) chain }
        ensures sound { Sound self.new }
        ensures answer { result ≡ found (head_or 0 (free_in self.old)) }
        ensures blocks { blocks_in self.new ≡ created (blocks_in self.old) (number chain) }
        ensures spared { Spares self.old self.new }
    {
        let x = Index::new(self.free)?;
        let ends = self.ends_of(chain);
        self.take_front();
        self.links[x.number as usize - 1] = Link::Used(Member {
            previous: ends.tail,
            next: 0,
            chain,
            first: Ends::NONE,
            second: Ends::NONE,
        });
        set_beside(self.links, ends.tail, Side::Behind, x.number);
        self.set_ends(chain, ends.with(x.number));
        Some(x)
    }

    // Takes block `x` out of its chain; it is then in none, and not free.
    pub(crate) fn unlink(&mut self, x: Index)
        requires loose { Loose self.old }
        requires member { 1 ≤ occ_all x.number (chains_in self.old) }
        ensures loose { Loose self.new }
        ensures blocks { blocks_in self.new ≡ taken (blocks_in self.old) x.number }
        ensures spared { Spares self.old self.new }
    {
        let link = self.links[x.number as usize - 1];
        if let Link::Used(member) = link {
            join(self.links, member.previous, member.next);
            let ends = self.ends_of(member.chain);
            self.set_ends(member.chain, ends.without(member.previous, member.next));
        }
    }

    // Puts block `x`, which is in no chain and has no members, in front of the free stack.
    pub(crate) fn push(&mut self, x: Index)
        requires loose { Loose self.old }
        requires from { 1 ≤ x.number }
        requires upto { x.number ≤ self.old.count }
        requires out { occ x.number (free_in self.old) + occ_all x.number (chains_in self.old) ≡ 0 }
        requires room { length (free_in self.old) + total (chains_in self.old) + 1 ≤ self.old.count }
        requires first { chain_in self.old (first_of x.number) ≡ [] }
        requires second { chain_in self.old (second_of x.number) ≡ [] }
        ensures loose { Loose self.new }
        ensures blocks { blocks_in self.new ≡ pushed (blocks_in self.old) x.number }
        ensures spared { Spares self.old self.new }
    {
        let front = self.free;
        set_free(self.links, x.number, front);
        self.free = x.number;
        self.spare += 1;
    }
}
