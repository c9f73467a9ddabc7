// What is read of a block or a chain, in constant time.
ghost use Rattle.std.specs.Prelude.{◌≡◌, true};
ghost use Rattle.chain.specs.Entry.{found, number, member_of};
ghost use Rattle.chain.specs.Rows.{head_or, last_or};
ghost use Rattle.chain.specs.Blocks.{Living, is_used, home_of, owner_of, next_in, prev_in, ends_by, link_of};
ghost use Rattle.chain.specs.View.{blocks_of, chain_of};

use crate::chains::Chains;
use crate::link::{Chain, Ends, Index, Link, Member};

// Next and previous, head and tail stay two each, and take no side as a parameter: the definitions have both.
impl<'a> Chains<'a> {
    // What block `x` is in its chain; none where it is free, or is no block.
    fn member(&self, x: Index) -> Option<Member>
        ensures { result ≡ member_of (link_of (blocks_of self.now) x.number) }
    {
        let number = x.number;
        let count = self.tables.count;
        if number == 0 || number > count {
            return None;
        }
        match self.tables.links[number as usize - 1] {
            Link::Used(member) => Some(member),
            Link::Free(_) => None,
        }
    }

    // Whether block `x` is in a chain.
    pub fn is_used(&self, x: Index) -> bool
        ensures { result ≡ is_used (blocks_of self.now) x.number }
    {
        self.member(x).is_some()
    }

    // The chain that block `x` is in; none where it is free.
    pub fn chain(&self, x: Index) -> Option<Chain>
        ensures { result ≡ home_of (blocks_of self.now) x.number }
    {
        Some(self.member(x)?.chain)
    }

    // The block whose member `x` is; none where it is free or in the root's chain.
    pub fn owner(&self, x: Index) -> Option<Index>
        ensures { result ≡ owner_of (home_of (blocks_of self.now) x.number) }
    {
        match self.chain(x)? {
            Chain::Members { owner, branch: _ } => Some(owner),
            Chain::Root => None,
        }
    }

    // The block behind `x` in its chain.
    pub fn next(&self, x: Index) -> Option<Index>
        ensures { result ≡ found (next_in (blocks_of self.now) x.number) }
    {
        Index::new(self.member(x)?.next)
    }

    // The block behind `x`, which is in use: a walk stands at such a block, and need not ask again.
    pub(crate) fn behind(&self, x: Index) -> Option<Index>
        requires { is_used (blocks_of self.now) x.number ≡ true }
        ensures { result ≡ found (next_in (blocks_of self.now) x.number) }
    {
        match self.tables.links[x.number as usize - 1] {
            Link::Used(member) => Index::new(member.next),
            Link::Free(_) => None,
        }
    }

    // The block before `x` in its chain.
    pub fn previous(&self, x: Index) -> Option<Index>
        ensures { result ≡ found (prev_in (blocks_of self.now) x.number) }
    {
        Index::new(self.member(x)?.previous)
    }

    // The ends of a chain, which is the root's or whose owner is in use.
    fn ends(&self, chain: Chain) -> Ends
        requires { Living (blocks_of self.now) chain }
        ensures { result ≡ ends_by (chain_of self.now (number chain)) }
    {
        self.tables.ends_of(chain)
    }

    // The oldest block of a chain, which is the root's or whose owner is in use.
    pub fn head(&self, chain: Chain) -> Option<Index>
        requires { Living (blocks_of self.now) chain }
        ensures { result ≡ found (head_or 0 (chain_of self.now (number chain))) }
    {
        Index::new(self.ends(chain).head)
    }

    // The newest block of a chain, which is the root's or whose owner is in use.
    pub fn tail(&self, chain: Chain) -> Option<Index>
        requires { Living (blocks_of self.now) chain }
        ensures { result ≡ found (last_or 0 (chain_of self.now (number chain))) }
    {
        Index::new(self.ends(chain).tail)
    }
}
