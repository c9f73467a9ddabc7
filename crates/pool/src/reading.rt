// What is read of a block or a chain, in constant time.
ghost use Rattle.std.specs.Prelude.{◌≡◌, length};
ghost use Rattle.chain.specs.Entry.{found, number};
ghost use Rattle.chain.specs.Rows.{head_or, last_or};
ghost use Rattle.chain.specs.Blocks.{Living, is_used, home_of, owner_of, next_in, prev_in};
ghost use Rattle.chain.specs.View.{blocks_of, chain_of, free_of};

use crate::pool::Pool;
use chain::{Chain, Index};

// A pool answers for its chains, and does not hand them out: `Deref` would show how it is made.
impl<'a, T> Pool<'a, T> {
    // How many blocks there are.
    pub fn count(&self) -> u32
        ensures { result ≡ self.now.chains.tables.count }
    {
        self.chains.count()
    }

    // How many blocks are free.
    pub fn spare(&self) -> u32
        ensures { result ≡ length (free_of self.now.chains) }
    {
        self.chains.spare()
    }

    // Whether block `x` is in a chain.
    pub fn is_used(&self, x: Index) -> bool
        ensures { result ≡ is_used (blocks_of self.now.chains) x.number }
    {
        self.chains.is_used(x)
    }

    // The chain that block `x` is in; none where it is free.
    pub fn chain(&self, x: Index) -> Option<Chain>
        ensures { result ≡ home_of (blocks_of self.now.chains) x.number }
    {
        self.chains.chain(x)
    }

    // The block whose member `x` is; none where it is free or in the root's chain.
    pub fn owner(&self, x: Index) -> Option<Index>
        ensures { result ≡ owner_of (home_of (blocks_of self.now.chains) x.number) }
    {
        self.chains.owner(x)
    }

    // The block behind `x` in its chain.
    pub fn next(&self, x: Index) -> Option<Index>
        ensures { result ≡ found (next_in (blocks_of self.now.chains) x.number) }
    {
        self.chains.next(x)
    }

    // The block before `x` in its chain.
    pub fn previous(&self, x: Index) -> Option<Index>
        ensures { result ≡ found (prev_in (blocks_of self.now.chains) x.number) }
    {
        self.chains.previous(x)
    }

    // The oldest block of a chain, which is the root's or whose owner is in use.
    pub fn head(&self, chain: Chain) -> Option<Index>
        requires { Living (blocks_of self.now.chains) chain }
        ensures { result ≡ found (head_or 0 (chain_of self.now.chains (number chain))) }
    {
        self.chains.head(chain)
    }

    // The newest block of a chain, which is the root's or whose owner is in use.
    pub fn tail(&self, chain: Chain) -> Option<Index>
        requires { Living (blocks_of self.now.chains) chain }
        ensures { result ≡ found (last_or 0 (chain_of self.now.chains (number chain))) }
    {
        self.chains.tail(chain)
    }
}
