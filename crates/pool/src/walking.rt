// Walks along a chain, for any sort of element.
ghost use Rattle.std.specs.Prelude.{◌≡◌, ℕ, ◌-◌, length, slice_index_or};
ghost use Rattle.chain.specs.Entry.{found, number};
ghost use Rattle.chain.specs.Blocks.{Living, home_of, row_of};
ghost use Rattle.chain.specs.View.{blocks_of, chain_of};
ghost use Rattle.pool.specs.Walks.{sequence, block_at, place_in, first_that};

use crate::pool::Pool;
use crate::sequence::SequenceNumber;
use crate::sought::Sought;
use chain::{Chain, Index};

impl<'a, T> Pool<'a, T> {
    // How many blocks a chain has, which is the root's or whose owner is in use.
    pub fn len(&self, chain: Chain) -> u32
        requires { Living (blocks_of self.now.chains) chain }
        ensures { result ≡ length (chain_of self.now.chains (number chain)) }
    {
        self.chains.walk(chain).count() as u32
    }

    // The block at a place of a chain, which is the root's or whose owner is in use.
    pub fn block_at(&self, chain: Chain, place: SequenceNumber) -> Option<Index>
        requires { Living (blocks_of self.now.chains) chain }
        ensures { result ≡ found (block_at (chain_of self.now.chains (number chain)) place.place) }
    {
        let before = place.place.checked_sub(1)?;
        self.chains.walk(chain).nth(before as usize)
    }

    // The place of block `x` in its chain; none where it is free.
    pub fn place(&self, x: Index) -> Option<SequenceNumber>
        ensures { result ≡ sequence (place_in (row_of (blocks_of self.now.chains) (home_of (blocks_of self.now.chains) x.number)) x.number) }
    {
        let chain = self.chain(x)?;
        let before = self.chains.walk(chain).position(|y| y == x)?;
        SequenceNumber::new(before as u32 + 1)
    }

    // The oldest block of a chain whose element matches `key`; the chain is the root's, or its owner is in use.
    pub fn find(&self, chain: Chain, key: T::Key) -> Option<Index>
    where
        T: Sought,
        requires { Living (blocks_of self.now.chains) chain }
        ensures { (d : T) → result ≡ found (first_that (λ y. T.Sought.hit (slice_index_or self.now.elements.now (y - 1) d) key) (chain_of self.now.chains (number chain))) }
    {
        let elements = &*self.elements;
        self.chains
            .walk(chain)
            .find(|x| elements[x.number() as usize - 1].matches(key))
    }
}
