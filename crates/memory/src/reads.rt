// What is read of a memory.
ghost use Rattle.std.specs.Prelude.{◌≡◌, ◌<◌, ◌≤◌, true, false, length, MatchOption};
ghost use Rattle.chain.specs.Entry.{number};
ghost use Rattle.chain.specs.Rows.{head_or, last_or};
ghost use Rattle.chain.specs.Blocks.{Living, next_in, prev_in, chain as chain_in};
ghost use Rattle.ledger.specs.Ledger.{number_of, block_count, holding, living, owner, systems};
ghost use Rattle.ledger.specs.Replies.{sequence};
ghost use Rattle.memory.specs.View.{store_of, meaning};
ghost use Rattle.reply.specs.Shown.{Proper};

use crate::memory::Memory;
use chain::{Chain, Index};
use make::Make;

// The pool's questions, answered in the words of the store. That a record is living stays a clause: it holds of a block at one moment.
impl<'a, M: Make> Memory<'a, M> {
    // How many blocks there are.
    pub fn count(&self) -> u32
        ensures value { result ≡ block_count (store_of M.Make self.now.pool) }
        ensures bound { result ≤ 45000 }
    {
        self.pool.count()
    }

    // How many blocks are free.
    pub fn spare(&self) -> u32
        ensures value { result ≡ length (store_of M.Make self.now.pool).blocks.free }
        ensures bound { result ≤ 45000 }
    {
        self.pool.spare()
    }

    // Whether block `x` holds a record.
    pub fn is_living(&self, x: Index) -> bool
        ensures value { result ≡ living (store_of M.Make self.now.pool) x.number }
    {
        self.pool.is_used(x)
    }

    // The record in block `x`; none where it is free.
    pub fn get(&self, x: Index) -> Option<M::Record>
        ensures { MatchOption result (living (store_of M.Make self.now.pool) x.number ≡ false) (λ r. (living (store_of M.Make self.now.pool) x.number ≡ true) × (meaning M.Make r ≡ holding (store_of M.Make self.now.pool) x.number)) }
    {
        if self.is_living(x) {
            Some(self.read(x))
        } else {
            None
        }
    }

    // The record in block `x`, which is living.
    pub fn read(&self, x: Index) -> M::Record
        requires living { living (store_of M.Make self.now.pool) x.number ≡ true }
        ensures value { meaning M.Make result ≡ holding (store_of M.Make self.now.pool) x.number }
    {
        self.pool.read(x)
    }

    // The record behind `x` in its chain.
    pub fn next(&self, x: Index) -> Option<Index>
        ensures value { number_of result ≡ next_in (store_of M.Make self.now.pool).blocks x.number }
        ensures proper { Proper result }
    {
        self.pool.next(x)
    }

    // The record before `x` in its chain.
    pub fn previous(&self, x: Index) -> Option<Index>
        ensures value { number_of result ≡ prev_in (store_of M.Make self.now.pool).blocks x.number }
        ensures proper { Proper result }
    {
        self.pool.previous(x)
    }

    // The record whose member `x` is.
    pub fn owner(&self, x: Index) -> Option<Index>
        ensures value { number_of result ≡ owner (store_of M.Make self.now.pool) x.number }
        ensures proper { Proper result }
    {
        self.pool.owner(x)
    }

    // The oldest record of a chain, which is that of the systems or whose owner is living.
    pub fn head(&self, chain: Chain) -> Option<Index>
        requires living { Living (store_of M.Make self.now.pool).blocks chain }
        ensures value { number_of result ≡ head_or 0 (chain_in (store_of M.Make self.now.pool).blocks (number chain)) }
        ensures proper { Proper result }
    {
        self.pool.head(chain)
    }

    // The newest record of a chain, which is that of the systems or whose owner is living.
    pub fn tail(&self, chain: Chain) -> Option<Index>
        requires living { Living (store_of M.Make self.now.pool).blocks chain }
        ensures value { number_of result ≡ last_or 0 (chain_in (store_of M.Make self.now.pool).blocks (number chain)) }
        ensures proper { Proper result }
    {
        self.pool.tail(chain)
    }

    // How many systems there are.
    pub fn system_count(&self) -> u32
        ensures value { result ≡ length (systems (store_of M.Make self.now.pool)) }
        ensures bound { result ≤ 45000 }
    {
        self.pool.len(Chain::Root)
    }

    // The sequence number of record `x`: its place in its chain, and 0 for a free block, as the definitions count.
    // An `Option` would be no plainer: who asks has a record in hand.
    pub fn place(&self, x: Index) -> u32
        ensures value { result ≡ sequence (store_of M.Make self.now.pool) x.number }
        ensures bound { result ≤ 45000 }
    {
        match self.pool.place(x) {
            Some(place) => place.place(),
            None => 0,
        }
    }
}
