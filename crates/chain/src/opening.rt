// All blocks free: 1, 2, .. in the free stack, and every chain empty.
ghost use Rattle.std.specs.Prelude.{◌≡◌, ℕ, ◌<◌, ◌≤◌, min, length, drop, slice_index_or};
ghost use Rattle.chain.specs.Entry.{nowhere};
ghost use Rattle.chain.specs.Blocks.{opened, threaded};
ghost use Rattle.chain.specs.Tables.{Sound, Spares, blocks_in};

use crate::link::{Ends, Link};
use crate::tables::Tables;

// Threads the first `count` links as a free stack: each block with the next behind it, and none behind the last.
fn thread(links: &mut [Link], count: u32)
    requires { count ≤ length links.old }
    ensures front { (k : ℕ) → k < count → slice_index_or links.new k nowhere ≡ threaded count k }
    ensures later { drop count links.new ≡ drop count links.old }
{
    for (i, link) in links[..count as usize].iter_mut().enumerate() {
        let behind = i as u32 + 1;
        *link = Link::Free(if behind < count { behind + 1 } else { 0 });
    }
}

// The front of the free stack of `count` free blocks; 0 is none.
fn front(count: u32) -> u32
    ensures { result ≡ min count 1 }
{
    count.min(1)
}

impl<'a> Tables<'a> {
    // Makes every block free and every chain empty.
    pub(crate) fn reset(&mut self)
        requires { self.old.count ≤ length self.old.links.now }
        ensures sound { Sound self.new }
        ensures blocks { blocks_in self.new ≡ opened self.old.count }
        ensures spared { Spares self.old self.new }
        ensures len { length self.new.links.now ≡ length self.old.links.now }
    {
        let count = self.count;
        thread(self.links, count);
        self.root = Ends::NONE;
        self.free = front(count);
        self.spare = count;
    }
}
