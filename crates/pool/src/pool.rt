// A pool of blocks for any sort of element: chains of blocks, and a lent table with the element of each block.
// Two tables and no table of pairs: both are lent, and links are of one type for every sort of element.
ghost use Rattle.std.specs.Prelude.{◌≡◌, ℕ, ◌≤◌, min, length, drop};
ghost use Rattle.chain.specs.Blocks.{opened};
ghost use Rattle.chain.specs.Tables.{Spares};
ghost use Rattle.chain.specs.View.{blocks_of};
ghost use Rattle.pool.specs.Elements.{filled};

use chain::{Chains, Link};

#[derive(Drop)]
pub struct Pool<'a, T> {
    pub(crate) chains: Chains<'a>,
    pub(crate) elements: &'a mut [T],
    ghost roomy: { chains.tables.count ≤ length elements.now },
}

// Writes `blank` into the first `count` elements.
fn fill<T: Copy>(elements: &mut [T], count: u32, blank: T)
    requires { count ≤ length elements.old }
    ensures { elements.new ≡ filled count blank elements.old }
{
    elements[..count as usize].fill_with(|| blank);
}

impl<'a, T> Pool<'a, T> {
    // A pool over the lent tables, with at most `most` blocks, every block free and every element `blank`.
    pub fn open(links: &'a mut [Link], elements: &'a mut [T], most: u32, blank: T) -> Pool<'a, T>
    where
        T: Copy,
        ensures count { result.chains.tables.count ≡ min (min (length links.old) (length elements.old)) most }
        ensures blocks { blocks_of result.chains ≡ opened result.chains.tables.count }
        ensures elements { result.elements.now ≡ filled result.chains.tables.count blank elements.old }
        ensures later { drop result.chains.tables.count result.chains.tables.links.now ≡ drop result.chains.tables.count links.old }
    {
        let most = elements.len().min(most as usize) as u32;
        let chains = Chains::open(links, most);
        let count = chains.count();
        fill(elements, count, blank);
        Pool { chains, elements }
    }

    // Makes every block free and every element `blank` again, as after opening.
    pub fn reopen(&mut self, blank: T)
    where
        T: Copy,
        ensures blocks { blocks_of self.new.chains ≡ opened self.old.chains.tables.count }
        ensures elements { self.new.elements.now ≡ filled self.old.chains.tables.count blank self.old.elements.now }
        ensures spared { Spares self.old.chains.tables self.new.chains.tables }
    {
        self.chains.reopen();
        let count = self.chains.count();
        fill(self.elements, count, blank);
    }
}
