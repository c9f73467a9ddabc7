// The tables behind the chains; between two steps a block may be in no chain and not free.
ghost use Rattle.std.specs.Prelude.{◌≡◌, length};
ghost use Rattle.chain.specs.Entry.{link_at, ends_in, Within, hung, root_with};

use crate::link::{Chain, Ends, Link};

// Blocks are entries of a lent table, by number: the engine has no heap.
// The links of the blocks 1 to `count`, the ends of the root's chain, and the front and the height of the free stack.
// `count` stands beside the lent links: contracts say that those behind it stay as they are.
#[derive(Drop)]
pub struct Tables<'a> {
    pub(crate) links: &'a mut [Link],
    pub(crate) root: Ends,
    pub(crate) free: u32,
    pub(crate) spare: u32,
    pub(crate) count: u32,
}

impl<'a> Tables<'a> {
    pub(crate) fn ends_of(&self, chain: Chain) -> Ends
        requires { Within (length self.now.links.now) chain }
        ensures { result ≡ ends_in self.now.root (link_at self.now.links.now) chain }
    {
        match chain {
            Chain::Root => self.root,
            Chain::Members { owner, branch } => self.links[owner.number as usize - 1].ends(branch),
        }
    }

    pub(crate) fn set_ends(&mut self, chain: Chain, ends: Ends)
        requires { Within (length self.old.links.now) chain }
        ensures links { self.new.links.now ≡ hung self.old.links.now chain ends }
        ensures root { self.new.root ≡ root_with self.old.root chain ends }
        ensures free { self.new.free ≡ self.old.free }
        ensures spare { self.new.spare ≡ self.old.spare }
        ensures count { self.new.count ≡ self.old.count }
    {
        match chain {
            Chain::Root => self.root = ends,
            Chain::Members { owner, branch } => {
                let at = owner.number as usize - 1;
                self.links[at] = self.links[at].with_ends(branch, ends);
            }
        }
    }
}
