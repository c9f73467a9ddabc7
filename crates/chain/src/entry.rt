// Reads and changes of one link entry. Blocks are numbers here as in the entries, 0 for none: one proof about rows of numbers serves both directions.
ghost use Rattle.std.specs.Prelude.{◌≡◌, ◌-◌, ◌≤◌, length, slice_set};
ghost use Rattle.chain.specs.declared.link.Link.TheVariants.{Free};
ghost use Rattle.chain.specs.Entry.{Entry, entry, changed, with_next, with_previous, with_beside, with_ends, ends_of, ends_with, ends_without};

use crate::link::{Branch, Ends, Link, Member, Side};

impl Ends {
    // The ends with block `x` behind the tail.
    pub(crate) fn with(self, x: u32) -> Ends
        ensures { result ≡ ends_with self x }
    {
        Ends {
            head: if self.tail > 0 { self.head } else { x },
            tail: x,
        }
    }

    // The ends without a block that stands between `previous` and `next`; 0 is none.
    pub(crate) fn without(self, previous: u32, next: u32) -> Ends
        ensures { result ≡ ends_without self previous next }
    {
        Ends {
            head: if previous > 0 { self.head } else { next },
            tail: if next > 0 { self.tail } else { previous },
        }
    }
}

impl Link {
    // The block behind, in a chain or in the free stack; 0 is none.
    pub(crate) fn next(self) -> u32
        ensures { result ≡ (entry self).next }
    {
        match self {
            Link::Free(next) => next,
            Link::Used(member) => member.next,
        }
    }

    // The ends of a chain of its members.
    pub(crate) fn ends(self, branch: Branch) -> Ends
        ensures { result ≡ ends_of branch self }
    {
        match (self, branch) {
            (Link::Used(member), Branch::First) => member.first,
            (Link::Used(member), Branch::Second) => member.second,
            (Link::Free(_), _) => Ends::NONE,
        }
    }

    // The same with another block on one side, where it is in a chain; 0 is none.
    fn with_beside(self, side: Side, x: u32) -> Link
        ensures { result ≡ with_beside side x self }
    {
        match (self, side) {
            (Link::Used(member), Side::Before) => Link::Used(Member {
                previous: x,
                ..member
            }),
            (Link::Used(member), Side::Behind) => Link::Used(Member { next: x, ..member }),
            (Link::Free(_), _) => self,
        }
    }

    // The same with other ends of one chain of its members, where it is in a chain.
    pub(crate) fn with_ends(self, branch: Branch, ends: Ends) -> Link
        ensures { result ≡ with_ends branch ends self }
    {
        match (self, branch) {
            (Link::Used(member), Branch::First) => Link::Used(Member {
                first: ends,
                ..member
            }),
            (Link::Used(member), Branch::Second) => Link::Used(Member {
                second: ends,
                ..member
            }),
            (Link::Free(_), _) => self,
        }
    }
}

// Has block `p` stand beside `x` on one side; 0 is no block.
pub(crate) fn set_beside(links: &mut [Link], p: u32, side: Side, x: u32)
    requires { p ≤ length links.old }
    ensures { links.new ≡ changed links.old p (with_beside side x) }
{
    if p > 0 {
        let at = p as usize - 1;
        links[at] = links[at].with_beside(side, x);
    }
}

// Has `previous` and `next` stand beside one another; 0 is no block.
pub(crate) fn join(links: &mut [Link], previous: u32, next: u32)
    requires previous { previous ≤ length links.old }
    requires next { next ≤ length links.old }
    ensures { links.new ≡ changed (changed links.old previous (with_next next)) next (with_previous previous) }
{
    set_beside(links, previous, Side::Behind, next);
    set_beside(links, next, Side::Before, previous);
}

// Makes block `x` free, with `next` behind it in the free stack.
pub(crate) fn set_free(links: &mut [Link], x: u32, next: u32)
    requires from { 1 ≤ x }
    requires upto { x ≤ length links.old }
    ensures { links.new ≡ slice_set links.old (x - 1) (Free next) }
{
    links[x as usize - 1] = Link::Free(next);
}
