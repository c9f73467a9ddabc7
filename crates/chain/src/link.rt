// What the link table keeps of a block: its place in the free stack, or its place in a chain and the ends of its own chains.
ghost use Rattle.std.specs.Prelude.{◌≡◌};
ghost use Rattle.chain.specs.Entry.{found};

// A block, by its number from 1 to the block count.
// That it is not 0 is no ghost field: the definitions make indexes of numbers, and each would carry a proof.
#[derive(Clone, Copy, PartialEq, Eq)]
pub struct Index {
    pub(crate) number: u32,
}

impl Index {
    // The block of that number; 0 is no block, and no error, so this is no `TryFrom`.
    pub fn new(number: u32) -> Option<Index>
        ensures { result ≡ found number }
    {
        if number == 0 {
            None
        } else {
            Some(Index { number })
        }
    }

    pub fn number(self) -> u32
        ensures { result ≡ self.number }
    {
        self.number
    }
}

// How many chains of members a block has.
pub const MEMBER_CHAINS: usize = 2;

// Which of the chains of its members.
#[derive(Clone, Copy, PartialEq, Eq)]
pub enum Branch {
    First,
    Second,
}

impl Branch {
    // The chains of a block's members, in the order in which a deletion empties them.
    pub const ALL: [Branch; MEMBER_CHAINS] = [Branch::First, Branch::Second];
}

// A chain: that of the root, or one of the chains of a block's members.
#[derive(Clone, Copy, PartialEq, Eq)]
pub enum Chain {
    Root,
    Members { owner: Index, branch: Branch },
}

// A side of a block in its chain.
#[derive(Clone, Copy, PartialEq, Eq)]
pub enum Side {
    Before,
    Behind,
}

// The ends of a chain by number; 0 is no block.
#[derive(Clone, Copy, PartialEq, Eq)]
pub struct Ends {
    pub(crate) head: u32,
    pub(crate) tail: u32,
}

impl Ends {
    // The ends of an empty chain.
    pub(crate) const NONE: Ends = Ends { head: 0, tail: 0 };
}

// A block in a chain: its neighbours by number, 0 for none, its chain, and the ends of the chains of its own members.
// 0 stays for none: with an `Option` for each of its six numbers an entry would take 64 bytes, and may take 40.
#[derive(Clone, Copy, PartialEq, Eq)]
pub struct Member {
    pub(crate) previous: u32,
    pub(crate) next: u32,
    pub(crate) chain: Chain,
    pub(crate) first: Ends,
    pub(crate) second: Ends,
}

// What a block is: free with the number of the next free block, 0 for none, or in a chain.
#[derive(Clone, Copy, PartialEq, Eq)]
pub enum Link {
    Free(u32),
    Used(Member),
}

impl Link {
    // An entry for a table that is yet to be opened.
    pub const BLANK: Link = Link::Free(0);
}
