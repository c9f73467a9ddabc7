// The links of a record in a reply.
ghost use Rattle.std.specs.Prelude.{◌≡◌, ◌+◌, ◌<◌, ◌≤◌, [], ◌∷◌, length, decimal};
ghost use Rattle.ledger.specs.Replies.{shown};
ghost use Rattle.ledger.specs.Ledger.{number_of};
ghost use Rattle.reply.specs.Shown.{Proper};
ghost use Rattle.reply.specs.Lists.{Lists};
ghost use Rattle.reply.specs.Linked.{pieces_of, AllProper};

use crate::pieces::{put_count, put_index};
use chain::Index;
use text::writer::Writer;

// The record before and the one behind.
#[derive(Clone, Copy)]
pub struct Neighbours {
    pub previous: Option<Index>,
    pub next: Option<Index>,
}

// Head and tail of the members' chain, and the sequence number of the record itself.
#[derive(Clone, Copy)]
pub struct Chained {
    pub head: Option<Index>,
    pub tail: Option<Index>,
    pub place: u32,
}

// What a read shows of a record's links, by its level.
#[derive(Clone, Copy)]
pub enum Links {
    System(Neighbours, Chained),
    Middle(Neighbours, Option<Index>, Chained),
    Low(Neighbours, Option<Index>, Option<Index>),
}

// Two indexes, each -1 for no record.
pub fn put_pair(w: &mut Writer<'_>, first: Option<Index>, second: Option<Index>)
    requires first { Proper first }
    requires second { Proper second }
    requires room { w.old.at + 12 ≤ length w.old.out.now }
    ensures bound { w.new.at ≤ w.old.at + 12 }
    ensures texts { Lists w.old w.new (shown (number_of first) ∷ shown (number_of second) ∷ []) }
{
    put_index(w, first);
    put_index(w, second);
}

fn put_neighbours(w: &mut Writer<'_>, neighbours: Neighbours)
    requires first { Proper neighbours.previous }
    requires second { Proper neighbours.next }
    requires room { w.old.at + 12 ≤ length w.old.out.now }
    ensures bound { w.new.at ≤ w.old.at + 12 }
    ensures texts { Lists w.old w.new (shown (number_of neighbours.previous) ∷ shown (number_of neighbours.next) ∷ []) }
{
    put_pair(w, neighbours.previous, neighbours.next);
}

fn put_chained(w: &mut Writer<'_>, chained: Chained)
    requires first { Proper chained.head }
    requires second { Proper chained.tail }
    requires small { chained.place < 100000 }
    requires room { w.old.at + 18 ≤ length w.old.out.now }
    ensures bound { w.new.at ≤ w.old.at + 18 }
    ensures texts { Lists w.old w.new (shown (number_of chained.head) ∷ shown (number_of chained.tail) ∷ decimal chained.place ∷ []) }
{
    put_pair(w, chained.head, chained.tail);
    put_count(w, chained.place);
}

// All links of a record.
pub fn put_links(w: &mut Writer<'_>, links: Links)
    requires proper { AllProper links }
    requires room { w.old.at + 36 ≤ length w.old.out.now }
    ensures bound { w.new.at ≤ w.old.at + 36 }
    ensures texts { Lists w.old w.new (pieces_of links) }
{
    match links {
        Links::System(neighbours, chained) => {
            put_neighbours(w, neighbours);
            put_chained(w, chained);
        }
        Links::Middle(neighbours, system, chained) => {
            put_neighbours(w, neighbours);
            put_index(w, system);
            put_chained(w, chained);
        }
        Links::Low(neighbours, system, owner) => {
            put_neighbours(w, neighbours);
            put_pair(w, system, owner);
        }
    }
}
