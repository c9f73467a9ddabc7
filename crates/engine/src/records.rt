// A record as a read tells it: its links, its texts.
ghost use Rattle.std.specs.Prelude.{◌≡◌, ◌<◌, ◌≤◌, true, length};
ghost use Rattle.chain.specs.Rows.{head_or, last_or};
ghost use Rattle.chain.specs.Blocks.{next_in, prev_in};
ghost use Rattle.ledger.specs.Ledger.{number_of, living, holding, members};
ghost use Rattle.ledger.specs.Replies.{links, sequence, system_over, shown_record};
ghost use Rattle.memory.specs.View.{store_of};
ghost use Rattle.reply.specs.Shown.{Proper};
ghost use Rattle.reply.specs.Linked.{pieces_of, AllProper};
ghost use Rattle.reply.specs.Told.{told_pieces, Showable};

use chain::{Branch, Chain, Index};
use make::{Kind, Make};
use memory::Memory;
use reply::links::{Chained, Links, Neighbours};
use reply::told::Told;

// The records before and behind `x`.
fn neighbours_of<M: Make>(memory: &Memory<'_, M>, x: Index) -> Neighbours
    ensures previous { number_of result.previous ≡ prev_in (store_of M.Make memory.now.pool).blocks x.number }
    ensures next { number_of result.next ≡ next_in (store_of M.Make memory.now.pool).blocks x.number }
    ensures proper { Proper result.previous × Proper result.next }
{
    Neighbours {
        previous: memory.previous(x),
        next: memory.next(x),
    }
}

// Head and tail of the first chain of `x`, and the place of `x` in its own chain.
fn chained_of<M: Make>(memory: &Memory<'_, M>, x: Index) -> Chained
    requires living { living (store_of M.Make memory.now.pool) x.number ≡ true }
    ensures head { number_of result.head ≡ head_or 0 (members (store_of M.Make memory.now.pool) x.number) }
    ensures tail { number_of result.tail ≡ last_or 0 (members (store_of M.Make memory.now.pool) x.number) }
    ensures place { result.place ≡ sequence (store_of M.Make memory.now.pool) x.number }
    ensures proper { Proper result.head × Proper result.tail × (result.place < 100000) }
{
    let members = Chain::Members {
        owner: x,
        branch: Branch::First,
    };
    Chained {
        head: memory.head(members),
        tail: memory.tail(members),
        place: memory.place(x),
    }
}

// The owner of an owner, which may be none.
fn system_over<M: Make>(memory: &Memory<'_, M>, owner: Option<Index>) -> Option<Index>
    requires proper { Proper owner }
    ensures value { number_of result ≡ system_over (store_of M.Make memory.now.pool) (number_of owner) }
    ensures proper { Proper result }
{
    memory.owner(owner?)
}

// The links that a read of `x` shows.
pub(crate) fn links_of<M: Make>(memory: &Memory<'_, M>, x: Index, kind: Kind) -> Links
    requires living { living (store_of M.Make memory.now.pool) x.number ≡ true }
    ensures value { pieces_of result ≡ links (store_of M.Make memory.now.pool) x.number kind }
    ensures proper { AllProper result }
{
    let neighbours = neighbours_of(memory, x);
    match kind {
        Kind::System => Links::System(neighbours, chained_of(memory, x)),
        Kind::Site | Kind::ChannelGroup | Kind::TalkgroupGroup => {
            Links::Middle(neighbours, memory.owner(x), chained_of(memory, x))
        }
        Kind::Channel | Kind::Talkgroup | Kind::TrunkFrequency => {
            let owner = memory.owner(x);
            Links::Low(neighbours, system_over(memory, owner), owner)
        }
    }
}

// The record `x`, as a read tells it.
pub(crate) fn told_of<M: Make>(memory: &Memory<'_, M>, x: Index) -> Told<M::Record>
    requires living { living (store_of M.Make memory.now.pool) x.number ≡ true }
    ensures told { told_pieces M.Make result ≡ shown_record M.Make.spec (store_of M.Make memory.now.pool) x.number (holding (store_of M.Make memory.now.pool) x.number) }
    ensures shows { Showable result }
{
    let record = memory.read(x);
    let links = links_of(memory, x, M::kind(&record));
    Told::Record(record, links)
}
