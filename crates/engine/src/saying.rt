// How the answer to a line is written.
ghost use Rattle.std.specs.Prelude.{◌≡◌, ◌+◌, ◌≤◌, true, length, IfOk};
ghost use Rattle.text.specs.Writing.{Puts};
ghost use Rattle.ledger.specs.Ledger.{living};
ghost use Rattle.memory.specs.View.{store_of};
ghost use Rattle.reply.specs.Lists.{Lists};
ghost use Rattle.reply.specs.Brief.{brief_pieces, said_in_brief, ShowableBrief};
ghost use Rattle.reply.specs.Wrote.{Wrote};
ghost use Rattle.engine.specs.View.{read_in};

use crate::records::links_of;
use chain::Index;
use ledger::refusal::Refusal;
use make::Make;
use memory::Memory;
use reply::brief::{Brief, BriefReply};
use reply::links::put_pair;
use reply::pieces::{put_count, put_index, put_piece};
use reply::record::put_record;
use text::writer::Writer;

// The record in block `x`, which is living.
fn put_living<M: Make>(memory: &Memory<'_, M>, w: &mut Writer<'_>, x: Index)
    requires living { living (store_of M.Make memory.now.pool) x.number ≡ true }
    requires room { w.old.at + 541 ≤ length w.old.out.now }
    ensures bound { w.new.at ≤ w.old.at + 541 }
    ensures texts { Lists w.old w.new (read_in M.Make.spec (store_of M.Make memory.now.pool) x.number) }
{
    let record = memory.read(x);
    let links = links_of(memory, x, M::kind(&record));
    put_record::<M>(w, &record, links);
}

fn put_told<M: Make>(memory: &Memory<'_, M>, w: &mut Writer<'_>, told: Brief)
    requires showable { ShowableBrief (living (store_of M.Make memory.now.pool)) told }
    requires room { w.old.at + 541 ≤ length w.old.out.now }
    ensures bound { w.new.at ≤ w.old.at + 541 }
    ensures texts { Lists w.old w.new (brief_pieces (read_in M.Make.spec (store_of M.Make memory.now.pool)) told) }
{
    match told {
        Brief::Done => put_piece(w, b"OK"),
        Brief::Index(index) => put_index(w, index),
        Brief::Count(n) => put_count(w, n),
        Brief::Ends(head, tail) => put_pair(w, head, tail),
        Brief::Record(x) => put_living(memory, w, x),
    }
}

fn put_answer<M: Make>(
    memory: &Memory<'_, M>,
    w: &mut Writer<'_>,
    answer: &Result<BriefReply, Refusal>,
)
    requires showable { IfOk answer.now (λ x. ShowableBrief (living (store_of M.Make memory.now.pool)) x.told) }
    requires room { w.old.at + 600 ≤ length w.old.out.now }
    ensures { Puts w.old w.new (said_in_brief (read_in M.Make.spec (store_of M.Make memory.now.pool)) answer.now) }
{
    match answer {
        Ok(reply) => {
            w.put_bytes(reply.command.letters());
            put_told(memory, w, reply.told);
            w.put_byte(b'\r');
        }
        Err(refusal) => w.put_bytes(refusal.text()),
    }
}

// Writes the reply to a line at the front of a buffer, and answers how many bytes it is. A record that it tells is read from the memory.
// Room stays a clause: the caller has looked once for the least buffer.
pub fn say<M: Make>(
    memory: &Memory<'_, M>,
    answer: &Result<BriefReply, Refusal>,
    out: &mut [u8],
) -> usize
    requires showable { IfOk answer.now (λ x. ShowableBrief (living (store_of M.Make memory.now.pool)) x.told) }
    requires room { 600 ≤ length out.old }
    ensures { Wrote out.old out.new result (said_in_brief (read_in M.Make.spec (store_of M.Make memory.now.pool)) answer.now) }
{
    let mut w = Writer { out, at: 0 };
    put_answer(memory, &mut w, answer);
    w.at
}
