// What a line is answered, and how that is written.
ghost use Rattle.std.specs.Prelude.{◌≡◌, ◌+◌, ◌≤◌, [], ◌∷◌, length, IfOk};
ghost use Rattle.text.specs.Writing.{Puts};
ghost use Rattle.reply.specs.Lists.{Lists};
ghost use Rattle.reply.specs.Told.{told_pieces, said_of, Showable};
ghost use Rattle.reply.specs.Wrote.{Wrote};

use crate::links::{Links, put_pair};
use crate::pieces::{put_count, put_index, put_piece};
use crate::record::put_record;
use chain::Index;
use ledger::command::Command;
use ledger::refusal::Refusal;
use make::Make;
use text::writer::Writer;

// What a command that is done tells.
#[derive(Clone, Copy)]
pub enum Told<R> {
    Done,
    Index(Option<Index>),
    Count(u32),
    Ends(Option<Index>, Option<Index>),
    Record(R, Links),
}

// A command that is done, and what it tells.
#[derive(Clone, Copy)]
pub struct Reply<R> {
    pub command: Command,
    pub told: Told<R>,
}

fn put_told<M: Make>(w: &mut Writer<'_>, told: &Told<M::Record>)
    requires showable { Showable told.now }
    requires room { w.old.at + 541 ≤ length w.old.out.now }
    ensures bound { w.new.at ≤ w.old.at + 541 }
    ensures texts { Lists w.old w.new (told_pieces M.Make told.now) }
{
    match told {
        Told::Done => put_piece(w, b"OK"),
        Told::Index(index) => put_index(w, *index),
        Told::Count(n) => put_count(w, *n),
        Told::Ends(head, tail) => put_pair(w, *head, *tail),
        Told::Record(record, links) => put_record::<M>(w, record, *links),
    }
}

fn put_answer<M: Make>(w: &mut Writer<'_>, answer: &Result<Reply<M::Record>, Refusal>)
    requires showable { IfOk answer.now (λ x. Showable x.told) }
    requires room { w.old.at + 600 ≤ length w.old.out.now }
    ensures { Puts w.old w.new (said_of M.Make answer.now) }
{
    match answer {
        Ok(reply) => {
            w.put_bytes(reply.command.letters());
            put_told::<M>(w, &reply.told);
            w.put_byte(b'\r');
        }
        Err(refusal) => w.put_bytes(refusal.text()),
    }
}

// Writes the reply to a line at the front of a buffer, and answers how many bytes it is.
// Room stays a clause: the caller has looked once for the least buffer.
pub fn say<M: Make>(answer: &Result<Reply<M::Record>, Refusal>, out: &mut [u8]) -> usize
    requires showable { IfOk answer.now (λ x. Showable x.told) }
    requires room { 600 ≤ length out.old }
    ensures { Wrote out.old out.new result (said_of M.Make answer.now) }
{
    let mut w = Writer { out, at: 0 };
    put_answer::<M>(&mut w, answer);
    w.at
}
