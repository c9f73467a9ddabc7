// A whole record in a reply.
ghost use Rattle.std.specs.Prelude.{◌≡◌, ◌+◌, ◌≤◌, [], ◌∷◌, length};
ghost use Rattle.ledger.specs.Replies.{lead};
ghost use Rattle.reply.specs.Linked.{AllProper};
ghost use Rattle.reply.specs.Lists.{Lists};
ghost use Rattle.reply.specs.Told.{record_pieces};

use crate::fields::put_fields;
use crate::links::{Links, put_links};
use crate::pieces::put_piece;
use make::{Kind, Make};
use text::writer::Writer;

// What stands before the fields: a system's type, a group's letter.
fn put_lead<M: Make>(w: &mut Writer<'_>, held: &M::Record)
    requires room { w.old.at + 5 ≤ length w.old.out.now }
    ensures bound { w.new.at ≤ w.old.at + 5 }
    ensures texts { Lists w.old w.new (lead M.Make.spec (M.Make.kindof held.now) (M.Make.systemtype held.now)) }
{
    match M::kind(held) {
        Kind::System => put_piece(w, M::type_name(M::system_type(held))),
        Kind::ChannelGroup => put_piece(w, b"C"),
        Kind::TalkgroupGroup => put_piece(w, b"T"),
        Kind::Site | Kind::Channel | Kind::Talkgroup | Kind::TrunkFrequency => {}
    }
}

// A record: its lead, its first part, its links and its other fields.
pub fn put_record<M: Make>(w: &mut Writer<'_>, record: &M::Record, links: Links)
    requires proper { AllProper links }
    requires room { w.old.at + 541 ≤ length w.old.out.now }
    ensures bound { w.new.at ≤ w.old.at + 541 }
    ensures texts { Lists w.old w.new (record_pieces M.Make «record».now links) }
{
    let kind = M::kind(record);
    let first = M::first_part(kind);
    let count = M::field_count(kind);
    put_lead::<M>(w, record);
    put_fields::<M>(w, record, 0, first);
    put_links(w, links);
    put_fields::<M>(w, record, first, count);
}
