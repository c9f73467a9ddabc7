// The make BCD996T keeps the rules for makes.
ghost use Rattle.std.specs.Prelude.{◌≡◌, refl};
ghost use Rattle.make.specs.Rules.{Keeps};
ghost use Rattle.bcd996t.specs.Table.{plan, type_names, bcd996t};

use crate::channel::ChannelSettings;
use crate::system::SystemSettings;
use crate::talkgroup::TalkgroupSettings;
use common::{Layout, MakeOf, Named};
use make::Make;

// The most blocks that a memory of this make has.
const BLOCK_MAXIMUM: usize = 15000;

// The names of the system types, the conventional one first.
static TYPE_NAMES: [&[u8]; 6] = [b"CNV", b"MOT1", b"MOT2", b"EDC", b"EDS", b"LTR"];

// What the BCD996T has of its own.
pub struct Bcd996tLayout;

// The make.
pub type Bcd996t = MakeOf<Bcd996tLayout>;

// A record of the make.
pub type Record = <Bcd996t as Make>::Record;

// The make keeps every rule for makes, as its table says. Each make has this theorem of its own, by its table's name.
pub fn keeps_rules()
    ensures law { Keeps bcd996t }
    ensures table { ⟦<Bcd996t as Make>⟧.spec ≡ bcd996t }
{}

impl Layout for Bcd996tLayout {
    type System = Named<SystemSettings>;

    type Channel = Named<ChannelSettings>;

    type Talkgroup = Named<TalkgroupSettings>;

    ghost most = { plan.most };

    ghost types = { type_names };

    ghost fine = { refl };

    fn block_maximum() -> usize {
        BLOCK_MAXIMUM
    }

    fn type_names() -> &'static [&'static [u8]] {
        &TYPE_NAMES
    }
}
