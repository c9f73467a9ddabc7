// The make BC346XT keeps the rules for makes.
ghost use Rattle.std.specs.Prelude.{◌≡◌, refl};
ghost use Rattle.make.specs.Rules.{Keeps};
ghost use Rattle.bc346xt.specs.Table.{plan, type_names, bc346xt};

use crate::channel::ChannelSettings;
use crate::system::SystemSettings;
use crate::talkgroup::TalkgroupSettings;
use common::{Layout, MakeOf, Named};
use make::Make;

// The most blocks that a memory of this make has.
const BLOCK_MAXIMUM: usize = 45000;

// The names of the system types, the conventional one first.
static TYPE_NAMES: [&[u8]; 5] = [b"CNV", b"MOT", b"EDC", b"EDS", b"LTR"];

// What the BC346XT has of its own.
pub struct Bc346xtLayout;

// The make.
pub type Bc346xt = MakeOf<Bc346xtLayout>;

// A record of the make.
pub type Record = <Bc346xt as Make>::Record;

// The make keeps every rule for makes, as its table says. Each make has this theorem of its own, by its table's name.
pub fn keeps_rules()
    ensures law { Keeps bc346xt }
    ensures table { ⟦<Bc346xt as Make>⟧.spec ≡ bc346xt }
{}

impl Layout for Bc346xtLayout {
    type System = Named<SystemSettings>;

    type Channel = Named<ChannelSettings>;

    type Talkgroup = Named<TalkgroupSettings>;

    ghost most = { plan.most };

    ghost types = { type_names };

    ghost fine = { refl };

    fn block_maximum() -> usize {
        BLOCK_MAXIMUM
    }

    fn type_names() -> &'static [&'static [u8]] {
        &TYPE_NAMES
    }
}
