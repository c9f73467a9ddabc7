// A make, from what it has of its own.
ghost use Rattle.std.specs.Prelude.{◌≡◌, ◌≤◌, ℕ, true, List, length, map};
ghost use Rattle.sorts.specs.Plans.{plan_fine, row_at, sort_at, spec_of};
ghost use Rattle.sorts.proofs.PlanLaws.{plan_keeps};
ghost use Rattle.common.specs.Records.{schemes, plan_of, kind_of, type_of, texts_of, made_record, written_record};
ghost use Rattle.common.specs.RecordLaws;

use crate::group::GroupSettings;
use crate::named::Named;
use crate::record::Record;
use crate::settings::Settings;
use crate::site::SiteSettings;
use crate::trunk::TrunkSettings;
use make::{Kind, Make};
use sorts::FieldRow;
use std::marker::PhantomData;
use text::writer::Writer;

// What a make has of its own.
pub trait Layout {
    type System: Settings;

    type Channel: Settings;

    type Talkgroup: Settings;

    // The block maximum, and the names of the system types.
    ghost most: { ℕ };

    ghost types: { List (List ℕ) };

    // The most blocks that a memory of this make has.
    fn block_maximum() -> usize
        ensures value { result ≡ most };

    // The names of the system types; they are numbered from 0, and 0 is the conventional one.
    fn type_names() -> &'static [&'static [u8]]
        ensures value { map (λ name. name.now) result.now ≡ types }
        ensures few { length result.now ≤ 12 };

    // The table passes its test.
    ghost fine: { plan_fine (plan_of most types (schemes Self.System.scheme Self.Channel.scheme Self.Talkgroup.scheme)) ≡ true };
}

// The make of a layout.
pub struct MakeOf<L> {
    layout: PhantomData<L>,
}

// The row of the table for a field of a kind.
fn row<L: Layout>(kind: Kind, field: usize) -> FieldRow
    ensures name { result.name.now ≡ (row_at (plan_of L.most L.types (schemes L.System.scheme L.Channel.scheme L.Talkgroup.scheme)) kind field).name }
    ensures sort { result.sort ≡ (row_at (plan_of L.most L.types (schemes L.System.scheme L.Channel.scheme L.Talkgroup.scheme)) kind field).sort }
{
    match kind {
        Kind::System => L::System::row(field),
        Kind::Site => Named::<SiteSettings>::row(field),
        Kind::ChannelGroup => Named::<GroupSettings>::row(field),
        Kind::TalkgroupGroup => Named::<GroupSettings>::row(field),
        Kind::Channel => L::Channel::row(field),
        Kind::Talkgroup => L::Talkgroup::row(field),
        Kind::TrunkFrequency => TrunkSettings::row(field),
    }
}

// A match cannot give a type, so each question about a kind picks its settings anew.
impl<L: Layout> Make for MakeOf<L> {
    type Record = Record<L::System, L::Channel, L::Talkgroup>;

    ghost spec = { spec_of (plan_of L.most L.types (schemes L.System.scheme L.Channel.scheme L.Talkgroup.scheme)) };

    ghost kindof = { kind_of };

    ghost systemtype = { type_of };

    ghost texts = { texts_of (schemes L.System.scheme L.Channel.scheme L.Talkgroup.scheme) };

    ghost made = { made_record (schemes L.System.scheme L.Channel.scheme L.Talkgroup.scheme) };

    ghost written = { written_record (schemes L.System.scheme L.Channel.scheme L.Talkgroup.scheme) };

    ghost keeps = { plan_keeps (plan_of L.most L.types (schemes L.System.scheme L.Channel.scheme L.Talkgroup.scheme)) L.fine };

    ghost counted = { RecordLaws.counted L.most L.types (RecordLaws.keep L.System.keeps L.Channel.keeps L.Talkgroup.keeps) };

    ghost madekind = { RecordLaws.made_kind (schemes L.System.scheme L.Channel.scheme L.Talkgroup.scheme) };

    ghost madetype = { RecordLaws.made_type (schemes L.System.scheme L.Channel.scheme L.Talkgroup.scheme) };

    ghost madetexts = { RecordLaws.made_texts L.most L.types (RecordLaws.keep L.System.keeps L.Channel.keeps L.Talkgroup.keeps) };

    ghost accepted = { RecordLaws.accepted L.most L.types (RecordLaws.keep L.System.keeps L.Channel.keeps L.Talkgroup.keeps) };

    ghost refused = { RecordLaws.refused L.most L.types (RecordLaws.keep L.System.keeps L.Channel.keeps L.Talkgroup.keeps) };

    ghost writtenkind = { RecordLaws.written_kind (schemes L.System.scheme L.Channel.scheme L.Talkgroup.scheme) };

    ghost writtentype = { RecordLaws.written_type (schemes L.System.scheme L.Channel.scheme L.Talkgroup.scheme) };

    fn block_maximum() -> usize {
        L::block_maximum()
    }

    fn type_count() -> u8 {
        L::type_names().len() as u8
    }

    fn type_name<'a>(system_type: u8) -> &'a [u8] {
        L::type_names()
            .get(system_type as usize)
            .copied()
            .unwrap_or(b"")
    }

    fn field_count(kind: Kind) -> usize {
        match kind {
            Kind::System => L::System::field_count(),
            Kind::Site => Named::<SiteSettings>::field_count(),
            Kind::ChannelGroup => Named::<GroupSettings>::field_count(),
            Kind::TalkgroupGroup => Named::<GroupSettings>::field_count(),
            Kind::Channel => L::Channel::field_count(),
            Kind::Talkgroup => L::Talkgroup::field_count(),
            Kind::TrunkFrequency => TrunkSettings::field_count(),
        }
    }

    fn first_part(kind: Kind) -> usize {
        match kind {
            Kind::System => L::System::first_part(),
            Kind::Site => Named::<SiteSettings>::first_part(),
            Kind::ChannelGroup => Named::<GroupSettings>::first_part(),
            Kind::TalkgroupGroup => Named::<GroupSettings>::first_part(),
            Kind::Channel => L::Channel::first_part(),
            Kind::Talkgroup => L::Talkgroup::first_part(),
            Kind::TrunkFrequency => TrunkSettings::first_part(),
        }
    }

    fn field_name<'a>(kind: Kind, field: usize) -> &'a [u8] {
        row::<L>(kind, field).name
    }

    fn fresh(kind: Kind, system_type: u8) -> Self::Record {
        match kind {
            Kind::System => Record::System {
                system_type,
                settings: L::System::new(),
            },
            Kind::Site => Record::Site(Named::new()),
            Kind::ChannelGroup => Record::ChannelGroup(Named::new()),
            Kind::TalkgroupGroup => Record::TalkgroupGroup(Named::new()),
            Kind::Channel => Record::Channel(L::Channel::new()),
            Kind::Talkgroup => Record::Talkgroup(L::Talkgroup::new()),
            Kind::TrunkFrequency => Record::TrunkFrequency(TrunkSettings::new()),
        }
    }

    fn kind(record: &Self::Record) -> Kind {
        match record {
            Record::System { .. } => Kind::System,
            Record::Site(_) => Kind::Site,
            Record::ChannelGroup(_) => Kind::ChannelGroup,
            Record::TalkgroupGroup(_) => Kind::TalkgroupGroup,
            Record::Channel(_) => Kind::Channel,
            Record::Talkgroup(_) => Kind::Talkgroup,
            Record::TrunkFrequency(_) => Kind::TrunkFrequency,
        }
    }

    // The type of a system, and 0 for any other record.
    fn system_type(record: &Self::Record) -> u8 {
        match record {
            Record::System { system_type, .. } => *system_type,
            _ => 0,
        }
    }

    fn accepts(kind: Kind, field: usize, text: &[u8]) -> bool {
        row::<L>(kind, field).sort.takes(text)
    }

    fn write(record: &mut Self::Record, field: usize, text: &[u8]) {
        match record {
            Record::System { settings, .. } => settings.write(field, text),
            Record::Site(settings) => settings.write(field, text),
            Record::ChannelGroup(settings) => settings.write(field, text),
            Record::TalkgroupGroup(settings) => settings.write(field, text),
            Record::Channel(settings) => settings.write(field, text),
            Record::Talkgroup(settings) => settings.write(field, text),
            Record::TrunkFrequency(settings) => settings.write(field, text),
        }
    }

    fn show(record: &Self::Record, field: usize, w: &mut Writer<'_>) {
        match record {
            Record::System { settings, .. } => settings.show(field, w),
            Record::Site(settings) => settings.show(field, w),
            Record::ChannelGroup(settings) => settings.show(field, w),
            Record::TalkgroupGroup(settings) => settings.show(field, w),
            Record::Channel(settings) => settings.show(field, w),
            Record::Talkgroup(settings) => settings.show(field, w),
            Record::TrunkFrequency(settings) => settings.show(field, w),
        }
    }
}
