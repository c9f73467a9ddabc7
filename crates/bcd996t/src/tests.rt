// Texts at the limits of each field, just past them, and in odd spellings.
use crate::keeping::{Bcd996t, Record};
use make::{Kind, Make};
use std::mem::size_of;
use text::writer::Writer;

// A kind, a field, a text for it, and what the field of a new record shows after it; nothing where the text is refused.
type Case = (Kind, usize, &'static [u8], &'static [u8]);

const OWNERS: [Case; 67] = [
    (Kind::System, 0, b"A", b"A"),
    (Kind::System, 0, b"ABCDEFGHIJKLMNOP", b"ABCDEFGHIJKLMNOP"),
    (Kind::System, 0, b"ABCDEFGHIJKLMNOPQ", b""),
    (Kind::System, 0, b" ", b"SYSTEM"),
    (Kind::System, 0, b"                ", b"SYSTEM"),
    (Kind::System, 0, b"                 ", b""),
    (Kind::System, 0, b" a ", b" a "),
    (Kind::System, 0, b"~", b"~"),
    (Kind::System, 0, b"a,b", b""),
    (Kind::System, 0, b"\x1f", b""),
    (Kind::System, 0, b"\x7f", b""),
    (Kind::System, 0, b"", b""),
    (Kind::System, 1, b".", b"."),
    (Kind::System, 1, b"0", b"0"),
    (Kind::System, 1, b"99", b"99"),
    (Kind::System, 1, b"100", b""),
    (Kind::System, 1, b"00099", b"99"),
    (Kind::System, 1, b"000099", b""),
    (Kind::System, 1, b"..", b""),
    (Kind::System, 2, b"255", b"255"),
    (Kind::System, 2, b"256", b""),
    (Kind::System, 2, b"00000", b"0"),
    (Kind::System, 3, b"1", b"1"),
    (Kind::System, 3, b"2", b""),
    (Kind::System, 3, b"00001", b"1"),
    (Kind::System, 4, b"5", b"5"),
    (Kind::System, 4, b"6", b""),
    (Kind::System, 4, b"00000", b"0"),
    (Kind::System, 4, b"+5", b""),
    (Kind::System, 4, b"-2", b""),
    (Kind::System, 5, b"0", b""),
    (Kind::Site, 0, b"ABCDEFGHIJKLMNOP", b"ABCDEFGHIJKLMNOP"),
    (Kind::Site, 0, b"ABCDEFGHIJKLMNOPQ", b""),
    (Kind::Site, 0, b"                ", b"SITE"),
    (Kind::Site, 1, b".", b"."),
    (Kind::Site, 1, b"0", b"0"),
    (Kind::Site, 1, b"99", b"99"),
    (Kind::Site, 1, b"100", b""),
    (Kind::Site, 1, b"00099", b"99"),
    (Kind::Site, 1, b"000099", b""),
    (Kind::Site, 1, b"..", b""),
    (Kind::Site, 2, b"255", b"255"),
    (Kind::Site, 2, b"256", b""),
    (Kind::Site, 2, b"00000", b"0"),
    (Kind::Site, 3, b"1", b"1"),
    (Kind::Site, 3, b"2", b""),
    (Kind::Site, 3, b"00001", b"1"),
    (Kind::Site, 4, b"0", b""),
    (
        Kind::ChannelGroup,
        0,
        b"ABCDEFGHIJKLMNOP",
        b"ABCDEFGHIJKLMNOP",
    ),
    (Kind::ChannelGroup, 0, b"ABCDEFGHIJKLMNOPQ", b""),
    (Kind::ChannelGroup, 0, b"                ", b"GROUP"),
    (Kind::ChannelGroup, 1, b".", b"."),
    (Kind::ChannelGroup, 1, b"0", b"0"),
    (Kind::ChannelGroup, 1, b"9", b"9"),
    (Kind::ChannelGroup, 1, b"10", b""),
    (Kind::ChannelGroup, 1, b"00009", b"9"),
    (Kind::ChannelGroup, 1, b"000009", b""),
    (Kind::ChannelGroup, 1, b"..", b""),
    (Kind::ChannelGroup, 2, b"1", b"1"),
    (Kind::ChannelGroup, 2, b"2", b""),
    (Kind::ChannelGroup, 2, b"00001", b"1"),
    (Kind::ChannelGroup, 3, b"0", b""),
    (
        Kind::TalkgroupGroup,
        0,
        b"ABCDEFGHIJKLMNOP",
        b"ABCDEFGHIJKLMNOP",
    ),
    (Kind::TalkgroupGroup, 0, b"ABCDEFGHIJKLMNOPQ", b""),
    (Kind::TalkgroupGroup, 0, b"                ", b"GROUP"),
    (Kind::TalkgroupGroup, 1, b"9", b"9"),
    (Kind::TalkgroupGroup, 1, b"10", b""),
];

const MEMBERS: [Case; 91] = [
    (Kind::Channel, 0, b"ABCDEFGHIJKLMNOP", b"ABCDEFGHIJKLMNOP"),
    (Kind::Channel, 0, b"ABCDEFGHIJKLMNOPQ", b""),
    (Kind::Channel, 0, b"                ", b"CHANNEL"),
    (Kind::Channel, 1, b"0", b"00000000"),
    (Kind::Channel, 1, b"00000000", b"00000000"),
    (Kind::Channel, 1, b"249999", b""),
    (Kind::Channel, 1, b"250000", b"00250000"),
    (Kind::Channel, 1, b"00250000", b"00250000"),
    (Kind::Channel, 1, b"000250000", b""),
    (Kind::Channel, 1, b"13000000", b"13000000"),
    (Kind::Channel, 1, b"13000001", b""),
    (Kind::Channel, 1, b"1", b""),
    (Kind::Channel, 2, b"AUTO", b"AUTO"),
    (Kind::Channel, 2, b"AM", b"AM"),
    (Kind::Channel, 2, b"FM", b"FM"),
    (Kind::Channel, 2, b"NFM", b"NFM"),
    (Kind::Channel, 2, b"WFM", b"WFM"),
    (Kind::Channel, 2, b"FMB", b"FMB"),
    (Kind::Channel, 2, b"auto", b""),
    (Kind::Channel, 2, b"FM ", b""),
    (Kind::Channel, 2, b"F", b""),
    (Kind::Channel, 3, b"231", b"231"),
    (Kind::Channel, 3, b"232", b""),
    (Kind::Channel, 3, b"00000", b"0"),
    (Kind::Channel, 4, b"1", b"1"),
    (Kind::Channel, 4, b"2", b""),
    (Kind::Channel, 4, b"00001", b"1"),
    (Kind::Channel, 5, b"1", b"1"),
    (Kind::Channel, 5, b"2", b""),
    (Kind::Channel, 5, b"00001", b"1"),
    (Kind::Channel, 6, b"1", b"1"),
    (Kind::Channel, 6, b"2", b""),
    (Kind::Channel, 6, b"00001", b"1"),
    (Kind::Channel, 7, b"1", b"1"),
    (Kind::Channel, 7, b"2", b""),
    (Kind::Channel, 7, b"00001", b"1"),
    (Kind::Channel, 8, b"9", b"9"),
    (Kind::Channel, 8, b"10", b""),
    (Kind::Channel, 8, b"00000", b"0"),
    (Kind::Channel, 9, b"15", b"15"),
    (Kind::Channel, 9, b"16", b""),
    (Kind::Channel, 9, b"00000", b"0"),
    (Kind::Channel, 10, b"1", b"1"),
    (Kind::Channel, 10, b"2", b""),
    (Kind::Channel, 10, b"00001", b"1"),
    (Kind::Channel, 11, b"2", b"2"),
    (Kind::Channel, 11, b"3", b""),
    (Kind::Channel, 11, b"00000", b"0"),
    (Kind::Channel, 12, b"0", b""),
    (Kind::Talkgroup, 0, b"ABCDEFGHIJKLMNOP", b"ABCDEFGHIJKLMNOP"),
    (Kind::Talkgroup, 0, b"ABCDEFGHIJKLMNOPQ", b""),
    (Kind::Talkgroup, 0, b"                ", b"TGID"),
    (Kind::Talkgroup, 1, b"65535", b"65535"),
    (Kind::Talkgroup, 1, b"65536", b""),
    (Kind::Talkgroup, 1, b"00000", b"0"),
    (Kind::Talkgroup, 1, b"99999", b""),
    (Kind::Talkgroup, 2, b"1", b"1"),
    (Kind::Talkgroup, 2, b"2", b""),
    (Kind::Talkgroup, 2, b"00001", b"1"),
    (Kind::Talkgroup, 3, b"0", b""),
    (Kind::Talkgroup, 3, b"", b""),
    (Kind::Talkgroup, 4, b"9", b"9"),
    (Kind::Talkgroup, 4, b"10", b""),
    (Kind::Talkgroup, 4, b"00000", b"0"),
    (Kind::Talkgroup, 5, b"15", b"15"),
    (Kind::Talkgroup, 5, b"16", b""),
    (Kind::Talkgroup, 5, b"00000", b"0"),
    (Kind::Talkgroup, 6, b"1", b"1"),
    (Kind::Talkgroup, 6, b"2", b""),
    (Kind::Talkgroup, 6, b"00001", b"1"),
    (Kind::Talkgroup, 7, b"2", b"2"),
    (Kind::Talkgroup, 7, b"3", b""),
    (Kind::Talkgroup, 7, b"00000", b"0"),
    (Kind::Talkgroup, 8, b"0", b""),
    (Kind::TrunkFrequency, 0, b"0", b"00000000"),
    (Kind::TrunkFrequency, 0, b"00000000", b"00000000"),
    (Kind::TrunkFrequency, 0, b"249999", b""),
    (Kind::TrunkFrequency, 0, b"250000", b"00250000"),
    (Kind::TrunkFrequency, 0, b"00250000", b"00250000"),
    (Kind::TrunkFrequency, 0, b"000250000", b""),
    (Kind::TrunkFrequency, 0, b"13000000", b"13000000"),
    (Kind::TrunkFrequency, 0, b"13000001", b""),
    (Kind::TrunkFrequency, 0, b"1", b""),
    (Kind::TrunkFrequency, 1, b"30", b"30"),
    (Kind::TrunkFrequency, 1, b"31", b""),
    (Kind::TrunkFrequency, 1, b"00001", b"1"),
    (Kind::TrunkFrequency, 1, b"0", b""),
    (Kind::TrunkFrequency, 2, b"1", b"1"),
    (Kind::TrunkFrequency, 2, b"2", b""),
    (Kind::TrunkFrequency, 2, b"00001", b"1"),
    (Kind::TrunkFrequency, 3, b"0", b""),
];

// A refused text leaves what the field showed before. Each make's crate has this helper, since a crate's tests cannot use those of another.
fn holds<M: Make>(case: &Case) -> bool {
    let (kind, field, text, shown) = *case;
    let mut record = M::fresh(kind, 0);
    let mut before = [0u8; 24];
    let mut w = Writer {
        out: &mut before,
        at: 0,
    };
    M::show(&record, field, &mut w);
    let start = w.at;
    let legal = M::accepts(kind, field, text);
    M::write(&mut record, field, text);
    let mut after = [0u8; 24];
    let mut w = Writer {
        out: &mut after,
        at: 0,
    };
    M::show(&record, field, &mut w);
    let end = w.at;
    if legal {
        &after[0..end] == shown
    } else {
        shown.is_empty() && end == start && after == before
    }
}

#[test]
fn owners(rt: HostRuntime) {
    for case in &OWNERS {
        assert!(rt; holds::<Bcd996t>(case));
    }
}

#[test]
fn members(rt: HostRuntime) {
    for case in &MEMBERS {
        assert!(rt; holds::<Bcd996t>(case));
    }
}

#[test]
fn records_are_small(rt: HostRuntime) {
    assert!(rt; size_of::<Record>() <= 48);
}
