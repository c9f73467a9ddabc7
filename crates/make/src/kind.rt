// The kinds of record.
#[derive(Clone, Copy, Debug, PartialEq, Eq)]
pub enum Kind {
    System,
    Site,
    ChannelGroup,
    TalkgroupGroup,
    Channel,
    Talkgroup,
    TrunkFrequency,
}

impl Kind {
    // The kinds, in their order.
    pub const ALL: [Kind; 7] = [
        Kind::System,
        Kind::Site,
        Kind::ChannelGroup,
        Kind::TalkgroupGroup,
        Kind::Channel,
        Kind::Talkgroup,
        Kind::TrunkFrequency,
    ];
}
