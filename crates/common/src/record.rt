// A record: the settings of its one kind.
use crate::group::GroupSettings;
use crate::named::Named;
use crate::site::SiteSettings;
use crate::trunk::TrunkSettings;

// The settings of systems, channels and talkgroups are each make's own.
#[derive(Clone, Copy)]
pub enum Record<S, C, T> {
    System { system_type: u8, settings: S },
    Site(Named<SiteSettings>),
    ChannelGroup(Named<GroupSettings>),
    TalkgroupGroup(Named<GroupSettings>),
    Channel(C),
    Talkgroup(T),
    TrunkFrequency(TrunkSettings),
}
