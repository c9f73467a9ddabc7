// Which records a command is for, and what members a record has.
ghost use Rattle.std.specs.Prelude.{◌≡◌, ℕ, List};
ghost use Rattle.ledger.specs.Ledger.{Holding, type_for};
ghost use Rattle.ledger.specs.Records.{is_for, member_kind};

use ledger::command::Command;
use make::Kind;

// Whether a command is for a record of that kind and, if it is a system, that type.
pub fn is_for(command: Command, kind: Kind, system_type: u8) -> bool
    ensures value { (ts : List (List ℕ)) → result ≡ is_for command (record { kind = kind; system_type = type_for kind system_type; texts = ts }) }
{
    let conventional = system_type == 0;
    match (command, kind) {
        (Command::Fwd | Command::Rev, _) => true,
        (Command::Agc, Kind::System) => conventional,
        (Command::Ast | Command::Agt | Command::Trn, Kind::System) => !conventional,
        (Command::Acc, Kind::ChannelGroup | Kind::Site) => true,
        (Command::Act, Kind::TalkgroupGroup) => true,
        (Command::Dsy | Command::Sin, Kind::System) => true,
        (Command::Dgr, Kind::Site | Kind::ChannelGroup | Kind::TalkgroupGroup) => true,
        (Command::Dch, Kind::Channel | Kind::Talkgroup | Kind::TrunkFrequency) => true,
        (Command::Sif, Kind::Site) => true,
        (Command::Gin, Kind::ChannelGroup | Kind::TalkgroupGroup) => true,
        (Command::Cin, Kind::Channel) => true,
        (Command::Tin, Kind::Talkgroup) => true,
        (Command::Tfq, Kind::TrunkFrequency) => true,
        _ => false,
    }
}

// The kind of the members in a record's first chain.
pub fn member_kind(kind: Kind) -> Kind
    ensures value { result ≡ member_kind kind }
{
    match kind {
        Kind::System => Kind::ChannelGroup,
        Kind::Site | Kind::TrunkFrequency => Kind::TrunkFrequency,
        Kind::ChannelGroup | Kind::Channel => Kind::Channel,
        Kind::TalkgroupGroup | Kind::Talkgroup => Kind::Talkgroup,
    }
}
