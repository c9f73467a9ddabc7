// The commands that the engine knows, by their three letters, and what fields each takes.
ghost use Rattle.std.specs.Prelude.{◌≡◌};
ghost use Rattle.ledger.specs.Commands.{name_of, command_of, takes_of, counts};

use make::{Kind, Make};

#[derive(Clone, Copy)]
pub enum Command {
    Prg,
    Epg,
    Clr,
    Sct,
    Sih,
    Sit,
    Rmb,
    Csy,
    Agc,
    Ast,
    Agt,
    Acc,
    Act,
    Dsy,
    Dgr,
    Dch,
    Fwd,
    Rev,
    Trn,
    Sin,
    Sif,
    Gin,
    Cin,
    Tin,
    Tfq,
}

impl Command {
    // Every command.
    pub const ALL: [Command; 25] = [
        Command::Prg,
        Command::Epg,
        Command::Clr,
        Command::Sct,
        Command::Sih,
        Command::Sit,
        Command::Rmb,
        Command::Csy,
        Command::Agc,
        Command::Ast,
        Command::Agt,
        Command::Acc,
        Command::Act,
        Command::Dsy,
        Command::Dgr,
        Command::Dch,
        Command::Fwd,
        Command::Rev,
        Command::Trn,
        Command::Sin,
        Command::Sif,
        Command::Gin,
        Command::Cin,
        Command::Tin,
        Command::Tfq,
    ];

    // The letters of a command.
    pub fn letters(self) -> &'static [u8]
        ensures value { result.now ≡ name_of self }
    {
        match self {
            Command::Prg => b"PRG",
            Command::Epg => b"EPG",
            Command::Clr => b"CLR",
            Command::Sct => b"SCT",
            Command::Sih => b"SIH",
            Command::Sit => b"SIT",
            Command::Rmb => b"RMB",
            Command::Csy => b"CSY",
            Command::Agc => b"AGC",
            Command::Ast => b"AST",
            Command::Agt => b"AGT",
            Command::Acc => b"ACC",
            Command::Act => b"ACT",
            Command::Dsy => b"DSY",
            Command::Dgr => b"DGR",
            Command::Dch => b"DCH",
            Command::Fwd => b"FWD",
            Command::Rev => b"REV",
            Command::Trn => b"TRN",
            Command::Sin => b"SIN",
            Command::Sif => b"SIF",
            Command::Gin => b"GIN",
            Command::Cin => b"CIN",
            Command::Tin => b"TIN",
            Command::Tfq => b"TFQ",
        }
    }

    // The command that has those letters.
    #[tactic(auto, unfolding(crate::specs::Commands::command_of))]
    pub fn from_letters(text: &[u8]) -> Option<Command>
        ensures value { result ≡ command_of text.now }
    {
        Command::ALL.iter().copied().find(|c| c.letters() == text)
    }

    // What fields a command takes.
    pub fn takes(self) -> Takes
        ensures value { result ≡ takes_of self }
    {
        match self {
            Command::Prg | Command::Epg => Takes::Switch,
            Command::Clr | Command::Sct | Command::Sih | Command::Sit | Command::Rmb =>
                Takes::Nothing,
            Command::Csy
            | Command::Agc
            | Command::Ast
            | Command::Agt
            | Command::Acc
            | Command::Act => Takes::One,
            Command::Dsy | Command::Dgr | Command::Dch => Takes::One,
            Command::Fwd | Command::Rev | Command::Trn => Takes::One,
            Command::Sin => Takes::RecordOf(Kind::System),
            Command::Sif => Takes::RecordOf(Kind::Site),
            Command::Gin => Takes::RecordOf(Kind::ChannelGroup),
            Command::Cin => Takes::RecordOf(Kind::Channel),
            Command::Tin => Takes::RecordOf(Kind::Talkgroup),
            Command::Tfq => Takes::RecordOf(Kind::TrunkFrequency),
        }
    }
}

// What fields a command takes.
#[derive(Clone, Copy)]
pub enum Takes {
    // No field; taken with the mode off too.
    Switch,
    // No field.
    Nothing,
    // One field.
    One,
    // An index alone, or an index and every field of that kind.
    RecordOf(Kind),
}

impl Takes {
    // Whether `n` fields are the right count.
    pub fn counts<M: Make>(self, n: usize) -> bool
        ensures value { result ≡ counts M.Make.spec self n }
    {
        match self {
            Takes::Switch | Takes::Nothing => n == 0,
            Takes::One => n == 1,
            Takes::RecordOf(kind) => n == 1 || n == M::field_count(kind) + 1,
        }
    }
}
