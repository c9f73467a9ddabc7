// Calls that no program here makes: a record of this make is set, and replies are written from what is told in full.
use bcd996t::Bcd996t;
use chain::{Chain, Index, Link};
use engine::{Session, command, set};
use ledger::command::Command;
use ledger::mode::Mode;
use ledger::refusal::Refusal;
use make::{Kind, Make};
use memory::Memory;
use reply::links::{Chained, Links, Neighbours};
use reply::told::{Reply, Told, say};
use std::test::Fail;
use text::field::Fields;

#[test]
fn a_record_is_set(rt: HostRuntime) -> Result<(), Fail> {
    let mut links = [Link::BLANK; 3];
    let mut records = [Bcd996t::fresh(Kind::System, 0); 3];
    let mut memory: Memory<Bcd996t> = Memory::open(&mut links, &mut records);
    let mut session = Session { mode: Mode::On };
    let mut out = [7u8; 600];
    let Some(x) = memory.create(Chain::Root, Kind::System, 0) else {
        return Err(Fail::new("no block is free"));
    };
    if !memory.is_living(x) {
        return Err(Fail::new("a created record is living"));
    }
    match set(&mut memory, x, Fields::of(b"Road 7,007,,,")) {
        Ok(told) => {
            let answer = Ok(Reply {
                command: Command::Sin,
                told,
            });
            assert_eq!(rt; say::<Bcd996t>(&answer, &mut out), 7);
            assert!(rt; &out[0..8] == b"SIN,OK\r\x07".as_slice());
        }
        Err(_) => return Err(Fail::new("each field is legal")),
    }
    if !memory.is_living(x) {
        return Err(Fail::new("a record that is set is living"));
    }
    // One field is not legal, and so none is written.
    match set(&mut memory, x, Fields::of(b"Road 8,100,,,")) {
        Ok(_) => return Err(Fail::new("a quick key is at most 99")),
        Err(refusal) => assert!(rt; refusal == Refusal::Wrong),
    }
    assert_eq!(rt;
        command(&mut memory, &mut session, b"SIN,1", &mut out),
        Ok(37)
    );
    assert!(rt; &out[0..37] == b"SIN,CNV,Road 7,7,0,0,0,-1,-1,-1,-1,1\r".as_slice());
    Ok(())
}

#[test]
fn a_record_is_told(rt: HostRuntime) -> Result<(), Fail> {
    let Some(x) = Index::new(40) else {
        return Err(Fail::new("40 is an index"));
    };
    let record = Bcd996t::fresh(Kind::ChannelGroup, 0);
    let neighbours = Neighbours {
        previous: None,
        next: Some(x),
    };
    let chained = Chained {
        head: None,
        tail: None,
        place: 1,
    };
    let told = Told::Record(record, Links::Middle(neighbours, Some(x), chained));
    let mut out = [7u8; 600];
    let answer = Ok(Reply {
        command: Command::Gin,
        told,
    });
    assert_eq!(rt; say::<Bcd996t>(&answer, &mut out), 33);
    assert!(rt; &out[0..33] == b"GIN,C,GROUP,.,0,-1,40,40,-1,-1,1\r".as_slice());
    Ok(())
}

#[test]
fn what_is_no_record_is_told(rt: HostRuntime) {
    let mut out = [7u8; 600];
    let count: Result<Reply<_>, Refusal> = Ok(Reply {
        command: Command::Rmb,
        told: Told::Count(199),
    });
    assert_eq!(rt; say::<Bcd996t>(&count, &mut out), 8);
    assert!(rt; &out[0..9] == b"RMB,199\r\x07".as_slice());
    let ends = Ok(Reply {
        command: Command::Trn,
        told: Told::Ends(Index::new(12), None),
    });
    assert_eq!(rt; say::<Bcd996t>(&ends, &mut out), 10);
    assert!(rt; &out[0..11] == b"TRN,12,-1\r\x07".as_slice());
    let index = Ok(Reply {
        command: Command::Acc,
        told: Told::Index(Index::new(45000)),
    });
    assert_eq!(rt; say::<Bcd996t>(&index, &mut out), 10);
    assert!(rt; &out[0..11] == b"ACC,45000\r\x07".as_slice());
    assert_eq!(rt; say::<Bcd996t>(&Err(Refusal::ModeOff), &mut out), 3);
    assert!(rt; &out[0..4] == b"NG\r,".as_slice());
}
