// Examples of the text layer.
use crate::field::Fields;
use crate::frequency::Frequency;
use crate::number::read_number;
use crate::signed::read_signed;
use crate::writer::Writer;
use std::test::Fail;

#[test]
fn numbers(rt: HostRuntime) {
    assert_eq!(rt; read_number(b"00003"), Some(3));
    assert_eq!(rt; read_number(b"000003"), None);
    assert_eq!(rt; read_number(b"+3"), None);
    assert_eq!(rt; read_number(b" 3"), None);
    assert_eq!(rt; read_number(b""), None);
    assert_eq!(rt; read_number(b"99999"), Some(99999));
    let mut out = [7u8; 8];
    let mut w = Writer {
        out: &mut out,
        at: 1,
    };
    w.put_number(907);
    assert_eq!(rt; w.at, 4);
    assert!(rt; out == [7, b'9', b'0', b'7', 7, 7, 7, 7]);
}

#[test]
fn signs(rt: HostRuntime) {
    assert_eq!(rt; read_signed(b"-00010"), Some(-10));
    assert_eq!(rt; read_signed(b"+5"), Some(5));
    assert_eq!(rt; read_signed(b"-0"), Some(0));
    assert_eq!(rt; read_signed(b"--5"), None);
    assert_eq!(rt; read_signed(b"5-"), None);
    assert_eq!(rt; read_signed(b"+"), None);
    let mut out = [7u8; 9];
    let mut w = Writer {
        out: &mut out,
        at: 0,
    };
    w.put_signed(-10);
    assert_eq!(rt; w.at, 3);
    w.put_signed(0);
    assert_eq!(rt; w.at, 4);
    assert!(rt; out == *b"-100\x07\x07\x07\x07\x07");
}

#[test]
fn frequencies(rt: HostRuntime) -> Result<(), Fail> {
    assert!(rt; Frequency::from_text(b"249999").is_none());
    assert!(rt; Frequency::from_text(b"13000001").is_none());
    assert!(rt; Frequency::from_text(b"000250000").is_none());
    assert!(rt; Frequency::from_text(b"00000000").is_some());
    assert!(rt; Frequency::try_from(1).is_err());
    assert_eq!(rt; Frequency::from_row(1).steps(), 0);
    let mut out = [7u8; 10];
    let f = Frequency::from_text(b"1546500").ok_or("refused")?;
    assert_eq!(rt; f.steps(), 1546500);
    let mut w = Writer {
        out: &mut out,
        at: 1,
    };
    f.put(&mut w);
    assert_eq!(rt; w.at, 9);
    assert!(rt; out == *b"\x0701546500\x07");
    Ok(())
}

#[test]
fn fields(rt: HostRuntime) -> Result<(), Fail> {
    let mut fields = Fields::of(b"CIN,,bc,");
    assert!(rt; fields.next().is_some());
    assert!(rt; matches!(fields.next(), Some(None)), "filled");
    let part = fields.next().flatten().ok_or("left out")?;
    assert_eq!(rt; part.at, 5);
    assert!(rt; part.bytes == b"bc".as_slice());
    assert!(rt;
        matches!(fields.next(), Some(None)),
        "no field behind the last comma"
    );
    assert!(rt; fields.next().is_none());
    let mut out = [7u8; 4];
    let mut w = Writer {
        out: &mut out,
        at: 1,
    };
    w.put_bytes(b"OK");
    assert_eq!(rt; w.at, 3);
    assert!(rt; out == [7, b'O', b'K', 7]);
    Ok(())
}
