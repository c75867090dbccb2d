// Each table, and texts that are built here.
use crate::tables::*;
use refusal::Numbers;
use std::alloc::{AllocError, Global};
use std::process::Abort;
use std::test::*;
use texts::{Base, Instance, Limits, ReadError, read_instance};

// Each text gets its refusal, and leaves no items.
fn check_refused(rt: &impl Abort, alloc: Global, cases: &[Refused]) -> Result<(), Fail> {
    let mut instance = Instance::new(alloc)?;
    for (text, place) in cases {
        let [number, layer, a, b] = *place;
        let expected = Numbers {
            number,
            layer,
            a,
            b,
        };
        match read_instance(text, &mut instance) {
            Err(ReadError::Refused(refusal)) => assert_eq!(rt; refusal.numbers(), expected),
            _ => assert!(rt; false),
        }
        assert!(rt; instance.items.is_empty());
    }
    Ok(())
}

// A test for each table: its name tells which one failed.
#[test]
fn bytes(rt: HostRuntime) -> Result<(), Fail> {
    check_refused(&rt, rt.alloc(), &BAD_BYTES)
}

#[test]
fn numbers(rt: HostRuntime) -> Result<(), Fail> {
    check_refused(&rt, rt.alloc(), &NO_NUMBERS)
}

#[test]
fn field_counts(rt: HostRuntime) -> Result<(), Fail> {
    check_refused(&rt, rt.alloc(), &WRONG_FIELD_COUNTS)
}

#[test]
fn letters(rt: HostRuntime) -> Result<(), Fail> {
    check_refused(&rt, rt.alloc(), &UNKNOWN_LETTERS)
}

#[test]
fn ranges(rt: HostRuntime) -> Result<(), Fail> {
    check_refused(&rt, rt.alloc(), &OUT_OF_RANGE)
}

#[test]
fn names(rt: HostRuntime) -> Result<(), Fail> {
    check_refused(&rt, rt.alloc(), &BAD_NAMES)
}

#[test]
fn ends(rt: HostRuntime) -> Result<(), Fail> {
    check_refused(&rt, rt.alloc(), &MALFORMED)?;
    check_refused(&rt, rt.alloc(), &WRONG_LINE_COUNTS)
}

// A text of line feeds only: its first line is empty, unless the text is too long.
#[test]
fn lengths(rt: HostRuntime) -> Result<(), Fail> {
    let mut text = Vec::with_capacity(rt.alloc(), 65_537)?;
    text.resize(65_536, b'\n')?;
    check_refused(&rt, rt.alloc(), &[(&text[..], [3, 2, 1, 0])])?;
    text.push(b'\n')?;
    check_refused(&rt, rt.alloc(), &[(&text[..], [8, 3, 0, 0])])
}

// Texts that are read, into a table that has no room at first.
#[test]
fn instances(rt: HostRuntime) -> Result<(), Fail> {
    let limits = Limits {
        base: Base::Colours(0),
        count: None,
    };
    let items = Vec::new(rt.alloc());
    let mut instance = Instance { limits, items };
    for (text, n) in &SPELLED {
        read_instance(text, &mut instance)?;
        assert_eq!(rt; instance.items.len(), *n);
    }
    Ok(())
}

// A text that says that it has 64 items, and has `n`, each with a name of its own.
fn many(rt: HostRuntime, n: u8) -> Result<Vec<u8>, AllocError> {
    let mut text = b"1\nL 5\n64\n".to_vec(rt.alloc())?;
    for i in 0..n {
        let item = [b'a' + i / 16, b'a' + i % 16, b' ', b'1', b' ', b'1', b'\n'];
        text.extend_from_slice(&item)?;
    }
    Ok(text)
}

#[test]
fn sizes(rt: HostRuntime) -> Result<(), Fail> {
    let full = many(rt, 64)?;
    let mut instance = Instance::new(rt.alloc())?;
    read_instance(&full, &mut instance)?;
    assert_eq!(rt; instance.items.len(), 64);
    let short = many(rt, 63)?;
    let long = many(rt, 65)?;
    let cases = [(&short[..], [9, 3, 67, 0]), (&long[..], [9, 3, 68, 0])];
    check_refused(&rt, rt.alloc(), &cases)
}
