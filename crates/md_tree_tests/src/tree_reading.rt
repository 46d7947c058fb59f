//! Texts that are read, and those that are not, as the format and its worked examples give them.
use md_tree::{TreeFault, read_tree, text};
use std::alloc::{AllocError, Global};
use std::process::Abort;
use std::test::Fail;

fn check_read(rt: &impl Abort, alloc: Global, bytes: &[u8]) {
    let Ok(tree) = read_tree(alloc, bytes) else {
        panic!(rt; "not read");
    };
    match text(alloc, &tree) {
        Ok(written) => assert_eq!(rt; written.as_slice(), bytes),
        Err(_) => panic!(rt; "want of memory"),
    }
}

fn check_refused(rt: &impl Abort, alloc: Global, bytes: &[u8], expected: TreeFault) {
    match read_tree(alloc, bytes) {
        Ok(_) => panic!(rt; "read"),
        Err(fault) => assert_eq!(rt; fault, expected),
    }
}

fn check_syntax(rt: &impl Abort, alloc: Global, bytes: &[u8], place: u64) {
    check_refused(rt, alloc, bytes, TreeFault::Syntax { place });
}

static READ: [&[u8]; 4] = [b"S(P(0,2),1)", b"R(0,1,2,3;0-1,1-2,2-3)", b"empty", b"4095"];

static SYNTAX: [(&[u8], u64); 12] = [
    (b"", 0),
    (b"P(0,", 4),
    (b"P(01,2)", 3),
    (b"e", 1),
    (b"emptyx", 5),
    (b"S(0,1", 5),
    (b"S(0,1))", 6),
    (b"01", 1),
    (b"R(0;00-1)", 5),
    (b"R(0;1-2,)", 8),
    (b"P()", 2),
    (b"P(0)1", 4),
];

static NOT_CANONICAL: [&[u8]; 10] = [
    b"P(1,0)",
    b"P(0)",
    b"P(0,P(1,2))",
    b"16384",
    b"99999999999999999999",
    b"R(0,1;0-1)",
    b"R(0,1,2,3;1-2,0-1,2-3)",
    b"R(0,1,2,3;0-1,0-1,1-2,2-3)",
    b"R(0,1,2,3;0-1,1-2,2-4)",
    b"P(0,S(0,1))",
];

#[test]
fn small_texts(rt: HostRuntime) {
    for bytes in &READ {
        check_read(&rt, rt.alloc(), *bytes);
    }
    for (bytes, place) in &SYNTAX {
        check_syntax(&rt, rt.alloc(), *bytes, *place);
    }
    for bytes in &NOT_CANONICAL {
        check_refused(&rt, rt.alloc(), *bytes, TreeFault::NotCanonical);
    }
}

fn repeat(text: &mut Vec<u8>, piece: &[u8], count: u32) -> Result<(), AllocError> {
    for _ in 0..count {
        text.extend_from_slice(piece)?;
    }
    Ok(())
}

// The tree of depth 999 in which node k has the leaf k and node k + 1.
fn chain(alloc: Global) -> Result<Vec<u8>, Fail> {
    let mut bytes = Vec::new(alloc);
    for k in 0..998 {
        let piece = format!(in alloc; "{}({k},", if k % 2 == 0 { 'P' } else { 'S' })?;
        bytes.extend_from_slice(piece.as_bytes())?;
    }
    bytes.extend_from_slice(b"P(998,999)")?;
    repeat(&mut bytes, b")", 998)?;
    Ok(bytes)
}

#[test]
fn deep_texts(rt: HostRuntime) -> Result<(), Fail> {
    let alloc = rt.alloc();
    let mut bytes = Vec::new(alloc);
    repeat(&mut bytes, b"P(", 1_000)?;
    check_syntax(&rt, alloc, &bytes, 2_000);
    repeat(&mut bytes, b"P(", 999_000)?;
    bytes.push(b'0')?;
    repeat(&mut bytes, b")", 1_000_000)?;
    check_refused(&rt, alloc, &bytes, TreeFault::NotCanonical);
    let bytes = chain(alloc)?;
    check_read(&rt, alloc, &bytes);
    Ok(())
}

// The tree of a path along the names in their order.
fn path(alloc: Global, count: u32) -> Result<Vec<u8>, Fail> {
    let mut bytes = Vec::new(alloc);
    bytes.extend_from_slice(b"R(0")?;
    for k in 1..count {
        let piece = format!(in alloc; ",{k}")?;
        bytes.extend_from_slice(piece.as_bytes())?;
    }
    bytes.extend_from_slice(b";0-1")?;
    for k in 2..count {
        let piece = format!(in alloc; ",{}-{k}", k - 1)?;
        bytes.extend_from_slice(piece.as_bytes())?;
    }
    bytes.push(b')')?;
    Ok(bytes)
}

#[test]
fn long_texts(rt: HostRuntime) -> Result<(), Fail> {
    let alloc = rt.alloc();
    let bytes = path(alloc, 1_200)?;
    check_read(&rt, alloc, &bytes);
    Ok(())
}
