//! Texts that are read and written, and those that are refused, as the format and its examples give
//! them.
use md_dtree::{read_directed, text_directed};
use md_tree::TreeFault;
use std::alloc::Global;
use std::process::Abort;
use std::test::Fail;

fn check_read(rt: &impl Abort, alloc: Global, bytes: &[u8]) {
    let Ok(tree) = read_directed(alloc, bytes) else {
        panic!(rt; "not read");
    };
    match text_directed(alloc, &tree) {
        Ok(written) => assert_eq!(rt; written.as_slice(), bytes),
        Err(_) => panic!(rt; "out of memory"),
    }
}

fn check_refused(rt: &impl Abort, alloc: Global, bytes: &[u8], expected: TreeFault) {
    match read_directed(alloc, bytes) {
        Ok(_) => panic!(rt; "read"),
        Err(fault) => assert_eq!(rt; fault, expected),
    }
}

static READ: [&[u8]; 11] = [
    b"empty",
    b"4095",
    b"R(0,1,2,3,4;0>2,0>4,3>1,3>4)",
    b"O(5,4,3,2,1,0)",
    b"P(O(2,0),1,3)",
    b"O(P(2,3),S(0,1))",
    b"R(O(1,0),2,3;0>1,1>2)",
    b"S(R(O(1,0),2,3;0>1,1>2,2>0),4)",
    b"O(4,R(0,1,2;0>1,1>2,2>0),3)",
    b"R(0,1,2,3;0>1,1>0,1>2,2>1,2>3,3>2)",
    b"R(0,1,2,3,4;0>1,0>2,1>2,1>3,2>3,2>4,3>0,3>4,4>0,4>1)",
];

#[test]
fn texts_of_trees(rt: HostRuntime) {
    for bytes in &READ {
        check_read(&rt, rt.alloc(), *bytes);
    }
}

static SYNTAX: [(&[u8], u64); 5] = [
    (b"R(0,1,2)", 7),
    (b"R(0,1,2;0-1)", 9),
    (b"O(0,1;0>1)", 5),
    (b"O()", 2),
    (b"Q(0,1)", 0),
];

static NOT_CANONICAL: [&[u8]; 11] = [
    b"R(0,1,2;1>0,0>1)",
    b"R(0,1,2;0>0)",
    b"R(0,1,2;0>3)",
    b"R(0,1;0>1)",
    b"O(0)",
    b"O(0,O(1,2))",
    b"O(0,P(1,0))",
    b"P(1,0)",
    b"P(1,O(2,0))",
    b"O(4095,4096)",
    b"16383",
];

#[test]
fn texts_of_no_tree(rt: HostRuntime) {
    for (bytes, place) in &SYNTAX {
        check_refused(&rt, rt.alloc(), *bytes, TreeFault::Syntax { place: *place });
    }
    for bytes in &NOT_CANONICAL {
        check_refused(&rt, rt.alloc(), *bytes, TreeFault::NotCanonical);
    }
}

// The tree in which node k has the leaf k and node k + 1, order nodes and parallel ones in turn;
// the last node has the leaf `depth` in the place of a node.
fn chain(alloc: Global, depth: u32) -> Result<Vec<u8>, Fail> {
    let mut bytes = Vec::new(alloc);
    for k in 0..depth {
        let piece = format!(in alloc; "{}({k},", if k % 2 == 0 { 'O' } else { 'P' })?;
        bytes.extend_from_slice(piece.as_bytes())?;
    }
    let last = format!(in alloc; "{depth}")?;
    bytes.extend_from_slice(last.as_bytes())?;
    for _ in 0..depth {
        bytes.push(b')')?;
    }
    Ok(bytes)
}

#[test]
fn deep_texts(rt: HostRuntime) -> Result<(), Fail> {
    let alloc = rt.alloc();
    check_read(&rt, alloc, &chain(alloc, 4_095)?);
    let bytes = chain(alloc, 4_096)?;
    check_refused(&rt, alloc, &bytes, TreeFault::NotCanonical);
    Ok(())
}
