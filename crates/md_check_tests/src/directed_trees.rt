//! Trees of small directed graphs, right ones and altered ones.
use md_dcheck::fits_directed;
use md_digraph::{Digraph, DigraphOf};
use md_digraph6::{DirectedLines, scan_directed};
use md_dtree::{DChildren, DKind, DPairs, DTree, read_directed};
use md_graph::Memory;
use std::alloc::Global;
use std::process::Abort;
use std::test::Fail;

// The directed graph of the one line of a file.
fn digraph(rt: &impl Abort, alloc: Global, file: &[u8]) -> Result<Digraph, Memory> {
    let mut graph = Digraph::new(alloc)?;
    if scan_directed(file).is_err() {
        panic!(rt; "a fault");
    }
    let mut lines = DirectedLines::new(file);
    lines.next(&mut graph);
    Ok(graph)
}

fn tree(rt: &impl Abort, alloc: Global, text: &[u8]) -> Option<DTree> {
    let Ok(tree) = read_directed(alloc, text) else {
        panic!(rt; "not read");
    };
    tree
}

// Sees that the directed graph has the one tree and not the other one.
fn check(
    rt: &impl Abort,
    alloc: Global,
    file: &[u8],
    right: &[u8],
    altered: &[u8],
) -> Result<(), Memory> {
    let graph = digraph(rt, alloc, file)?;
    assert!(rt; fits_directed(alloc, &graph, &tree(rt, alloc, right))?);
    assert!(rt; !fits_directed(alloc, &graph, &tree(rt, alloc, altered))?);
    Ok(())
}

static ROWS: [(&[u8], &[u8], &[u8]); 18] = [
    (b"&?\n", b"empty", b"0"),
    (b"&@?\n", b"0", b"1"),
    (b"&A?\n", b"P(0,1)", b"S(0,1)"),
    (b"&AO\n", b"O(0,1)", b"O(1,0)"),
    (b"&BCo\n", b"O(2,1,0)", b"O(0,1,2)"),
    (b"&BP?\n", b"R(0,1,2;0>1,1>2)", b"R(0,1,2;1>0,2>1)"),
    (b"&E?_ow{}\n", b"O(5,4,3,2,1,0)", b"O(5,4,3,2,0,1)"),
    (b"&BC?\n", b"P(O(1,0),2)", b"P(O(0,1),2)"),
    (b"&CQKo\n", b"O(P(2,3),S(0,1))", b"O(S(0,1),P(2,3))"),
    (
        b"&CI`?\n",
        b"R(O(1,0),2,3;0>1,1>2)",
        b"R(O(0,1),2,3;0>1,1>2)",
    ),
    // The order of two is a module that this tree leaves out.
    (
        b"&CI`?\n",
        b"R(O(1,0),2,3;0>1,1>2)",
        b"R(0,1,2,3;0>2,1>0,1>2,2>3)",
    ),
    (
        b"&DJS]^?\n",
        b"S(R(O(1,0),2,3;0>1,1>2,2>0),4)",
        b"S(R(O(1,0),2,3;0>1,1>2),4)",
    ),
    (
        b"&DSYON?\n",
        b"O(4,R(0,1,2;0>1,1>2,2>0),3)",
        b"O(3,R(0,1,2;0>1,1>2,2>0),4)",
    ),
    // Leaf sets that are no modules.
    (
        b"&DSYON?\n",
        b"O(4,R(0,1,2;0>1,1>2,2>0),3)",
        b"O(4,R(0,1,3;0>1,1>2,2>0),2)",
    ),
    (
        b"&CQdG\n",
        b"R(0,1,2,3;0>1,1>0,1>2,2>1,2>3,3>2)",
        b"R(0,1,2,3;0>1,1>0,1>2,2>1,2>3)",
    ),
    (
        b"&DWW[[?\n",
        b"R(0,1,2,3,4;0>1,0>2,1>2,1>3,2>3,2>4,3>0,3>4,4>0,4>1)",
        b"R(0,1,2,3,4;0>1,0>2,1>2,1>3,1>4,2>3,2>4,3>0,3>4,4>0)",
    ),
    (
        b"&DI?AO?\n",
        b"R(0,1,2,3,4;0>2,0>4,3>1,3>4)",
        b"R(0,1,2,3,4;1>3,2>0,4>0,4>3)",
    ),
    (b"&AW\n", b"S(0,1)", b"empty"),
];

#[test]
fn trees(rt: HostRuntime) -> Result<(), Fail> {
    for (file, right, altered) in &ROWS {
        check(&rt, rt.alloc(), *file, *right, *altered)?;
    }
    Ok(())
}

// The directed graph on the names below `count` whose arcs, in order, are the bits of a number.
fn of_bits(rt: &impl Abort, alloc: Global, count: u32, bits: u32) -> Result<DigraphOf<1>, Memory> {
    let mut graph = DigraphOf::new(alloc)?;
    for v in 0..count {
        assert!(rt; v < 64 && !graph.has_vertex(v));
        graph.add_vertex(v);
    }
    let mut left = bits;
    for (u, v) in ARCS {
        if u < count && v < count {
            if left % 2 == 1 {
                lead(rt, &mut graph, u, v);
            }
            left /= 2;
        }
    }
    Ok(graph)
}

const ARCS: [(u32, u32); 6] = [(0, 1), (0, 2), (1, 0), (1, 2), (2, 0), (2, 1)];

fn lead(rt: &impl Abort, graph: &mut DigraphOf<1>, u: u32, v: u32) {
    assert!(rt; u != v);
    assert!(rt; graph.has_vertex(u));
    assert!(rt; graph.has_vertex(v));
    assert!(rt; !graph.has_arc(u, v));
    graph.add_arc(u, v);
}

// The number of the trees with these texts, each with a blank behind it, that the directed graph
// has.
fn fits_among(
    rt: &impl Abort,
    alloc: Global,
    graph: &DigraphOf<1>,
    texts: &[u8],
) -> Result<u32, Memory> {
    let mut count: u32 = 0;
    for text in texts.split(|byte: &u8| *byte == b' ') {
        if !text.is_empty() && fits_directed(alloc, graph, &tree(rt, alloc, text))? {
            count = count.saturating_add(1);
        }
    }
    Ok(count)
}

// The text of the prime node over 0, 1 and 2 whose pairs, in order, are the bits of a number.
fn prime_text(alloc: Global, bits: u32) -> Result<Vec<u8>, Fail> {
    let mut text = Vec::new(alloc);
    text.extend_from_slice(b"R(0,1,2")?;
    let mut before = b';';
    let mut left = bits;
    for (from, to) in ARCS {
        if left % 2 == 1 {
            let pair = format!(in alloc; "{}{from}>{to}", before as char)?;
            text.extend_from_slice(pair.as_bytes())?;
            before = b',';
        }
        left /= 2;
    }
    text.push(b')')?;
    Ok(text)
}

// The trees on three names without a prime node.
static TEXTS: [&[u8]; 19] = [
    b"P(0,1,2) S(0,1,2) ",
    b"O(0,1,2) O(0,2,1) ",
    b"O(1,0,2) O(1,2,0) ",
    b"O(2,0,1) O(2,1,0) ",
    b"P(0,S(1,2)) P(0,O(1,2)) ",
    b"P(0,O(2,1)) S(0,P(1,2)) ",
    b"S(0,O(1,2)) S(0,O(2,1)) ",
    b"O(P(1,2),0) O(0,P(1,2)) ",
    b"O(S(1,2),0) O(0,S(1,2)) ",
    b"P(S(0,2),1) P(O(0,2),1) ",
    b"P(O(2,0),1) S(P(0,2),1) ",
    b"S(O(0,2),1) S(O(2,0),1) ",
    b"O(P(0,2),1) O(1,P(0,2)) ",
    b"O(S(0,2),1) O(1,S(0,2)) ",
    b"P(S(0,1),2) P(O(0,1),2) ",
    b"P(O(1,0),2) S(P(0,1),2) ",
    b"S(O(0,1),2) S(O(1,0),2) ",
    b"O(P(0,1),2) O(2,P(0,1)) ",
    b"O(S(0,1),2) O(2,S(0,1)) ",
];

// The number of all trees on three names that the directed graph has.
fn fits_on_three(rt: &impl Abort, alloc: Global, graph: &DigraphOf<1>) -> Result<u32, Fail> {
    let mut count: u32 = 0;
    for texts in &TEXTS {
        count = count.saturating_add(fits_among(rt, alloc, graph, *texts)?);
    }
    for bits in 1..64 {
        let text = prime_text(alloc, bits)?;
        count = count.saturating_add(fits_among(rt, alloc, graph, &text)?);
    }
    Ok(count)
}

// Sees that the directed graph of these bits on three names has one of all trees.
fn check_three(rt: &impl Abort, alloc: Global, bits: u32) -> Result<(), Fail> {
    let graph = of_bits(rt, alloc, 3, bits)?;
    assert_eq!(rt; fits_on_three(rt, alloc, &graph)?, 1);
    Ok(())
}

// Sees that the directed graph of these bits on so many names has one of the trees.
fn check_among(
    rt: &impl Abort,
    alloc: Global,
    count: u32,
    bits: u32,
    texts: &[u8],
) -> Result<(), Memory> {
    let graph = of_bits(rt, alloc, count, bits)?;
    assert_eq!(rt; fits_among(rt, alloc, &graph, texts)?, 1);
    Ok(())
}

// Each directed graph on three names or fewer has one of all trees on these names.
#[test]
fn one_tree_each(rt: HostRuntime) -> Result<(), Fail> {
    for bits in 0..64 {
        check_three(&rt, rt.alloc(), bits)?;
    }
    for bits in 0..4 {
        check_among(&rt, rt.alloc(), 2, bits, b"P(0,1) S(0,1) O(0,1) O(1,0)")?;
    }
    check_among(&rt, rt.alloc(), 1, 0, b"0 1 empty")?;
    Ok(())
}

// Trees that aren't well-formed are those of no directed graph.
#[test]
fn trees_that_are_not_well_formed(rt: HostRuntime) -> Result<(), Fail> {
    let alloc = rt.alloc();
    let none: Digraph = Digraph::new(alloc)?;
    let hollow = node(alloc, DKind::Order, &[])?;
    assert!(rt; !fits_directed(alloc, &none, &hollow)?);
    let one = of_bits(&rt, alloc, 1, 0)?;
    let lone = node(alloc, DKind::Parallel, &[0])?;
    assert!(rt; !fits_directed(alloc, &one, &lone)?);
    let two = of_bits(&rt, alloc, 2, 0)?;
    let turned = node(alloc, DKind::Parallel, &[1, 0])?;
    assert!(rt; !fits_directed(alloc, &two, &turned)?);
    Ok(())
}

// A node over leaves.
fn node(alloc: Global, kind: DKind, names: &[u32]) -> Result<Option<DTree>, Memory> {
    let mut list = Vec::new(alloc);
    for name in names {
        list.push(DTree::Leaf(*name))?;
    }
    let pairs = Vec::new(alloc);
    Ok(Some(DTree::Node(kind, DChildren { list }, DPairs { list: pairs })))
}
