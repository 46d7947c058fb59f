//! Bars of trees and of graphs as worked by hand, and of each cograph on up to five vertices as a
//! search of all quadruples tells.
use md_bar_tree::{Bar, BarKind, Class, bar_of, has_bar_at, is_bar};
use md_graph::{Graph, GraphOf};
use md_tree::{graph_of, has_no_prime, read_tree};
use std::alloc::{AllocError, Global};
use std::process::Abort;
use std::test::Fail;

const CLASSES: [Class; 2] = [Class::Trivial, Class::Threshold];

fn bar(kind: BarKind, a: u32, b: u32, c: u32, d: u32) -> Option<Bar> {
    Some(Bar { kind, a, b, c, d })
}

fn bar_of_text(rt: &impl Abort, alloc: Global, bytes: &[u8], class: Class) -> Option<Bar> {
    let Ok(tree) = read_tree(alloc, bytes) else {
        panic!(rt; "not read");
    };
    assert!(rt; has_no_prime(&tree));
    bar_of(&tree, class)
}

#[test]
fn bars_of_trees(rt: HostRuntime) -> Result<(), Fail> {
    for (text, trivial, threshold) in [
        (b"empty".as_slice(), None, None),
        (b"0", None, None),
        (b"S(0,P(1,S(2,3)))", None, None),
        (b"P(S(0,1),S(2,3))", None, bar(BarKind::TwoK2, 0, 1, 2, 3)),
        (
            b"S(0,P(1,S(2,3),S(4,5)))",
            None,
            bar(BarKind::TwoK2, 2, 3, 4, 5),
        ),
        (
            b"S(P(0,1),P(2,3))",
            bar(BarKind::C4, 0, 2, 1, 3),
            bar(BarKind::C4, 0, 2, 1, 3),
        ),
        (
            b"S(P(0,4),P(1,3),2)",
            bar(BarKind::C4, 0, 1, 4, 3),
            bar(BarKind::C4, 0, 1, 4, 3),
        ),
        (
            b"P(0,S(1,P(2,3),P(4,S(5,6))))",
            bar(BarKind::C4, 2, 4, 3, 5),
            bar(BarKind::C4, 2, 4, 3, 5),
        ),
        (
            b"P(S(P(0,1),P(2,5)),S(3,4))",
            bar(BarKind::C4, 0, 2, 1, 5),
            bar(BarKind::TwoK2, 0, 2, 3, 4),
        ),
    ] {
        assert_eq!(&rt; bar_of_text(&rt, rt.alloc(), text, Class::Trivial), trivial);
        assert_eq!(&rt;
            bar_of_text(&rt, rt.alloc(), text, Class::Threshold),
            threshold
        );
    }
    Ok(())
}

// The tree in which node k, of `count`, has the leaf k and node k + 1, and the last one is `inner`.
fn chain(alloc: Global, count: u32, inner: &[u8]) -> Result<Vec<u8>, Fail> {
    let mut bytes = Vec::new(alloc);
    for k in 0..count {
        let piece = format!(in alloc; "{}({k},", if k % 2 == 0 { 'P' } else { 'S' })?;
        bytes.extend_from_slice(piece.as_bytes())?;
    }
    bytes.extend_from_slice(inner)?;
    for _ in 0..count {
        bytes.push(b')')?;
    }
    Ok(bytes)
}

#[test]
fn bars_of_deep_trees(rt: HostRuntime) -> Result<(), Fail> {
    let alloc = rt.alloc();
    let threshold = chain(alloc, 4_094, b"P(4094,4095)")?;
    let barred = chain(alloc, 4_093, b"S(P(4093,4094),P(4095,4096))")?;
    for class in CLASSES {
        assert_eq!(&rt; bar_of_text(&rt, alloc, &threshold, class), None);
        let found = bar_of_text(&rt, alloc, &barred, class);
        assert_eq!(&rt; found, bar(BarKind::C4, 4093, 4095, 4094, 4096));
    }
    Ok(())
}

#[test]
fn bars_of_graphs(rt: HostRuntime) -> Result<(), Fail> {
    // The cycle 0-1-2-3, the edges 4-5 and 6-7, and the path 8-9-10-11.
    let edges = [
        (0, 1),
        (1, 2),
        (2, 3),
        (0, 3),
        (4, 5),
        (6, 7),
        (8, 9),
        (9, 10),
        (10, 11),
    ];
    let graph = GraphOf::<1>::from_edges(rt.alloc(), 12, &edges)?.expect(&rt, "edges");
    for (kind, a, b, c, d, trivial, threshold) in [
        (BarKind::C4, 0, 1, 2, 3, true, true),
        (BarKind::C4, 0, 3, 2, 1, false, false),
        (BarKind::C4, 1, 0, 3, 2, false, false),
        (BarKind::C4, 0, 1, 0, 3, false, false),
        (BarKind::C4, 8, 9, 10, 11, false, false),
        (BarKind::TwoK2, 4, 5, 6, 7, false, true),
        (BarKind::TwoK2, 5, 4, 6, 7, false, false),
        (BarKind::TwoK2, 6, 7, 4, 5, false, false),
        (BarKind::TwoK2, 4, 5, 4, 5, false, false),
        (BarKind::TwoK2, 0, 1, 2, 3, false, false),
        (BarKind::TwoK2, 4, 5, 12, u32::MAX, false, false),
        (BarKind::P4, 8, 9, 10, 11, true, true),
        (BarKind::P4, 11, 10, 9, 8, false, false),
        (BarKind::P4, 0, 1, 2, 3, false, false),
    ] {
        let bar = Bar { kind, a, b, c, d };
        assert_eq!(&rt;
            is_bar(&graph, Class::Trivial, &bar),
            trivial,
            "{a} {b} {c} {d}"
        );
        assert_eq!(&rt;
            is_bar(&graph, Class::Threshold, &bar),
            threshold,
            "{a} {b} {c} {d}"
        );
    }
    Ok(())
}

// The shape of a tree, a text of its names, brackets and commas, with a name behind the part from
// the byte at `from` to that at `to`, in new brackets with that part.
fn with_name(
    alloc: Global,
    shape: &[u8],
    from: usize,
    to: usize,
    name: u32,
) -> Result<Vec<u8>, Fail> {
    let mut new = Vec::new(alloc);
    let end = format!(in alloc; ",{name})")?;
    for (i, byte) in shape.iter().enumerate() {
        if i == from {
            new.push(b'(')?;
        }
        new.push(*byte)?;
        if i == to {
            new.extend_from_slice(end.as_bytes())?;
        }
    }
    Ok(new)
}

// The same without new brackets: the name is the last one in those that end at `to`.
fn with_last_name(alloc: Global, shape: &[u8], to: usize, name: u32) -> Result<Vec<u8>, Fail> {
    let mut new = Vec::new(alloc);
    let end = format!(in alloc; ",{name})")?;
    for (i, byte) in shape.iter().enumerate() {
        if i == to {
            new.extend_from_slice(end.as_bytes())?;
        } else {
            new.push(*byte)?;
        }
    }
    Ok(new)
}

// The shapes that are this one where a name above all of its names is left out; each name has one
// digit.
fn grow(alloc: Global, shape: &[u8], name: u32) -> Result<Vec<Vec<u8>>, Fail> {
    let mut all = Vec::new(alloc);
    let mut begins = Vec::new(alloc);
    for (i, byte) in shape.iter().enumerate() {
        match *byte {
            b'(' => begins.push(i)?,
            b')' => {
                if let Some(from) = begins.pop() {
                    all.push(with_name(alloc, shape, from, i, name)?)?;
                    all.push(with_last_name(alloc, shape, i, name)?)?;
                }
            }
            b',' => {}
            _ => all.push(with_name(alloc, shape, i, i, name)?)?,
        }
    }
    Ok(all)
}

// The text of the tree of this shape whose root is series or not, without prime nodes.
fn text_of(alloc: Global, shape: &[u8], root_is_series: bool) -> Result<Vec<u8>, AllocError> {
    let mut text = Vec::new(alloc);
    let mut series = root_is_series;
    for byte in shape {
        match *byte {
            b'(' => {
                text.push(if series { b'S' } else { b'P' })?;
                series = !series;
            }
            b')' => series = !series,
            _ => {}
        }
        text.push(*byte)?;
    }
    Ok(text)
}

// Whether some four of the first five numbers are a bar.
fn has_bar(graph: &Graph, class: Class) -> bool {
    for kind in [BarKind::P4, BarKind::C4, BarKind::TwoK2] {
        for all in 0..625_u32 {
            let (a, b, c, d) = (all / 125, all / 25 % 5, all / 5 % 5, all % 5);
            if is_bar(graph, class, &Bar { kind, a, b, c, d }) {
                return true;
            }
        }
    }
    false
}

// Whether one of the first five numbers is a vertex that crosses another one.
fn some_crosses(graph: &Graph, class: Class) -> bool {
    let _vertices = graph.vertices();
    for w in 0..5 {
        if graph.has_vertex(w) && has_bar_at(graph, class, w) {
            return true;
        }
    }
    false
}

fn check_by_search(rt: &impl Abort, alloc: Global, text: &[u8]) -> Result<(), Fail> {
    let Ok(tree) = read_tree(alloc, text) else {
        panic!(rt; "not read");
    };
    assert!(rt; has_no_prime(&tree));
    let mut graph = Graph::new(alloc)?;
    graph_of(&tree, &mut graph);
    for class in CLASSES {
        match bar_of(&tree, class) {
            Some(bar) => assert!(rt; is_bar(&graph, class, &bar)),
            None => assert!(rt; !has_bar(&graph, class)),
        }
        assert_eq!(rt; some_crosses(&graph, class), has_bar(&graph, class));
    }
    Ok(())
}

#[test]
fn small_cographs(rt: HostRuntime) -> Result<(), Fail> {
    let alloc = rt.alloc();
    let mut shapes = Vec::new(alloc);
    shapes.push(text_of(alloc, b"0", false)?)?;
    for (name, count) in [(1, 1), (2, 4), (3, 26), (4, 236)] {
        let mut all = Vec::new(alloc);
        for shape in &shapes {
            for more in grow(alloc, shape, name)? {
                for root_is_series in [false, true] {
                    check_by_search(&rt, alloc, &text_of(alloc, &more, root_is_series)?)?;
                }
                all.push(more)?;
            }
        }
        assert_eq!(&rt; all.len(), count);
        shapes = all;
    }
    Ok(())
}
