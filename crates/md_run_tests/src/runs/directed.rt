//! Runs over digraph6 files.
use super::checks::expect_checks;
use super::expect;
use super::sizes::{names, output_of};
use std::alloc::Global;
use std::process::Abort;
use std::test::Fail;

#[test]
fn directed_trees(rt: HostRuntime) -> Result<(), Fail> {
    let alloc = rt.alloc();
    static TABLE: [(&str, &[u8], &str); 15] = [
        (
            "dtree g",
            b"&DI?AO?\n",
            "0|mdt dtree\nt R(0,1,2,3,4;0>2,0>4,3>1,3>4)\nend\n|",
        ),
        // A cycle, two orders, two vertices with both arcs, no vertex, one vertex.
        (
            "dtree g",
            b"&BP_\n&BCo\n&AG\n&AW\n&?\n&@?\n",
            "0|mdt dtree\nt R(0,1,2;0>1,1>2,2>0)\nt O(2,1,0)\nt O(1,0)\nt S(0,1)\nt empty\nt 0\nend\n|",
        ),
        ("dtree g", b"", "0|mdt dtree\nend\n|"),
        ("dtree g", b">>digraph6<<", "0|mdt dtree\nend\n|"),
        // Empty lines and bytes 13 at ends of lines are passed over; the last line feed is missing.
        (
            "dtree g",
            b">>digraph6<<\n&A?\r\n\n&AO",
            "0|mdt dtree\nt P(0,1)\nt O(0,1)\nend\n|",
        ),
        // A prime node has three children at least; an order goes by arcs, whatever the names.
        (
            "dtree g",
            b"&BP?\n&E?_ow{}\n",
            "0|mdt dtree\nt R(0,1,2;0>1,1>2)\nt O(5,4,3,2,1,0)\nend\n|",
        ),
        // The least name of an order node isn't that of its first child.
        ("dtree g", b"&BC?\n", "0|mdt dtree\nt P(O(1,0),2)\nend\n|"),
        (
            "dtree g",
            b"&CQKo\n",
            "0|mdt dtree\nt O(P(2,3),S(0,1))\nend\n|",
        ),
        (
            "dtree g",
            b"&CI`?\n",
            "0|mdt dtree\nt R(O(1,0),2,3;0>1,1>2)\nend\n|",
        ),
        (
            "dtree g",
            b"&DJS]^?\n",
            "0|mdt dtree\nt S(R(O(1,0),2,3;0>1,1>2,2>0),4)\nend\n|",
        ),
        (
            "dtree g",
            b"&DSYON?\n",
            "0|mdt dtree\nt O(4,R(0,1,2;0>1,1>2,2>0),3)\nend\n|",
        ),
        // Where arcs go both ways, both pairs are listed.
        (
            "dtree g",
            b"&CQdG\n",
            "0|mdt dtree\nt R(0,1,2,3;0>1,1>0,1>2,2>1,2>3,3>2)\nend\n|",
        ),
        (
            "dtree g",
            b"&DWW[[?\n",
            "0|mdt dtree\nt R(0,1,2,3,4;0>1,0>2,1>2,1>3,2>3,2>4,3>0,3>4,4>0,4>1)\nend\n|",
        ),
        ("dtree h", b"&AG\n", "4||mdt: read fault\n"),
        ("check dtree g h", b"&AG\n", "4||mdt: read fault\n"),
    ];
    expect(&rt, alloc, &TABLE)
}

#[test]
fn faults_of_digraph_files(rt: HostRuntime) -> Result<(), Fail> {
    let alloc = rt.alloc();
    static TABLE: [(&str, &[u8], &str); 21] = [
        ("dtree g", b"&@_\n", "3||mdt: graph Loop line 1\n"),
        ("dtree g", b"DQc\n", "3||mdt: graph OtherFormat line 1\n"),
        ("dtree g", b"&\n", "3||mdt: graph Truncated line 1\n"),
        (
            "dtree g",
            b">>digraph6<<>>digraph6<<&AG\n",
            "3||mdt: graph OtherFormat line 1\n",
        ),
        (
            "dtree g",
            b">>graph6<<&AG\n",
            "3||mdt: graph OtherFormat line 1\n",
        ),
        ("dtree g", b"&D>\n", "3||mdt: graph BadByte line 1\n"),
        ("dtree g", b"&~?\n", "3||mdt: graph Truncated line 1\n"),
        ("dtree g", b"&~??A?\n", "3||mdt: graph BadSize line 1\n"),
        (
            "dtree g",
            b"&~@?@\n",
            "3||mdt: graph TooManyVertices line 1\n",
        ),
        // A loop in a line that is too short.
        ("dtree g", b"&D_\n", "3||mdt: graph Truncated line 1\n"),
        ("dtree g", b"&@__\n", "3||mdt: graph TrailingBytes line 1\n"),
        // A loop, and a bit of the filling.
        ("dtree g", b"&@o\n", "3||mdt: graph Loop line 1\n"),
        ("dtree g", b"&@@\n", "3||mdt: graph BadPadding line 1\n"),
        // Nothing is put where a later line has a fault.
        ("dtree g", b"&AG\n\n&@_\n", "3||mdt: graph Loop line 3\n"),
        // The file of a report is no digraph6 file either; that of the directed graphs comes first.
        ("check dtree g g", b"&@_\n", "3||mdt: graph Loop line 1\n"),
        (
            "check dtree g s",
            b"&AG\n&@@\n",
            "3||mdt: graph BadPadding line 2\n",
        ),
        // The other commands take no such line.
        ("tree g6 g", b"&AG\n", "3||mdt: graph OtherFormat line 1\n"),
        (
            "graph6 g6 g",
            b"&AG\n",
            "3||mdt: graph OtherFormat line 1\n",
        ),
        (
            "permute g6 g",
            b"&AG\n",
            "3||mdt: graph OtherFormat line 1\n",
        ),
        (
            "edit g6 g s",
            b"&AG\n",
            "3||mdt: graph OtherFormat line 1\n",
        ),
        (
            "check tree g6 g s",
            b"&AG\n",
            "3||mdt: graph OtherFormat line 1\n",
        ),
    ];
    expect(&rt, alloc, &TABLE)
}

#[test]
fn words_of_directed_graphs(rt: HostRuntime) -> Result<(), Fail> {
    let alloc = rt.alloc();
    static TABLE: [(&str, &[u8], &str); 12] = [
        ("dtree", b"&AG\n", "2||mdt: usage\n"),
        ("dtree g6 g", b"&AG\n", "2||mdt: usage\n"),
        ("dtree g g", b"&AG\n", "2||mdt: usage\n"),
        ("dtree g g g", b"&AG\n", "2||mdt: usage\n"),
        ("Dtree g", b"&AG\n", "2||mdt: usage\n"),
        ("dtre g", b"&AG\n", "2||mdt: usage\n"),
        ("tree g", b"&AG\n", "2||mdt: usage\n"),
        ("check dtree", b"&AG\n", "2||mdt: usage\n"),
        ("check dtree g", b"&AG\n", "2||mdt: usage\n"),
        ("check dtree g6 g g", b"&AG\n", "2||mdt: usage\n"),
        ("check tree g g", b"&AG\n", "2||mdt: usage\n"),
        ("edges dtree g", b"&AG\n", "2||mdt: usage\n"),
    ];
    expect(&rt, alloc, &TABLE)
}

#[test]
fn checks_of_directed_trees(rt: HostRuntime) -> Result<(), Fail> {
    let alloc = rt.alloc();
    let line = "check dtree g r";
    let table: [(&str, &[u8], &[u8], &str); 16] = [
        (
            line,
            b"&DI?AO?\n",
            b"mdt dtree\nt R(0,1,2,3,4;0>2,0>4,3>1,3>4)\nend\n",
            "0|accepted\n|",
        ),
        (
            line,
            b"&BP_\n&BCo\n&?\n&@?\n",
            b"mdt dtree\nt R(0,1,2;0>1,1>2,2>0)\nt O(2,1,0)\nt empty\nt 0\nend\n",
            "0|accepted\n|",
        ),
        (line, b"", b"mdt dtree\nend\n", "0|accepted\n|"),
        // The children of an order node stand in the order of the arcs.
        (
            line,
            b"&BCo\n",
            b"mdt dtree\nt O(0,1,2)\nend\n",
            "1|rejected line 2\n|",
        ),
        (
            line,
            b"&BCo\n",
            b"mdt dtree\nt S(0,1,2)\nend\n",
            "1|rejected line 2\n|",
        ),
        (
            line,
            b"&BCo\n",
            b"mdt dtree\nt O(O(2,1),0)\nend\n",
            "1|rejected line 2\n|",
        ),
        // An arc the other way, and pairs in another order or with another mark.
        (
            line,
            b"&BP?\n",
            b"mdt dtree\nt R(0,1,2;0>1,2>1)\nend\n",
            "1|rejected line 2\n|",
        ),
        (
            line,
            b"&BP?\n",
            b"mdt dtree\nt R(0,1,2;1>2,0>1)\nend\n",
            "1|rejected line 2\n|",
        ),
        (
            line,
            b"&BP?\n",
            b"mdt dtree\nt R(0,1,2;0-1,1-2)\nend\n",
            "1|rejected line 2\n|",
        ),
        // Only the arcs that go to a later name.
        (
            line,
            b"&BP_\n",
            b"mdt dtree\nt R(0,1,2;0>1,1>2)\nend\n",
            "1|rejected line 2\n|",
        ),
        (
            line,
            b"&BCo\n&AG\n",
            b"mdt dtree\nt O(2,1,0)\nend\n",
            "1|rejected line 3\n|",
        ),
        (
            line,
            b"&BCo\n",
            b"mdt dtree\nt O(2,1,0)\nend",
            "1|rejected line 3\n|",
        ),
        (
            line,
            b"&BCo\n",
            b"mdt dtree\nt O(2,1,0)\nend\nend\n",
            "1|rejected line 4\n|",
        ),
        (line, b"&BCo\n", b"", "1|rejected line 1\n|"),
        (
            line,
            b"&BCo\n",
            b"mdt tree\nt O(2,1,0)\nend\n",
            "1|rejected line 1\n|",
        ),
        // A report of directed trees is none of trees.
        (
            "check tree g6 g r",
            b"A?\n",
            b"mdt dtree\nt P(0,1)\nend\n",
            "1|rejected line 1\n|",
        ),
    ];
    expect_checks(&rt, alloc, &table)
}

// Appends the size of the next digraph6 line, which is 63 or more.
fn push_size(line: &mut Vec<u8>, n: u32) -> Result<(), Fail> {
    line.extend_from_slice(b"&~")?;
    line.push((n / 4096 % 64 + 63) as u8)?;
    line.push((n / 64 % 64 + 63) as u8)?;
    line.push((n % 64 + 63) as u8)?;
    Ok(())
}

// The byte of six bits of a digraph6 line, where each vertex has arcs to all later ones.
fn group_of(n: u32, at: u32) -> u8 {
    let bits = n.saturating_mul(n);
    let mut group = 63u8;
    for bit in 0..6 {
        let place = at.wrapping_mul(6).wrapping_add(bit);
        if n > 0 && place < bits && place / n < place % n {
            group = group.wrapping_add(32u8 >> (place % 6));
        }
    }
    group
}

// Appends the digraph6 line of the directed graph on so many vertices, 63 or more, in which each
// vertex has arcs to all later ones.
fn push_order(rt: &impl Abort, line: &mut Vec<u8>, n: u32) -> Result<(), Fail> {
    assert!(rt; 62 < n);
    push_size(line, n)?;
    for at in 0..n.saturating_mul(n).div_ceil(6) {
        line.push(group_of(n, at))?;
    }
    line.push(b'\n')?;
    Ok(())
}

// Sees that the report over a file is as it is to be, and is accepted.
fn expect_report(rt: &impl Abort, alloc: Global, file: &[u8], want: &str) -> Result<(), Fail> {
    let put = output_of(alloc, "dtree g", file, b"")?;
    assert!(rt; put.as_slice() == want.as_bytes());
    let put = output_of(alloc, "check dtree g s", file, &put)?;
    assert_eq!(rt; put.as_slice(), b"accepted\n".as_slice());
    Ok(())
}

// The rows of directed graphs with more than 64 vertices, and with more than 1,024, are wider.
#[test]
fn directed_graphs_of_all_sizes(rt: HostRuntime) -> Result<(), Fail> {
    let alloc = rt.alloc();
    let mut file = Vec::new(alloc);
    let mut want = String::from_str(alloc, "mdt dtree\n")?;
    for n in [65, 1_025, 64, 1_024, 63] {
        push_order(&rt, &mut file, n)?;
        let others = names(alloc, 1, n)?;
        want.push_str(format!(in alloc; "t O(0{others})\n")?.as_str())?;
    }
    want.push_str("end\n")?;
    expect_report(&rt, alloc, &file, want.as_str())
}

// 4,096 vertices and no arc: the last byte has two bits of filling. Of one vertex more the line is
// refused before its bits are looked at.
#[test]
fn directed_graph_of_the_most_vertices(rt: HostRuntime) -> Result<(), Fail> {
    let alloc = rt.alloc();
    let mut file = Vec::new(alloc);
    push_size(&mut file, 4_096)?;
    file.extend_from_slice(&vec![in alloc; b'?'; 2_796_203]?)?;
    let others = names(alloc, 1, 4_096)?;
    let want = format!(in alloc; "mdt dtree\nt P(0{others})\nend\n")?;
    expect_report(&rt, alloc, &file, want.as_str())
}
