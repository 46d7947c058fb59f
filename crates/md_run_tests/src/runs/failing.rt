//! Runs whose loads or puts fail, or whose output finds no memory.
mod full_sink;

use super::{expect_fault, expect_run, run_over, show, status_of, words_of};
use full_sink::FullSink;
use md_io::{MemFiles, MemSink};
use std::alloc::Global;
use std::process::Abort;
use std::test::Fail;

// Of two edits the first would make an induced P4 and is refused, the second is applied.
const COGRAPH: (&str, &[u8], &[u8], &[&str]) = (
    "cograph g6 g s",
    b"Cg\n",
    b"+e 2 3\n+e 1 3\n",
    &[
        "mdt cograph\n",
        "t P(S(P(0,2),1),3)\n",
        "no p4 0 1 2 3\n",
        "ok S(P(0,2,3),1)\n",
        "end\n",
    ],
);

// Appends the first bytes of a line.
fn push_part(text: &mut String, line: &str, part: usize) -> Result<(), Fail> {
    for byte in line.as_bytes().iter().take(part) {
        text.push(char::from(*byte))?;
    }
    Ok(())
}

// The lines in front of a place, and of the line at it the first bytes.
fn front(alloc: Global, lines: &[&str], place: usize, part: usize) -> Result<String, Fail> {
    let mut text = String::new(alloc);
    for line in lines.iter().take(place) {
        text.push_str(line)?;
    }
    if place < lines.len() {
        push_part(&mut text, lines[place], part)?;
    }
    Ok(text)
}

// What is to be shown of a run whose output is these lines, each in one put, where the put at a
// place takes a part of its line and fails.
fn failing_run(alloc: Global, lines: &[&str], place: usize, part: usize) -> Result<String, Fail> {
    let text = front(alloc, lines, place, part)?;
    if place < lines.len() {
        return Ok(format!(in alloc; "5|{text}|mdt: write fault\n")?);
    }
    Ok(format!(in alloc; "0|{text}|")?)
}

// Sees that a run ends as it is to be whose put at a place takes a part of its line and fails.
fn expect_cut(
    rt: &impl Abort,
    alloc: Global,
    line: &str,
    files: (&[u8], &[u8]),
    lines: &[&str],
    place: u64,
    part: u64,
) -> Result<(), Fail> {
    let (file, script) = files;
    let want = failing_run(alloc, lines, place as usize, part as usize)?;
    let shown = run_over(alloc, line, file, script, 0, place.saturating_add(1), part)?;
    assert_eq!(rt; shown.as_str(), want.as_str(), "{line}");
    Ok(())
}

// The same at each place, and of several parts.
fn expect_cuts(
    rt: &impl Abort,
    alloc: Global,
    line: &str,
    files: (&[u8], &[u8]),
    lines: &[&str],
) -> Result<(), Fail> {
    for place in 0..8 {
        for part in [0, 3, 100] {
            expect_cut(rt, alloc, line, files, lines, place, part)?;
        }
    }
    Ok(())
}

#[test]
fn puts_that_fail(rt: HostRuntime) -> Result<(), Fail> {
    let alloc = rt.alloc();
    static TABLE: [(&str, &[u8], &[u8], &[&str]); 5] = [
        COGRAPH,
        // A path, an order, no vertex.
        (
            "dtree g",
            b"&BP?\n&BCo\n&?\n",
            b"",
            &[
                "mdt dtree\n",
                "t R(0,1,2;0>1,1>2)\n",
                "t O(2,1,0)\n",
                "t empty\n",
                "end\n",
            ],
        ),
        // The same two edits, of which a quiet report tells one tree.
        (
            "quiet g6 g s",
            b"Cg\n",
            b"+e 2 3\n+e 1 3\n",
            &[
                "mdt quiet\n",
                "no p4 0 1 2 3\n",
                "ok\n",
                "t S(P(0,2,3),1)\n",
                "end\n",
            ],
        ),
        // A path, a cycle of six vertices, one of five, no vertex, two vertices without an edge.
        (
            "permute g6 g",
            b"Ch\nEhEG\nDhc\n?\nA?\n",
            b"",
            &[
                "mdt permute\n",
                "yes 0 2 1 3 / 1 0 3 2\n",
                "no c 0>2 0>3 0>4 1>4 1>5 2>5 2>0\n",
                "no g 0>1 0>4 3>4 3>2 1>2 1>0\n",
                "yes /\n",
                "yes 0 1 / 0 1\n",
                "end\n",
            ],
        ),
        // An edit of an edge, and a vertex that goes and comes again with all as its neighbours.
        (
            "edit g6 g s",
            b"DhO\n",
            b"+e 0 4\n-v 3\n+v 3 0 1 2 4\n",
            &[
                "mdt edit\n",
                "t R(P(0,4),1,2,3;0-1,1-2,2-3)\n",
                "ok R(S(0,4),1,2,3;0-1,1-2,2-3)\n",
                "ok S(P(S(0,4),2),1)\n",
                "ok S(P(S(0,4),2),1,3)\n",
                "end\n",
            ],
        ),
    ];
    for (line, file, script, lines) in &TABLE {
        expect_cuts(&rt, alloc, line, (*file, *script), *lines)?;
    }
    Ok(())
}

#[test]
fn answers_of_one_put(rt: HostRuntime) -> Result<(), Fail> {
    let alloc = rt.alloc();
    // Each with its first put failing behind three bytes, and with its second, which never comes.
    static TABLE: [(&str, &[u8], &[u8], &str, &str); 3] = [
        (
            "check tree g6 g s",
            b"DhO\n",
            b"mdt tree\nt R(P(0,4),1,2,3;0-1,1-2,2-3)\nend\n",
            "5|acc|mdt: write fault\n",
            "0|accepted\n|",
        ),
        (
            "check tree g6 g s",
            b"DhO\n",
            b"mdt tree\nend\n",
            "5|rej|mdt: write fault\n",
            "1|rejected line 2\n|",
        ),
        (
            "big 5",
            b"",
            b"",
            "5|ins|mdt: write fault\n",
            "0|inserted 5 refused 1 nodes 9 left 2 nodes 3\n|",
        ),
    ];
    for (line, file, script, cut, whole) in &TABLE {
        expect_fault(&rt, alloc, line, *file, *script, (0, 1, 3), cut)?;
        expect_fault(&rt, alloc, line, *file, *script, (0, 2, 3), whole)?;
    }
    Ok(())
}

// Sees that a run over a sink with room for so many pieces puts these, and says why it ends.
fn expect_room(
    rt: &impl Abort,
    alloc: Global,
    line: &str,
    files: (&[u8], &[u8]),
    lines: &[&str],
    room: usize,
) -> Result<(), Fail> {
    let words = words_of(alloc, line)?;
    let mut kept = MemFiles::new(alloc, Vec::new(alloc));
    kept.add("g", files.0)?;
    kept.add("s", files.1)?;
    let mut out = FullSink::new(alloc, room as u64);
    let mut err = MemSink::new(alloc, Vec::new(alloc), 0);
    let status = status_of(alloc, &words, &mut kept, &mut out, &mut err).number();
    let want = front(alloc, lines, room, 0)?;
    assert!(rt; out.bytes() == want.as_bytes(), "{line}");
    let (number, told) = if room < lines.len() {
        (6, "mdt: memory\n")
    } else {
        (0, "")
    };
    assert!(rt;
        status == number && err.bytes() == told.as_bytes(),
        "{line}"
    );
    Ok(())
}

// The same of several rooms.
fn expect_rooms(
    rt: &impl Abort,
    alloc: Global,
    line: &str,
    files: (&[u8], &[u8]),
    lines: &[&str],
) -> Result<(), Fail> {
    for room in 0..7 {
        expect_room(rt, alloc, line, files, lines, room)?;
    }
    Ok(())
}

#[test]
fn puts_without_memory(rt: HostRuntime) -> Result<(), Fail> {
    let alloc = rt.alloc();
    static TABLE: [(&str, &[u8], &[u8], &[&str]); 3] = [
        COGRAPH,
        // A triangle: the least-edge orientation.
        (
            "compare g6 g",
            b"Bw\n",
            b"",
            &["mdt compare\n", "yes 0>1 0>2 1>2\n", "end\n"],
        ),
        // A vertex and then none, each in one put.
        (
            "edges g6 g",
            b"@\n?\n",
            b"",
            &["p edge 1 0\n", "p edge 0 0\n"],
        ),
    ];
    for (line, file, script, lines) in &TABLE {
        expect_rooms(&rt, alloc, line, (*file, *script), *lines)?;
    }
    Ok(())
}

#[test]
fn first_causes(rt: HostRuntime) -> Result<(), Fail> {
    let alloc = rt.alloc();
    // The load and the put of these numbers fail, as far as the run comes to them.
    static TABLE: [(&str, &[u8], &[u8], u64, u64, &str); 17] = [
        ("tree png g", b"A`\n", b"", 1, 1, "2||mdt: usage\n"),
        ("tree g6 g", b"A`\n", b"", 1, 1, "4||mdt: read fault\n"),
        ("tree g6 g", b"Bw\n", b"", 1, 1, "4||mdt: read fault\n"),
        (
            "tree g6 g",
            b"A`\n",
            b"",
            0,
            1,
            "3||mdt: graph BadPadding line 1\n",
        ),
        (
            "edges g6 g",
            b"@\nA`\n",
            b"",
            0,
            1,
            "3||mdt: graph BadPadding line 2\n",
        ),
        ("edit g6 g s", b"A`\n", b"*", 2, 1, "4||mdt: read fault\n"),
        (
            "edit dimacs g s",
            b"p edge 3 2\ne 1 2\ne 2 3\n",
            b"+e 1 3\n+e 1 3\n-v 9\n",
            2,
            0,
            "4||mdt: read fault\n",
        ),
        (
            "quiet g6 g s",
            b"A`\n",
            b"*",
            0,
            1,
            "3||mdt: graph BadPadding line 1\n",
        ),
        (
            "cograph g6 g s",
            b"@\n@\n",
            b"*",
            0,
            1,
            "3||mdt: graph NotOneGraph count 2\n",
        ),
        (
            "cograph g6 g s",
            b"@\n",
            b"*",
            0,
            1,
            "3||mdt: script UnknownEdit line 1\n",
        ),
        (
            "check tree g6 g s",
            b"DhO\n",
            b"mdt tree\nt R(P(0,4),1,2,3;0-1,1-2,2-3)\nend\n",
            2,
            1,
            "4||mdt: read fault\n",
        ),
        (
            "check edit g6 g s s",
            b"A`\n",
            b"*",
            3,
            1,
            "4||mdt: read fault\n",
        ),
        (
            "check tree g6 g s",
            b"DhO\n",
            b"end\n",
            0,
            1,
            "5||mdt: write fault\n",
        ),
        ("dtree g", b"&@_\n", b"", 1, 1, "4||mdt: read fault\n"),
        (
            "dtree g",
            b"&AG\n&@_\n",
            b"",
            0,
            1,
            "3||mdt: graph Loop line 2\n",
        ),
        (
            "check dtree g s",
            b"&@_\n",
            b"*",
            2,
            1,
            "4||mdt: read fault\n",
        ),
        (
            "check dtree g s",
            b"&@_\n",
            b"*",
            0,
            1,
            "3||mdt: graph Loop line 1\n",
        ),
    ];
    for (line, file, script, load, put, want) in &TABLE {
        expect_fault(&rt, alloc, line, *file, *script, (*load, *put, 0), want)?;
    }
    Ok(())
}

// Sees that a run ends as it is to be whose first put on `err` fails after a part of it.
fn expect_refused_line(
    rt: &impl Abort,
    alloc: Global,
    line: &str,
    file: &[u8],
    part: u64,
    want: &str,
) -> Result<(), Fail> {
    let words = words_of(alloc, line)?;
    let mut files = MemFiles::new(alloc, Vec::new(alloc));
    files.add("g", file)?;
    let mut out = MemSink::new(alloc, Vec::new(alloc), 0);
    let mut err = MemSink::new(alloc, vec![in alloc; 1]?, part);
    let status = status_of(alloc, &words, &mut files, &mut out, &mut err);
    let shown = show(alloc, status, &out, &err)?;
    assert_eq!(rt; shown.as_str(), want, "{line}");
    Ok(())
}

#[test]
fn refused_lines_on_err(rt: HostRuntime) -> Result<(), Fail> {
    let alloc = rt.alloc();
    static TABLE: [(&str, &[u8], &str); 4] = [
        (
            "tree g6 g",
            b"DQc\n",
            "0|mdt tree\nt R(0,1,2,3,4;0-2,0-4,1-3,3-4)\nend\n|",
        ),
        ("tree g6 g", b"A`\n", "3||mdt: g"),
        ("tree g6 h", b"DQc\n", "4||mdt: r"),
        ("trees g6 g", b"DQc\n", "2||mdt: u"),
    ];
    for (line, file, want) in &TABLE {
        expect_refused_line(&rt, alloc, line, *file, 6, want)?;
    }
    expect_refused_line(&rt, alloc, "tree png x", b"", 4, "2||mdt:")
}

#[test]
fn graph_of_the_most_vertices(rt: HostRuntime) -> Result<(), Fail> {
    let alloc = rt.alloc();
    let mut file = Vec::new(alloc);
    file.extend_from_slice(b"~C??")?;
    file.resize(22_368_260, b'?')?;
    file.push(b'\n')?;
    expect_run(&rt, alloc, "edges g6 g", &file, b"", "0|p edge 16384 0\n|")
}
