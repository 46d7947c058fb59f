//! Worked runs over files and sinks in memory.
mod checks;
mod classes;
mod directed;
mod failing;
mod flushes;
mod refusing;
mod sizes;
mod sparse;

use md_io::{Files, MemFiles, MemSink, Sink};
use md_top::{Status, run};
use refusing::RefusingFiles;
use std::alloc::Global;
use std::process::{Abort, ExitCode};
use std::test::Fail;

// The graph of Mycielski on 11 vertices, which has no triangle and four colours at least.
const MYCIELSKI: &[u8] =
    b"c Mycielski\np edge 11 20\ne 1 2\ne 1 4\ne 1 7\ne 1 9\ne 2 3\ne 2 6\ne 2 8\ne 3 5\ne 3 7\ne 3 10\ne 4 5\ne 4 6\ne 4 10\ne 5 8\ne 5 9\ne 6 11\ne 7 11\ne 8 11\ne 9 11\ne 10 11\n";

// The words of a line, cut at spaces.
fn words_of(alloc: Global, line: &str) -> Result<Vec<String>, Fail> {
    let mut words = Vec::new(alloc);
    for word in line.split(' ') {
        if !word.is_empty() {
            words.push(String::from_str(alloc, word)?)?;
        }
    }
    Ok(words)
}

// The status of a run. What is promised of runs isn't asked for here, and stays out of the proofs
// of the tests.
fn status_of<F: Files, O: Sink, E: Sink>(
    alloc: Global,
    words: &[String],
    files: &mut F,
    out: &mut O,
    err: &mut E,
) -> Status {
    run(alloc, words, files, out, err)
}

// The number of a status, and what stands on `out` and on `err`.
fn show(alloc: Global, status: Status, out: &MemSink, err: &MemSink) -> Result<String, Fail> {
    let number = status.number();
    let mut shown = format!(in alloc; "{number}|")?;
    for byte in out.bytes() {
        shown.push(char::from(*byte))?;
    }
    shown.push('|')?;
    for byte in err.bytes() {
        shown.push(char::from(*byte))?;
    }
    Ok(shown)
}

// A run over the files `g` and `s`: its status, and what stands on `out` and on `err`. The put of
// this number fails on `out`, after a part of it, and the load of this number fails.
fn run_over(
    alloc: Global,
    line: &str,
    file: &[u8],
    script: &[u8],
    load: u64,
    put: u64,
    part: u64,
) -> Result<String, Fail> {
    let words = words_of(alloc, line)?;
    let mut files = MemFiles::new(alloc, vec![in alloc; load]?);
    files.add("g", file)?;
    files.add("s", script)?;
    let mut out = MemSink::new(alloc, vec![in alloc; put]?, part);
    let mut err = MemSink::new(alloc, Vec::new(alloc), 0);
    let status = status_of(alloc, &words, &mut files, &mut out, &mut err);
    show(alloc, status, &out, &err)
}

// Sees that a run over the files `g` and `s` ends as it is to be.
fn expect_run(
    rt: &impl Abort,
    alloc: Global,
    line: &str,
    file: &[u8],
    script: &[u8],
    want: &str,
) -> Result<(), Fail> {
    let shown = run_over(alloc, line, file, script, 0, 0, 0)?;
    assert_eq!(rt; shown.as_str(), want, "{line}");
    Ok(())
}

// Sees that each run over the file `g` of its bytes ends as it is to be.
fn expect(rt: &impl Abort, alloc: Global, table: &[(&str, &[u8], &str)]) -> Result<(), Fail> {
    for (line, file, want) in table {
        expect_run(rt, alloc, line, *file, b"", want)?;
    }
    Ok(())
}

// The same of runs over the files `g` and `s`.
fn expect_each(
    rt: &impl Abort,
    alloc: Global,
    table: &[(&str, &[u8], &[u8], &str)],
) -> Result<(), Fail> {
    for (line, file, script, want) in table {
        expect_run(rt, alloc, line, *file, *script, want)?;
    }
    Ok(())
}

// Sees that a run ends as it is to be whose load and put of these numbers fail, the put after a
// part of it.
fn expect_fault(
    rt: &impl Abort,
    alloc: Global,
    line: &str,
    file: &[u8],
    script: &[u8],
    faults: (u64, u64, u64),
    want: &str,
) -> Result<(), Fail> {
    let (load, put, part) = faults;
    let shown = run_over(alloc, line, file, script, load, put, part)?;
    assert_eq!(rt; shown.as_str(), want, "{line}, put {put}");
    Ok(())
}

#[test]
fn runs(rt: HostRuntime) -> Result<(), Fail> {
    let alloc = rt.alloc();
    static TABLE: [(&str, &[u8], &str); 21] = [
        (
            "edges g6 g",
            b"DQc\n",
            "0|p edge 5 4\ne 1 3\ne 1 5\ne 2 4\ne 4 5\n|",
        ),
        ("edges g6 g", b"?\n", "0|p edge 0 0\n|"),
        ("edges g6 g", b"", "0||"),
        (
            "edges g6 g",
            b"@\nA?\nA_\n\nBw\r\nBg",
            "0|p edge 1 0\np edge 2 0\np edge 2 1\ne 1 2\np edge 3 3\ne 1 2\ne 1 3\ne 2 3\np edge 3 2\ne 1 2\ne 2 3\n|",
        ),
        (
            "edges g6 g",
            b"DhO\n",
            "0|p edge 5 4\ne 1 2\ne 2 3\ne 2 5\ne 3 4\n|",
        ),
        (
            "edges g6 g",
            b">>graph6<<Ch\n",
            "0|p edge 4 3\ne 1 2\ne 2 3\ne 3 4\n|",
        ),
        ("edges g6 g", b">>graph6<<", "0||"),
        ("edges g6 g", b"DQ\n", "3||mdt: graph Truncated line 1\n"),
        (
            "edges g6 g",
            b"DhO\nDQ\n",
            "3||mdt: graph Truncated line 2\n",
        ),
        ("edges g6 g", b"B!\n", "3||mdt: graph BadByte line 1\n"),
        ("edges g6 g", b"@\nB!\n", "3||mdt: graph BadByte line 2\n"),
        (
            "edges g6 g",
            b"A__\n",
            "3||mdt: graph TrailingBytes line 1\n",
        ),
        ("edges g6 g", b"A`\n", "3||mdt: graph BadPadding line 1\n"),
        ("edges g6 g", b"~?\n", "3||mdt: graph Truncated line 1\n"),
        ("edges g6 g", b"~??}\n", "3||mdt: graph BadSize line 1\n"),
        (
            "edges g6 g",
            b"~C?@\n",
            "3||mdt: graph TooManyVertices line 1\n",
        ),
        (
            "edges g6 g",
            b"~~??????\n",
            "3||mdt: graph BadSize line 1\n",
        ),
        (
            "edges g6 g",
            b"~~~~~~~~\n",
            "3||mdt: graph TooManyVertices line 1\n",
        ),
        ("edges g6 g", b"~~?\n", "3||mdt: graph Truncated line 1\n"),
        (
            "edges g6 g",
            b">>graph6<\n",
            "3||mdt: graph BadByte line 1\n",
        ),
        (
            "edges g6 g",
            b"&DI?AO?\n",
            "3||mdt: graph OtherFormat line 1\n",
        ),
    ];
    expect(&rt, alloc, &TABLE)
}

#[test]
fn runs_over_other_words(rt: HostRuntime) -> Result<(), Fail> {
    let alloc = rt.alloc();
    static TABLE: [(&str, &[u8], &str); 23] = [
        (
            "edges dimacs g",
            b"c queen part\np col 3 4\ne 1 2\ne 2 1\ne 2 3\ne 3 2\n",
            "0|p edge 3 2\ne 1 2\ne 2 3\n|",
        ),
        (
            "edges dimacs g",
            b"p edge 3 999999999999999999\n",
            "0|p edge 3 0\n|",
        ),
        (
            "edges dimacs g",
            b"p edge 2 1\ne 1 3\n",
            "3||mdt: graph VertexOutOfRange line 2\n",
        ),
        (
            "edges dimacs g",
            b"p edge 2 1\ne 2 2\n",
            "3||mdt: graph Loop line 2\n",
        ),
        (
            "edges dimacs g",
            b"p edge 2 1\ne 1 2 5\n",
            "3||mdt: graph FieldCount line 2\n",
        ),
        (
            "edges dimacs g",
            b"p edge 1 1234567890123456789\n",
            "3||mdt: graph BadNumber line 1\n",
        ),
        (
            "edges dimacs g",
            b"",
            "3||mdt: graph NoProblemLine line 1\n",
        ),
        (
            "edges dimacs g",
            b"p edge 1 0\np edge 1 0\n",
            "3||mdt: graph SecondProblemLine line 2\n",
        ),
        (
            "edges dimacs g",
            b"e 1 2\n",
            "3||mdt: graph EdgeBeforeProblem line 1\n",
        ),
        (
            "edges dimacs g",
            b"q\n",
            "3||mdt: graph UnknownLine line 1\n",
        ),
        (
            "edges dimacs g",
            b"p edge 16384 0\n",
            "3||mdt: graph TooManyVertices line 1\n",
        ),
        ("graph6 dimacs g", b"p edge 3 2\ne 1 2\ne 2 3\n", "0|Bg\n|"),
        ("graph6 dimacs g", b"p edge 0 0\n", "0|?\n|"),
        ("graph6 g6 g", b"DQc\r\n\n@", "0|DQc\n@\n|"),
        ("edges g6 h", b"DQc\n", "4||mdt: read fault\n"),
        ("", b"DQc\n", "2||mdt: usage\n"),
        ("edges", b"DQc\n", "2||mdt: usage\n"),
        ("edges g6", b"DQc\n", "2||mdt: usage\n"),
        ("edges png g", b"DQc\n", "2||mdt: usage\n"),
        ("edge g6 g", b"DQc\n", "2||mdt: usage\n"),
        ("edges g6 g g", b"DQc\n", "2||mdt: usage\n"),
        (
            "edges dimacs g",
            b"DQc\n",
            "3||mdt: graph UnknownLine line 1\n",
        ),
        (
            "graph6 g6 g",
            b"p edge 1 0\n",
            "3||mdt: graph BadByte line 1\n",
        ),
    ];
    expect(&rt, alloc, &TABLE)
}

// Sees that each of the commands finds too many vertices in the file.
fn expect_too_many(
    rt: &impl Abort,
    alloc: Global,
    commands: &[&str],
    file: &[u8],
) -> Result<(), Fail> {
    let want = "3||mdt: graph TooManyVertices line 1\n";
    for command in commands {
        expect_run(rt, alloc, command, file, b"", want)?;
    }
    Ok(())
}

#[test]
fn limits_of_names(rt: HostRuntime) -> Result<(), Fail> {
    let alloc = rt.alloc();
    static TABLE: [(&str, &[u8], &str); 7] = [
        ("edges g6 g", b"~@?@\n", "3||mdt: graph Truncated line 1\n"),
        ("tree g6 g", b"~@?@\n", "3||mdt: graph Truncated line 1\n"),
        (
            "check tree g6 g s",
            b"~@?@\n",
            "3||mdt: graph Truncated line 1\n",
        ),
        (
            "compare g6 g",
            b"~@??\n",
            "3||mdt: graph Truncated line 1\n",
        ),
        ("edges dimacs g", b"p edge 4096 0\n", "0|p edge 4096 0\n|"),
        ("edges dimacs g", b"p edge 16383 0\n", "0|p edge 16383 0\n|"),
        (
            "check tree dimacs g s",
            b"p edge 4096 0\n",
            "1|rejected line 1\n|",
        ),
    ];
    expect(&rt, alloc, &TABLE)?;
    let all = [
        "graph6 g6 g",
        "tree g6 g",
        "check tree g6 g s",
        "edit g6 g s",
    ];
    expect_too_many(&rt, alloc, &all, b"~C?@\n")?;
    let oriented = [
        "compare g6 g",
        "shortest g6 g",
        "permute g6 g",
        "check compare g6 g s",
        "check shortest g6 g s",
        "check permute g6 g s",
    ];
    expect_too_many(&rt, alloc, &oriented, b"~@?@\n")?;
    let oriented = [
        "compare dimacs g",
        "shortest dimacs g",
        "permute dimacs g",
        "check compare dimacs g s",
        "check shortest dimacs g s",
        "check permute dimacs g s",
    ];
    expect_too_many(&rt, alloc, &oriented, b"p edge 4096 0\n")
}

#[test]
fn trees(rt: HostRuntime) -> Result<(), Fail> {
    let alloc = rt.alloc();
    static TABLE: [(&str, &[u8], &str); 15] = [
        (
            "tree g6 g",
            b"DQc\n",
            "0|mdt tree\nt R(0,1,2,3,4;0-2,0-4,1-3,3-4)\nend\n|",
        ),
        ("tree g6 g", b"?\n", "0|mdt tree\nt empty\nend\n|"),
        ("tree g6 g", b"", "0|mdt tree\nend\n|"),
        (
            "tree g6 g",
            b"@\nA?\nA_\n\nBw\r\nBg",
            "0|mdt tree\nt 0\nt P(0,1)\nt S(0,1)\nt S(0,1,2)\nt S(P(0,2),1)\nend\n|",
        ),
        (
            "tree g6 g",
            b"DhO\n",
            "0|mdt tree\nt R(P(0,4),1,2,3;0-1,1-2,2-3)\nend\n|",
        ),
        ("tree g6 g", b"A`\n", "3||mdt: graph BadPadding line 1\n"),
        (
            "tree g6 g",
            b"DhO\nDQ\n",
            "3||mdt: graph Truncated line 2\n",
        ),
        (
            "tree g6 g",
            b">>graph6<<Ch\n",
            "0|mdt tree\nt R(0,1,2,3;0-1,1-2,2-3)\nend\n|",
        ),
        (
            "tree dimacs g",
            b"c queen part\np col 3 4\ne 1 2\ne 2 1\ne 2 3\ne 3 2\n",
            "0|mdt tree\nt S(P(1,3),2)\nend\n|",
        ),
        (
            "tree dimacs g",
            b"p edge 2 1\ne 1 3\n",
            "3||mdt: graph VertexOutOfRange line 2\n",
        ),
        (
            "tree dimacs g",
            b"p edge 2 1\ne 2 2\n",
            "3||mdt: graph Loop line 2\n",
        ),
        (
            "tree dimacs g",
            MYCIELSKI,
            "0|mdt tree\nt R(1,2,3,4,5,6,7,8,9,10,11;0-1,0-3,0-6,0-8,1-2,1-5,1-7,2-4,2-6,2-9,3-4,3-5,3-9,4-7,4-8,5-10,6-10,7-10,8-10,9-10)\nend\n|",
        ),
        ("tree g6 h", b"DQc\n", "4||mdt: read fault\n"),
        ("tree png x", b"DQc\n", "2||mdt: usage\n"),
        ("trees g6 g", b"DQc\n", "2||mdt: usage\n"),
    ];
    expect(&rt, alloc, &TABLE)
}

#[test]
fn orientations(rt: HostRuntime) -> Result<(), Fail> {
    let alloc = rt.alloc();
    static TABLE: [(&str, &[u8], &str); 7] = [
        (
            "compare g6 g",
            b"Dhc\n",
            "0|mdt compare\nno 0>1 0>4 3>4 3>2 1>2 1>0\nend\n|",
        ),
        (
            "shortest g6 g",
            b"Bw\nDhc\n",
            "0|mdt compare\nyes 0>1 0>2 1>2\nno 0>1 0>4 3>4 3>2 1>2 1>0\nend\n|",
        ),
        ("shortest g6 g s", b"Dhc\n", "2||mdt: usage\n"),
        (
            "compare g6 g",
            b"Ch\nBw\n?\n",
            "0|mdt compare\nyes 0>1 2>1 2>3\nyes 0>1 0>2 1>2\nyes\nend\n|",
        ),
        ("compare g6 g", b"", "0|mdt compare\nend\n|"),
        (
            "compare dimacs g",
            b"p edge 3 2\ne 1 2\ne 2 3\n",
            "0|mdt compare\nyes 1>2 3>2\nend\n|",
        ),
        ("compare g6 g s", b"Dhc\n", "2||mdt: usage\n"),
    ];
    expect(&rt, alloc, &TABLE)
}

#[test]
fn models(rt: HostRuntime) -> Result<(), Fail> {
    let alloc = rt.alloc();
    static TABLE: [(&str, &[u8], &str); 5] = [
        (
            "permute g6 g",
            b"Ch\nEhEG\nDhc\n?\nA?\n",
            "0|mdt permute\nyes 0 2 1 3 / 1 0 3 2\nno c 0>2 0>3 0>4 1>4 1>5 2>5 2>0\nno g 0>1 0>4 3>4 3>2 1>2 1>0\nyes /\nyes 0 1 / 0 1\nend\n|",
        ),
        (
            "permute g6 g",
            b"EUxo\n@\n",
            "0|mdt permute\nno g 0>2 0>3 0>4 1>4 1>5 2>5 2>0\nyes 0 / 0\nend\n|",
        ),
        ("permute g6 g", b"", "0|mdt permute\nend\n|"),
        (
            "permute dimacs g",
            b"p edge 3 2\ne 1 2\ne 2 3\n",
            "0|mdt permute\nyes 1 3 2 / 2 1 3\nend\n|",
        ),
        ("permute g6 g s", b"Dhc\n", "2||mdt: usage\n"),
    ];
    expect(&rt, alloc, &TABLE)
}

#[test]
fn sessions_of_a_size(rt: HostRuntime) -> Result<(), Fail> {
    let alloc = rt.alloc();
    static TABLE: [(&str, &[u8], &str); 15] = [
        (
            "big 1",
            b"",
            "0|inserted 1 refused 0 nodes 1 left 0 nodes 0\n|",
        ),
        (
            "big 2",
            b"",
            "0|inserted 2 refused 0 nodes 3 left 1 nodes 1\n|",
        ),
        (
            "big 4",
            b"",
            "0|inserted 4 refused 1 nodes 7 left 2 nodes 3\n|",
        ),
        (
            "big 5",
            b"",
            "0|inserted 5 refused 1 nodes 9 left 2 nodes 3\n|",
        ),
        (
            "big 0005",
            b"",
            "0|inserted 5 refused 1 nodes 9 left 2 nodes 3\n|",
        ),
        (
            "big 000000000000000005",
            b"",
            "0|inserted 5 refused 1 nodes 9 left 2 nodes 3\n|",
        ),
        (
            "big 1000",
            b"",
            "0|inserted 1000 refused 499 nodes 1999 left 500 nodes 501\n|",
        ),
        ("big 0", b"", "2||mdt: usage\n"),
        ("big 4097", b"", "2||mdt: usage\n"),
        ("big 16384", b"", "2||mdt: usage\n"),
        ("big x", b"", "2||mdt: usage\n"),
        ("big", b"", "2||mdt: usage\n"),
        ("big 0000000000000000005", b"", "2||mdt: usage\n"),
        ("big 5 g", b"", "2||mdt: usage\n"),
        ("bigger 5", b"", "2||mdt: usage\n"),
    ];
    expect(&rt, alloc, &TABLE)
}

#[test]
fn loads_that_fail(rt: HostRuntime) -> Result<(), Fail> {
    let want = "4||mdt: read fault\n";
    expect_fault(
        &rt,
        rt.alloc(),
        "edges g6 g",
        b"DQc\n",
        b"",
        (1, 0, 0),
        want,
    )?;
    expect_fault(&rt, rt.alloc(), "tree g6 g", b"DQc\n", b"", (1, 0, 0), want)
}

static TREE_PUTS: [(u64, u64, &str); 3] = [
    (1, 0, "5||mdt: write fault\n"),
    (2, 3, "5|mdt tree\nt R|mdt: write fault\n"),
    (
        3,
        10,
        "5|mdt tree\nt R(0,1,2,3,4;0-2,0-4,1-3,3-4)\nend\n|mdt: write fault\n",
    ),
];

static EDGE_PUTS: [(u64, u64, &str); 5] = [
    (1, 0, "5||mdt: write fault\n"),
    (1, 4, "5|p ed|mdt: write fault\n"),
    (2, 0, "5|p edge 1 0\n|mdt: write fault\n"),
    (2, 9, "5|p edge 1 0\np edge 2 |mdt: write fault\n"),
    (3, 9, "0|p edge 1 0\np edge 2 0\n|"),
];

#[test]
fn puts_that_fail(rt: HostRuntime) -> Result<(), Fail> {
    for (put, part, want) in &TREE_PUTS {
        let faults = (0, *put, *part);
        expect_fault(&rt, rt.alloc(), "tree g6 g", b"DQc\n", b"", faults, want)?;
    }
    for (put, part, want) in &EDGE_PUTS {
        let faults = (0, *put, *part);
        expect_fault(&rt, rt.alloc(), "edges g6 g", b"@\nA?\n", b"", faults, want)?;
    }
    Ok(())
}

#[test]
fn runs_over_a_size_in_four_bytes(rt: HostRuntime) -> Result<(), Fail> {
    let alloc = rt.alloc();
    let mut file = Vec::new(alloc);
    file.extend_from_slice(b"~??~")?;
    file.resize(330, b'?')?;
    file.push(b'\n')?;
    expect_run(&rt, alloc, "edges g6 g", &file, b"", "0|p edge 63 0\n|")
}

// Sees that a run over files that refuse each load ends as it is to be.
fn expect_refusal(
    rt: &impl Abort,
    alloc: Global,
    line: &str,
    too_long: bool,
    code: u8,
    want: &str,
) -> Result<(), Fail> {
    let words = words_of(alloc, line)?;
    let mut files = RefusingFiles::new(alloc, too_long);
    let mut out = MemSink::new(alloc, Vec::new(alloc), 0);
    let mut err = MemSink::new(alloc, Vec::new(alloc), 0);
    let status = status_of(alloc, &words, &mut files, &mut out, &mut err);
    let shown = show(alloc, status, &out, &err)?;
    assert_eq!(rt; shown.as_str(), want, "{line}");
    assert!(rt; status.exit_code() == ExitCode::from(code), "{line}");
    Ok(())
}

static REFUSALS: [(&str, bool, u8, &str); 4] = [
    ("tree g6 g", false, 6, "6||mdt: memory\n"),
    ("tree g6 g", true, 7, "7||mdt: too long\n"),
    ("edit dimacs g s", true, 7, "7||mdt: too long\n"),
    ("check tree g6 g r", true, 7, "7||mdt: too long\n"),
];

#[test]
fn runs_over_files_that_refuse(rt: HostRuntime) -> Result<(), Fail> {
    for (line, too_long, code, want) in &REFUSALS {
        expect_refusal(&rt, rt.alloc(), line, *too_long, *code, want)?;
    }
    Ok(())
}

#[test]
fn sessions_on_cographs(rt: HostRuntime) -> Result<(), Fail> {
    let alloc = rt.alloc();
    static TABLE: [(&str, &[u8], &[u8], &str); 13] = [
        (
            "cograph g6 g s",
            b"Cg\n",
            b"+e 2 3\n+e 1 3\n",
            "0|mdt cograph\nt P(S(P(0,2),1),3)\nno p4 0 1 2 3\nok S(P(0,2,3),1)\nend\n|",
        ),
        (
            "cograph g6 g s",
            b"Bg\n",
            b"+v 3 2\n+v 3 2 0 2\n-e 0 3\n",
            "0|mdt cograph\nt S(P(0,2),1)\nno p4 0 1 2 3\nok S(P(0,2),P(1,3))\nno p4 0 1 2 3\nend\n|",
        ),
        (
            "cograph g6 g s",
            b"@\n",
            b"# all goes\n-v 0\n+v 0\n+v 1 1\n",
            "0|mdt cograph\nt 0\nok empty\nok 0\nno vertex 1\nend\n|",
        ),
        (
            "cograph g6 g s",
            b"Ch\n",
            b"",
            "0|mdt cograph\np4 0 1 2 3\nend\n|",
        ),
        (
            "cograph g6 g s",
            b"Ch\n",
            b"-v 0\n",
            "0|mdt cograph\np4 0 1 2 3\nend\n|",
        ),
        (
            "cograph dimacs g s",
            b"p edge 4 3\ne 1 2\ne 2 3\ne 1 3\n",
            b"+e 3 4\n+e 2 4\n-e 1 2\n-v 3\n",
            "0|mdt cograph\nt P(S(1,2,3),4)\nok S(P(S(1,2),4),3)\nok S(P(1,4),2,3)\nok S(P(1,S(2,4)),3)\nok P(1,S(2,4))\nend\n|",
        ),
        (
            "cograph g6 g s",
            b"Ch\n",
            b"*e 0 1\n",
            "3||mdt: script UnknownEdit line 1\n",
        ),
        (
            "cograph g6 g s",
            b"Cg\n",
            b"begin\n+e 0 2\n-e 0 2\n+e 2 3\ncommit\nbegin\n+e 1 3\n+e 2 2\ncommit\nbegin\ncommit\n",
            "0|mdt cograph\nt P(S(P(0,2),1),3)\nno edit 3 p4 0 1 2 3\nno edit 2 same\nok P(S(P(0,2),1),3)\nend\n|",
        ),
        (
            "cograph g6 g s",
            b"Cg\n",
            b"begin\n+e 2 3\n+e 1 3\ncommit\nundo\n",
            "0|mdt cograph\nt P(S(P(0,2),1),3)\nno edit 1 p4 0 1 2 3\nno undo\nend\n|",
        ),
        (
            "cograph g6 g s",
            b"Ch\n",
            b"undo\n",
            "0|mdt cograph\np4 0 1 2 3\nend\n|",
        ),
        (
            "cograph g6 g s",
            b"@\n",
            b"commit\n",
            "3||mdt: script NoGroup line 1\n",
        ),
        (
            "cograph g6 g s",
            b"@\n",
            b"undo 1\n",
            "3||mdt: script FieldCount line 1\n",
        ),
        ("cograph g6 g", b"@\n", b"", "2||mdt: usage\n"),
    ];
    expect_each(&rt, alloc, &TABLE)
}

#[test]
fn quiet_sessions(rt: HostRuntime) -> Result<(), Fail> {
    let alloc = rt.alloc();
    static TABLE: [(&str, &[u8], &[u8], &str); 8] = [
        (
            "quiet g6 g s",
            b"Cg\n",
            b"+e 2 3\n+e 1 3\n",
            "0|mdt quiet\nno p4 0 1 2 3\nok\nt S(P(0,2,3),1)\nend\n|",
        ),
        (
            "quiet g6 g s",
            b"Cg\n",
            b"",
            "0|mdt quiet\nt P(S(P(0,2),1),3)\nend\n|",
        ),
        (
            "quiet g6 g s",
            b"Ch\n",
            b"-v 0\n",
            "0|mdt quiet\np4 0 1 2 3\nend\n|",
        ),
        (
            "quiet g6 g s",
            b"@\n",
            b"-v 0\n-v 0\n",
            "0|mdt quiet\nok\nno vertex 0\nt empty\nend\n|",
        ),
        (
            "quiet g6 g s",
            b"Ch\n",
            b"*e 0 1\n",
            "3||mdt: script UnknownEdit line 1\n",
        ),
        (
            "quiet g6 g s",
            b"Bg\n",
            b"+e 0 2\nundo\nundo\n",
            "0|mdt quiet\nok\nok\nno undo\nt S(P(0,2),1)\nend\n|",
        ),
        (
            "quiet g6 g s",
            b"@\n",
            b"begin\nundo\n",
            "3||mdt: script Nested line 2\n",
        ),
        ("quiet g6 g", b"@\n", b"", "2||mdt: usage\n"),
    ];
    expect_each(&rt, alloc, &TABLE)
}

#[test]
fn sessions(rt: HostRuntime) -> Result<(), Fail> {
    let alloc = rt.alloc();
    static TABLE: [(&str, &[u8], &[u8], &str); 21] = [
        (
            "edit dimacs g s",
            b"p edge 3 2\ne 1 2\ne 2 3\n",
            b"+e 1 3\n+e 1 3\n-v 9\n",
            "0|mdt edit\nt S(P(1,3),2)\nok S(1,2,3)\nno edge-there\nno vertex 9\nend\n|",
        ),
        (
            "edit g6 g s",
            b"@\n",
            b"# all goes\n-v 0\n+v 0\n+v 1 1\n",
            "0|mdt edit\nt 0\nok empty\nok 0\nno vertex 1\nend\n|",
        ),
        (
            "edit g6 g s",
            b"Bg\n",
            b"+e 7 7\n+v 0 9\n+v 0\n-e 0 2\n+e 0 1\n",
            "0|mdt edit\nt S(P(0,2),1)\nno same\nno vertex 9\nno taken 0\nno edge-absent\nno edge-there\nend\n|",
        ),
        (
            "edit g6 g s",
            b"DhO\n",
            b"+e 0 4\n-v 3\n+v 3 0 1 2 4\n",
            "0|mdt edit\nt R(P(0,4),1,2,3;0-1,1-2,2-3)\nok R(S(0,4),1,2,3;0-1,1-2,2-3)\nok S(P(S(0,4),2),1)\nok S(P(S(0,4),2),1,3)\nend\n|",
        ),
        (
            "edit g6 g s",
            b"Bg\n",
            b"begin\n+e 0 2\n-v 1\ncommit\nundo\nundo\n",
            "0|mdt edit\nt S(P(0,2),1)\nok S(0,2)\nok S(P(0,2),1)\nno undo\nend\n|",
        ),
        (
            "edit g6 g s",
            b"Bg\n",
            b"+e 0 2\nbegin\n-e 0 2\n-e 0 2\ncommit\nundo\nundo\n",
            "0|mdt edit\nt S(P(0,2),1)\nok S(0,1,2)\nno edit 2 edge-absent\nok S(P(0,2),1)\nno undo\nend\n|",
        ),
        (
            "edit g6 g s",
            b"Cg\n",
            b"begin\n+e 2 3\n+e 1 3\ncommit\nbegin\n-v 1\n+v 1 0\ncommit\nundo\n",
            "0|mdt edit\nt P(S(P(0,2),1),3)\nok S(P(0,S(2,3)),1)\nok P(S(0,1),S(2,3))\nok S(P(0,S(2,3)),1)\nend\n|",
        ),
        (
            "edit g6 g s",
            b"@\n",
            b"begin\n# x\n\n+v 1\r\ncommit\r\n",
            "0|mdt edit\nt 0\nok P(0,1)\nend\n|",
        ),
        (
            "edit g6 g s",
            b"@\n",
            b"begin\n+e 0 1\n",
            "3||mdt: script OpenGroup line 3\n",
        ),
        (
            "edit g6 g s",
            b"@\n@\n",
            b"",
            "3||mdt: graph NotOneGraph count 2\n",
        ),
        (
            "edit g6 g s",
            b"",
            b"",
            "3||mdt: graph NotOneGraph count 0\n",
        ),
        (
            "edit g6 g s",
            b"@\n",
            b"\n*e 0 1\n",
            "3||mdt: script UnknownEdit line 2\n",
        ),
        (
            "edit g6 g s",
            b"@\n",
            b"+e 0\n",
            "3||mdt: script FieldCount line 1\n",
        ),
        (
            "edit g6 g s",
            b"@\n",
            b"+v a\n",
            "3||mdt: script BadNumber line 1\n",
        ),
        (
            "edit g6 g s",
            b"@\n",
            b"-v 16384\n",
            "3||mdt: script NameTooLarge line 1\n",
        ),
        (
            "edit g6 g s",
            b"@\n",
            b"-v 4096\n",
            "0|mdt edit\nt 0\nno vertex 4096\nend\n|",
        ),
        (
            "edit g6 g s",
            b"A`\n",
            b"*",
            "3||mdt: graph BadPadding line 1\n",
        ),
        (
            "edit dimacs g s",
            b"q\n",
            b"",
            "3||mdt: graph UnknownLine line 1\n",
        ),
        ("edit g6 g t", b"@\n", b"", "4||mdt: read fault\n"),
        ("edit g6 g", b"@\n", b"", "2||mdt: usage\n"),
        ("tree g6 g s", b"@\n", b"", "2||mdt: usage\n"),
    ];
    expect_each(&rt, alloc, &TABLE)
}

#[test]
fn sessions_that_fail(rt: HostRuntime) -> Result<(), Fail> {
    let line = "edit g6 g s";
    let want = "4||mdt: read fault\n";
    expect_fault(&rt, rt.alloc(), line, b"@\n", b"-v 0\n", (2, 0, 0), want)?;
    let want = "5|mdt edit\nt 0\nok|mdt: write fault\n";
    expect_fault(&rt, rt.alloc(), line, b"@\n", b"-v 0\n", (0, 3, 2), want)
}
