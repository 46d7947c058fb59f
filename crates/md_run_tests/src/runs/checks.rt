//! Checks of reports.
use super::{show, status_of, words_of};
use md_io::{MemFiles, MemSink};
use std::alloc::Global;
use std::process::Abort;
use std::test::Fail;

// A run over the files `g`, `s` and `r`: its status, and what stands on `out` and on `err`.
pub(super) fn check_over(
    alloc: Global,
    line: &str,
    file: &[u8],
    script: &[u8],
    report: &[u8],
) -> Result<String, Fail> {
    let words = words_of(alloc, line)?;
    let mut files = MemFiles::new(alloc, Vec::new(alloc));
    files.add("g", file)?;
    files.add("s", script)?;
    files.add("r", report)?;
    let mut out = MemSink::new(alloc, Vec::new(alloc), 0);
    let mut err = MemSink::new(alloc, Vec::new(alloc), 0);
    let status = status_of(alloc, &words, &mut files, &mut out, &mut err);
    show(alloc, status, &out, &err)
}

// Sees that a check of the report `r` over the files `g` and `s` ends as it is to be.
pub(super) fn expect_check(
    rt: &impl Abort,
    alloc: Global,
    line: &str,
    file: &[u8],
    script: &[u8],
    report: &[u8],
    want: &str,
) -> Result<(), Fail> {
    let shown = check_over(alloc, line, file, script, report)?;
    assert_eq!(rt; shown.as_str(), want, "{line}");
    Ok(())
}

// Sees that each check of the report `r` over the file `g` ends as it is to be.
pub(super) fn expect_checks(
    rt: &impl Abort,
    alloc: Global,
    table: &[(&str, &[u8], &[u8], &str)],
) -> Result<(), Fail> {
    for (line, file, report, want) in table {
        expect_check(rt, alloc, line, *file, b"*", *report, want)?;
    }
    Ok(())
}

#[test]
fn checks_of_trees(rt: HostRuntime) -> Result<(), Fail> {
    let alloc = rt.alloc();
    static TABLE: [(&str, &[u8], &[u8], &str); 15] = [
        (
            "check tree g6 g r",
            b"DhO\n",
            b"mdt tree\nt R(P(0,4),1,2,3;0-1,1-2,2-3)\nend\n",
            "0|accepted\n|",
        ),
        (
            "check tree g6 g r",
            b"DhO\n@\n",
            b"mdt tree\nt R(P(0,4),1,2,3;0-1,1-2,2-3)\nt 0\nend\n",
            "0|accepted\n|",
        ),
        // The two vertices of a module stand as children of the prime node.
        (
            "check tree g6 g r",
            b"DhO\n",
            b"mdt tree\nt R(0,4,1,2,3;0-1,1-2,2-3)\nend\n",
            "1|rejected line 2\n|",
        ),
        (
            "check tree g6 g r",
            b"DhO\n",
            b"mdt tree\nt R(0,1,2,3,4;0-1,1-2,1-4,2-3)\nend\n",
            "1|rejected line 2\n|",
        ),
        (
            "check tree g6 g r",
            b"DhO\n",
            b"mdt tree\nt R(P(0,4),1,2,3;0-1,1-2,2-3)\n",
            "1|rejected line 3\n|",
        ),
        (
            "check tree g6 g r",
            b"DhO\n",
            b"mdt tree\nt R(P(0,4),1,2,3;0-1,1-2,2-3)\nend\nend\n",
            "1|rejected line 4\n|",
        ),
        (
            "check tree g6 g r",
            b"Bw\n",
            b"mdt tree\nt S(0,1,2)\nend",
            "1|rejected line 3\n|",
        ),
        ("check tree g6 g r", b"DhO\n", b"", "1|rejected line 1\n|"),
        (
            "check tree g6 g r",
            b"",
            b"mdt tree\nend\n",
            "0|accepted\n|",
        ),
        (
            "check tree g6 g r",
            b"A`\n",
            b"",
            "3||mdt: graph BadPadding line 1\n",
        ),
        (
            "check tree dimacs g r",
            b"p edge 2 1\ne 1 2\n",
            b"mdt tree\nt S(1,2)\nend\n",
            "0|accepted\n|",
        ),
        ("check tree g6 g t", b"@\n", b"", "4||mdt: read fault\n"),
        ("check edit g6 g r", b"@\n", b"", "2||mdt: usage\n"),
        ("check edges g6 g r", b"@\n", b"", "2||mdt: usage\n"),
        ("check g6 g r", b"@\n", b"", "2||mdt: usage\n"),
    ];
    expect_checks(&rt, alloc, &TABLE)
}

#[test]
fn checks_of_orientations(rt: HostRuntime) -> Result<(), Fail> {
    let alloc = rt.alloc();
    static TABLE: [(&str, &[u8], &[u8], &str); 14] = [
        // A cycle of five with a twin of one vertex: a chain of six arcs, and one of seven.
        (
            "check shortest g6 g r",
            b"Ehe_\n",
            b"mdt compare\nno 0>1 2>1 2>3 4>3 4>0 1>0\nend\n",
            "0|accepted\n|",
        ),
        (
            "check compare g6 g r",
            b"Ehe_\n",
            b"mdt compare\nno 0>1 0>5 2>5 2>3 4>3 4>0 1>0\nend\n",
            "0|accepted\n|",
        ),
        (
            "check shortest g6 g r",
            b"Ehe_\n",
            b"mdt compare\nno 0>1 0>5 2>5 2>3 4>3 4>0 1>0\nend\n",
            "1|rejected line 2\n|",
        ),
        (
            "check shortest g6 g r",
            b"Bw\nCh\n",
            b"mdt compare\nyes 0>1 0>2 1>2\nno 0>1 1>0\nend\n",
            "1|rejected line 3\n|",
        ),
        ("check shortest g6 g s r", b"Bw\n", b"", "2||mdt: usage\n"),
        // Two chains of a cycle of five.
        (
            "check compare g6 g r",
            b"Dhc\n",
            b"mdt compare\nno 0>1 2>1 2>3 4>3 4>0 1>0\nend\n",
            "0|accepted\n|",
        ),
        (
            "check compare g6 g r",
            b"Dhc\nBw\n",
            b"mdt compare\nno 0>1 0>4 3>4 3>2 1>2 1>0\nyes 0>1 0>2 1>2\nend\n",
            "0|accepted\n|",
        ),
        // Two arcs that share neither their tail nor their head.
        (
            "check compare g6 g r",
            b"Dhc\n",
            b"mdt compare\nno 0>1 1>2 1>0\nend\n",
            "1|rejected line 2\n|",
        ),
        (
            "check compare g6 g r",
            b"Dhc\n",
            b"mdt compare\nno 1>2 1>0 4>0 4>3 2>3 2>1\nend\n",
            "1|rejected line 2\n|",
        ),
        // A cycle of arcs, and an orientation that isn't the least one.
        (
            "check compare g6 g r",
            b"Bw\n",
            b"mdt compare\nyes 0>1 1>2 2>0\nend\n",
            "1|rejected line 2\n|",
        ),
        (
            "check compare g6 g r",
            b"Bw\n",
            b"mdt compare\nyes 0>1 2>0 2>1\nend\n",
            "1|rejected line 2\n|",
        ),
        (
            "check permute g6 g r",
            b"Ch\nEhEG\nDhc\n?\nA?\n",
            b"mdt permute\nyes 0 2 1 3 / 1 0 3 2\nno c 0>2 0>3 0>4 1>4 2>4 2>5 2>0\nno g 0>1 2>1 2>3 4>3 4>0 1>0\nyes /\nyes 0 1 / 0 1\nend\n",
            "0|accepted\n|",
        ),
        (
            "check permute g6 g r",
            b"Ch\nEhEG\n",
            b"mdt permute\nyes 1 0 3 2 / 0 2 1 3\nno c 0>2 0>3 0>4 1>4 1>5 2>5 2>0\nend\n",
            "0|accepted\n|",
        ),
        (
            "check permute g6 g r",
            b"A?\n",
            b"mdt permute\nyes 0 1 / 1 0\nend\n",
            "1|rejected line 2\n|",
        ),
    ];
    expect_checks(&rt, alloc, &TABLE)
}

#[test]
fn checks_of_sessions(rt: HostRuntime) -> Result<(), Fail> {
    let alloc = rt.alloc();
    static TABLE: [(&str, &[u8], &[u8], &[u8], &str); 19] = [
        (
            "check edit dimacs g s r",
            b"p edge 3 2\ne 1 2\ne 2 3\n",
            b"+e 1 3\n+e 1 3\n-v 9\n",
            b"mdt edit\nt S(P(1,3),2)\nok S(1,2,3)\nno edge-there\nno vertex 9\nend\n",
            "0|accepted\n|",
        ),
        (
            "check edit g6 g s r",
            b"Bw\n",
            b"-e 0 1\n-e 0 2\n",
            b"mdt edit\nt S(0,1,2)\nok S(P(0,1),2)\nok S(P(0,1),2)\nend\n",
            "1|rejected line 4\n|",
        ),
        (
            "check cograph g6 g s r",
            b"Cg\n",
            b"+e 2 3\n+e 1 3\n",
            b"mdt cograph\nt P(S(P(0,2),1),3)\nno p4 0 1 2 3\nok S(P(0,2,3),1)\nend\n",
            "0|accepted\n|",
        ),
        (
            "check cograph g6 g s r",
            b"Cg\n",
            b"+e 2 3\n+e 1 3\n",
            b"mdt tree\nt P(S(P(0,2),1),3)\nno p4 0 1 2 3\nok S(P(0,2,3),1)\nend\n",
            "1|rejected line 1\n|",
        ),
        (
            "check cograph g6 g s r",
            b"Cg\n",
            b"+e 2 3\n+e 1 3\n",
            b"mdt cograph\nt P(S(0,1,2),3)\nno p4 0 1 2 3\nok S(P(0,2,3),1)\nend\n",
            "1|rejected line 2\n|",
        ),
        (
            "check cograph g6 g s r",
            b"Cg\n",
            b"+e 2 3\n+e 1 3\n",
            b"mdt cograph\nt P(S(P(0,2),1),3)\nno p4 3 2 1 0\nok S(P(0,2,3),1)\nend\n",
            "1|rejected line 3\n|",
        ),
        (
            "check cograph g6 g s r",
            b"Cg\n",
            b"+e 2 3\n+e 1 3\n",
            b"mdt cograph\nt P(S(P(0,2),1),3)\nno p4 0 1 2 3\nno edge-there\nend\n",
            "1|rejected line 4\n|",
        ),
        (
            "check cograph g6 g s r",
            b"Cg\n",
            b"+e 2 3\n+e 1 3\n",
            b"mdt cograph\nt P(S(P(0,2),1),3)\nno p4 0 1 2 3\nok S(P(0,2,3),1)\nend\r\n",
            "1|rejected line 5\n|",
        ),
        (
            "check cograph g6 g s r",
            b"Cg\n",
            b"+e 2 3\n+e 1 3\n",
            b"mdt cograph\nt P(S(P(0,2),1),3)\nno p4 0 1 2 3\nok S(P(0,2,3),1)\nend",
            "1|rejected line 5\n|",
        ),
        (
            "check cograph g6 g s r",
            b"Ch\n",
            b"-v 0\n",
            b"mdt cograph\np4 0 1 2 3\nend\n",
            "0|accepted\n|",
        ),
        (
            "check cograph g6 g s r",
            b"Ch\n",
            b"-v 0\n",
            b"mdt cograph\nt R(0,1,2,3;0-1,1-2,2-3)\nend\n",
            "1|rejected line 2\n|",
        ),
        (
            "check edit g6 g s r",
            b"Bg\n",
            b"begin\n+e 0 2\n-v 1\ncommit\nundo\nundo\n",
            b"mdt edit\nt S(P(0,2),1)\nok S(0,2)\nok S(P(0,2),1)\nno undo\nend\n",
            "0|accepted\n|",
        ),
        (
            "check edit g6 g s r",
            b"Bg\n",
            b"begin\n+e 0 2\n-v 1\ncommit\nundo\nundo\n",
            b"mdt edit\nt S(P(0,2),1)\nok S(0,2)\nok S(P(0,2),1)\nok S(P(0,2),1)\nend\n",
            "1|rejected line 5\n|",
        ),
        (
            "check cograph g6 g s r",
            b"Cg\n",
            b"begin\n+e 0 2\n-e 0 2\n+e 2 3\ncommit\nbegin\n+e 1 3\n+e 2 2\ncommit\nbegin\ncommit\n",
            b"mdt cograph\nt P(S(P(0,2),1),3)\nno edit 3 p4 0 1 2 3\nno edit 2 same\nok P(S(P(0,2),1),3)\nend\n",
            "0|accepted\n|",
        ),
        (
            "check quiet g6 g s r",
            b"Bg\n",
            b"+e 0 2\nundo\nundo\n",
            b"mdt quiet\nok\nok\nno undo\nt S(P(0,2),1)\nend\n",
            "0|accepted\n|",
        ),
        (
            "check edit g6 g s r",
            b"@\n@\n",
            b"*",
            b"",
            "3||mdt: graph NotOneGraph count 2\n",
        ),
        (
            "check edit g6 g s r",
            b"@\n",
            b"*",
            b"",
            "3||mdt: script UnknownEdit line 1\n",
        ),
        ("check tree g6 g s r", b"@\n", b"", b"", "2||mdt: usage\n"),
        ("checks edit g6 g s r", b"@\n", b"", b"", "2||mdt: usage\n"),
    ];
    for (line, file, script, report, want) in &TABLE {
        expect_check(&rt, alloc, line, *file, *script, *report, want)?;
    }
    Ok(())
}
