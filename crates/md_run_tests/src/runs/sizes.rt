//! Runs over graphs of the sizes at which the rows of a graph take more words.
use super::checks::expect_check;
use super::*;

// The text of a number of items, each behind a mark but the first.
pub(super) fn names(alloc: Global, from: u32, below: u32) -> Result<String, Fail> {
    let mut text = String::new(alloc);
    for v in from..below {
        let item = format!(in alloc; ",{v}")?;
        text.push_str(item.as_str())?;
    }
    Ok(text)
}

// Appends the size of a graph6 line.
fn push_size(line: &mut Vec<u8>, n: u32) -> Result<(), Fail> {
    if n > 62 {
        line.push(126)?;
        line.push((n / 4096 % 64 + 63) as u8)?;
        line.push((n / 64 % 64 + 63) as u8)?;
    }
    line.push((n % 64 + 63) as u8)?;
    Ok(())
}

// How many pairs there are of so many vertices.
fn pairs_of(n: u32) -> u64 {
    u64::from(n).saturating_mul(u64::from(n.saturating_sub(1))) / 2
}

// The line of the graph6 file of the graph on so many vertices of which the first and the last are
// adjacent, and no others.
fn line_of(alloc: Global, n: u32) -> Result<Vec<u8>, Fail> {
    let mut line = Vec::new(alloc);
    push_size(&mut line, n)?;
    let before = pairs_of(n.saturating_sub(1));
    let groups = vec![in alloc; b'?'; pairs_of(n).div_ceil(6) as usize]?;
    let at = line.len().saturating_add((before / 6) as usize);
    line.extend_from_slice(&groups)?;
    if at < line.len() {
        line[at] = 63 + (32u8 >> (before % 6));
    }
    line.push(b'\n')?;
    Ok(line)
}

// The text of the tree of that graph, where its first name is given; it has three names or more.
fn tree_of(alloc: Global, first: u32, n: u32) -> Result<String, Fail> {
    let last = first.saturating_add(n).saturating_sub(1);
    let others = names(alloc, first.saturating_add(1), last)?;
    Ok(format!(in alloc; "P(S({first},{last}){others})")?)
}

// What each command over graphs is to put for that graph, of which the least name is given.
fn put_for(alloc: Global, command: &str, first: u32, n: u32) -> Result<Vec<u8>, Fail> {
    let last = first.saturating_add(n).saturating_sub(1);
    match command {
        "edges" => Ok(format!(in alloc; "p edge {n} 1\ne 1 {n}\n")?.into_bytes()),
        "graph6" => line_of(alloc, n),
        "tree" => {
            let tree = tree_of(alloc, first, n)?;
            Ok(format!(in alloc; "t {tree}\n")?.into_bytes())
        }
        _ => Ok(format!(in alloc; "yes {first}>{last}\n")?.into_bytes()),
    }
}

// What a command is to put for those graphs of these sizes.
fn whole_for(alloc: Global, command: &str, first: u32, sizes: &[u32]) -> Result<Vec<u8>, Fail> {
    let mut text = Vec::new(alloc);
    let is_report = command == "tree" || command == "compare";
    if is_report {
        text.extend_from_slice(format!(in alloc; "mdt {command}\n")?.as_bytes())?;
    }
    for n in sizes {
        text.extend_from_slice(&put_for(alloc, command, first, *n)?)?;
    }
    if is_report {
        text.extend_from_slice(b"end\n")?;
    }
    Ok(text)
}

// What a run over the files `g` and `s` puts; nothing where it isn't Done.
pub(super) fn output_of(
    alloc: Global,
    line: &str,
    file: &[u8],
    script: &[u8],
) -> Result<Vec<u8>, Fail> {
    let words = words_of(alloc, line)?;
    let mut files = MemFiles::new(alloc, Vec::new(alloc));
    files.add("g", file)?;
    files.add("s", script)?;
    let mut out = MemSink::new(alloc, Vec::new(alloc), 0);
    let mut err = MemSink::new(alloc, Vec::new(alloc), 0);
    let status = status_of(alloc, &words, &mut files, &mut out, &mut err);
    let mut bytes = Vec::new(alloc);
    if status.number() == 0 {
        bytes.extend_from_slice(out.bytes())?;
    }
    Ok(bytes)
}

// Sees what a command over graphs puts for those graphs of these sizes in one file, and that a
// report is accepted by its check.
fn expect_sizes(rt: &impl Abort, alloc: Global, command: &str, sizes: &[u32]) -> Result<(), Fail> {
    let mut file = Vec::new(alloc);
    for n in sizes {
        file.extend_from_slice(&line_of(alloc, *n)?)?;
    }
    let want = whole_for(alloc, command, 0, sizes)?;
    let line = format!(in alloc; "{command} g6 g")?;
    let put = output_of(alloc, line.as_str(), &file, b"")?;
    assert!(rt; put.as_slice() == want.as_slice(), "{command}");
    if command == "tree" || command == "compare" {
        let line = format!(in alloc; "check {command} g6 g s")?;
        let put = output_of(alloc, line.as_str(), &file, &want)?;
        assert!(rt;
            put.as_slice() == b"accepted\n".as_slice(),
            "check {command}"
        );
    }
    Ok(())
}

#[test]
fn runs_over_graphs_of_all_sizes(rt: HostRuntime) -> Result<(), Fail> {
    let alloc = rt.alloc();
    expect_sizes(&rt, alloc, "edges", &[65, 1_025, 4_096, 64, 1_024])?;
    for command in ["graph6", "tree", "compare"] {
        expect_sizes(&rt, alloc, command, &[62, 63, 64, 65, 1_024, 1_025])?;
        expect_sizes(&rt, alloc, command, &[1_025, 1_024, 65, 64, 63, 62])?;
    }
    Ok(())
}

// Sees that the report of models of those graphs of these sizes is accepted.
fn expect_models(rt: &impl Abort, alloc: Global, sizes: &[u32]) -> Result<(), Fail> {
    let mut file = Vec::new(alloc);
    for n in sizes {
        file.extend_from_slice(&line_of(alloc, *n)?)?;
    }
    let report = output_of(alloc, "permute g6 g", &file, b"")?;
    assert!(rt; report.len() > 1_000);
    let put = output_of(alloc, "check permute g6 g s", &file, &report)?;
    assert_eq!(rt; put.as_slice(), b"accepted\n".as_slice());
    Ok(())
}

#[test]
fn models_of_graphs_of_all_sizes_are_accepted(rt: HostRuntime) -> Result<(), Fail> {
    expect_models(&rt, rt.alloc(), &[62, 64, 65])?;
    expect_models(&rt, rt.alloc(), &[65, 64, 62])
}

// Sees what a command puts for that graph of a size as a DIMACS file.
fn expect_edges(rt: &impl Abort, alloc: Global, command: &str, n: u32) -> Result<(), Fail> {
    let file = put_for(alloc, "edges", 1, n)?;
    let want = whole_for(alloc, command, 1, &[n])?;
    let line = format!(in alloc; "{command} dimacs g")?;
    let put = output_of(alloc, line.as_str(), &file, b"")?;
    assert!(rt;
        put.as_slice() == want.as_slice(),
        "{command}, {n} vertices"
    );
    Ok(())
}

#[test]
fn runs_over_edge_files_of_all_sizes(rt: HostRuntime) -> Result<(), Fail> {
    for n in [62, 63, 64, 1_023, 1_024, 4_095] {
        for command in ["edges", "tree", "compare"] {
            expect_edges(&rt, rt.alloc(), command, n)?;
        }
    }
    Ok(())
}

// Sees what a session of a mode puts for that graph of a size, where its one edge goes, and a
// vertex with this name comes and goes again.
fn expect_session(
    rt: &impl Abort,
    alloc: Global,
    mode: &str,
    n: u32,
    name: u32,
) -> Result<(), Fail> {
    let last = n.saturating_sub(1);
    let script = format!(in alloc; "-e 0 {last}\n+v {name}\n-v {name}\n")?;
    let line = format!(in alloc; "{mode} g6 g s")?;
    let file = line_of(alloc, n)?;
    let put = output_of(alloc, line.as_str(), &file, script.as_bytes())?;
    let want = session_of(alloc, mode, n, name)?;
    assert!(rt; put.as_slice() == want.as_bytes(), "{mode}, {n} vertices");
    Ok(())
}

// The report of that session.
fn session_of(alloc: Global, mode: &str, n: u32, name: u32) -> Result<String, Fail> {
    let tree = tree_of(alloc, 0, n)?;
    let others = names(alloc, 1, n)?;
    let less = format!(in alloc; "ok P(0{others})")?;
    let more = format!(in alloc; "ok P(0{others},{name})")?;
    let head = format!(in alloc; "mdt {mode}\nt {tree}\n{less}\n")?;
    Ok(format!(in alloc; "{head}{more}\n{less}\nend\n")?)
}

static SIZES: [(u32, u32); 10] = [
    (62, 4_095),
    (63, 4_096),
    (64, 64),
    (65, 16_383),
    (1_023, 4_095),
    (1_024, 4_096),
    (1_025, 4_095),
    (4_095, 4_095),
    (4_096, 4_096),
    (4_097, 4_097),
];

#[test]
fn sessions_over_graphs_of_all_sizes(rt: HostRuntime) -> Result<(), Fail> {
    for (n, name) in &SIZES {
        expect_session(&rt, rt.alloc(), "edit", *n, *name)?;
        expect_session(&rt, rt.alloc(), "cograph", *n, *name)?;
    }
    Ok(())
}

#[test]
fn sessions_that_widen_their_rows(rt: HostRuntime) -> Result<(), Fail> {
    let alloc = rt.alloc();
    static TABLE: [(&str, &[u8], &[u8], &str); 3] = [
        (
            "edit g6 g s",
            b"@\n",
            b"+v 4095 0\n",
            "0|mdt edit\nt 0\nok S(0,4095)\nend\n|",
        ),
        (
            "edit g6 g s",
            b"@\n",
            b"+v 4096 0\n",
            "0|mdt edit\nt 0\nok S(0,4096)\nend\n|",
        ),
        (
            "edit g6 g s",
            b"@\n",
            b"+v 16383 0\n",
            "0|mdt edit\nt 0\nok S(0,16383)\nend\n|",
        ),
    ];
    expect_each(&rt, alloc, &TABLE)
}

// Sees that the report of a session is accepted in which a vertex with this name comes.
fn expect_report(rt: &impl Abort, alloc: Global, mode: &str, name: u32) -> Result<(), Fail> {
    let script = format!(in alloc; "+v {name} 0\n-v 1\n+e 0 {name}\n")?;
    let line = format!(in alloc; "{mode} g6 g s")?;
    let report = output_of(alloc, line.as_str(), b"Bw\n", script.as_bytes())?;
    let line = format!(in alloc; "check {mode} g6 g s r")?;
    let accepted = "0|accepted\n|";
    expect_check(
        rt,
        alloc,
        line.as_str(),
        b"Bw\n",
        script.as_bytes(),
        &report,
        accepted,
    )
}

#[test]
fn reports_of_sessions_of_all_widths(rt: HostRuntime) -> Result<(), Fail> {
    for name in [4_095, 4_096] {
        for mode in ["edit", "cograph", "quiet"] {
            expect_report(&rt, rt.alloc(), mode, name)?;
        }
    }
    Ok(())
}
