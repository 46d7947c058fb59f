//! Sessions on trivially perfect graphs and on threshold graphs, and checks of their reports.
use super::checks::expect_check;
use super::*;

// Sees that a session gives a report, and that its check accepts the report.
fn expect_session(
    rt: &impl Abort,
    alloc: Global,
    mode: &str,
    file: &[u8],
    script: &[u8],
    report: &str,
) -> Result<(), Fail> {
    let line = format!(in alloc; "{mode} g6 g s")?;
    let want = format!(in alloc; "0|{report}|")?;
    expect_run(rt, alloc, line.as_str(), file, script, want.as_str())?;
    let line = format!(in alloc; "check {mode} g6 g s r")?;
    let accepted = "0|accepted\n|";
    expect_check(
        rt,
        alloc,
        line.as_str(),
        file,
        script,
        report.as_bytes(),
        accepted,
    )
}

#[test]
fn sessions_on_classes(rt: HostRuntime) -> Result<(), Fail> {
    let alloc = rt.alloc();
    static TABLE: [(&str, &[u8], &[u8], &str); 9] = [
        (
            "threshold",
            b"Bg\n",
            b"+v 3\n+e 0 3\n+v 4 3\n+v 4 0 2\n+v 4 0 1 2 3\n",
            "mdt threshold\nt S(P(0,2),1)\nok P(S(P(0,2),1),3)\nno p4 2 1 0 3\nno 2k2 0 1 3 4\nno c4 0 1 2 4\nok S(P(S(P(0,2),1),3),4)\nend\n",
        ),
        ("trivial", b"Cl\n", b"", "mdt trivial\nc4 0 1 2 3\nend\n"),
        (
            "trivial",
            b"Ch\n",
            b"-v 0\n",
            "mdt trivial\np4 0 1 2 3\nend\n",
        ),
        (
            "threshold",
            b"CK\n",
            b"",
            "mdt threshold\n2k2 0 3 1 2\nend\n",
        ),
        (
            "trivial",
            b"C_\n",
            b"+e 2 3\n+e 1 2\n",
            "mdt trivial\nt P(S(0,1),2,3)\nok P(S(0,1),S(2,3))\nno p4 0 1 2 3\nend\n",
        ),
        (
            "threshold",
            b"C_\n",
            b"+e 2 3\n-e 0 1\n+e 2 3\n",
            "mdt threshold\nt P(S(0,1),2,3)\nno 2k2 0 1 2 3\nok P(0,1,2,3)\nok P(0,1,S(2,3))\nend\n",
        ),
        (
            "threshold",
            b"Bg\n",
            b"begin\n+v 3\n+e 0 3\n-e 0 3\ncommit\nundo\nbegin\ncommit\nundo\nundo\n",
            "mdt threshold\nt S(P(0,2),1)\nno edit 2 p4 2 1 0 3\nno undo\nok S(P(0,2),1)\nok S(P(0,2),1)\nno undo\nend\n",
        ),
        (
            "threshold",
            b"Bg\n",
            b"begin\n+v 3\n+v 4 3\n-v 4\ncommit\nbegin\n+v 3\n+e 0 1\ncommit\nbegin\n+v 3 1\n-v 0\ncommit\nundo\n",
            "mdt threshold\nt S(P(0,2),1)\nno edit 2 2k2 0 1 3 4\nno edit 2 edge-there\nok S(1,P(2,3))\nok S(P(0,2),1)\nend\n",
        ),
        (
            "trivial",
            b"?\n",
            b"+v 0\n+v 0\n-v 0\n",
            "mdt trivial\nt empty\nok 0\nno taken 0\nok empty\nend\n",
        ),
    ];
    for (mode, file, script, report) in &TABLE {
        expect_session(&rt, alloc, mode, *file, *script, report)?;
    }
    Ok(())
}

#[test]
fn checks_of_classes(rt: HostRuntime) -> Result<(), Fail> {
    let alloc = rt.alloc();
    static TABLE: [(&str, &[u8], &[u8], &[u8], &str); 10] = [
        // Another bar of the same graph.
        (
            "check threshold g6 g s r",
            b"Bg\n",
            b"+v 3\n+v 4 3\n",
            b"mdt threshold\nt S(P(0,2),1)\nok P(S(P(0,2),1),3)\nno 2k2 1 2 3 4\nend\n",
            "0|accepted\n|",
        ),
        (
            "check threshold g6 g s r",
            b"Bg\n",
            b"begin\n+v 3\n+v 4 3\ncommit\n",
            b"mdt threshold\nt S(P(0,2),1)\nno edit 2 2k2 1 2 3 4\nend\n",
            "0|accepted\n|",
        ),
        (
            "check threshold g6 g s r",
            b"Bg\n",
            b"begin\n+v 3\n+v 4 3\ncommit\n",
            b"mdt threshold\nt S(P(0,2),1)\nok P(S(P(0,2),1),S(3,4))\nend\n",
            "1|rejected line 3\n|",
        ),
        (
            "check threshold g6 g s r",
            b"Bg\n",
            b"begin\n+v 3\n+v 4 3\ncommit\n",
            b"mdt threshold\nt S(P(0,2),1)\nno edit 1 2k2 1 2 3 4\nend\n",
            "1|rejected line 3\n|",
        ),
        // Two edges bar no trivially perfect graph, and bar a threshold graph.
        (
            "check trivial g6 g s r",
            b"C_\n",
            b"+e 2 3\n",
            b"mdt trivial\nt P(S(0,1),2,3)\nno 2k2 0 1 2 3\nend\n",
            "1|rejected line 3\n|",
        ),
        (
            "check threshold g6 g s r",
            b"C_\n",
            b"+e 2 3\n",
            b"mdt threshold\nt P(S(0,1),2,3)\nok P(S(0,1),S(2,3))\nend\n",
            "1|rejected line 3\n|",
        ),
        (
            "check threshold g6 g s r",
            b"@\n",
            b"",
            b"mdt trivial\nt 0\nend\n",
            "1|rejected line 1\n|",
        ),
        (
            "check trivial g6 g s r",
            b"Cl\n",
            b"",
            b"mdt trivial\nt S(P(0,2),P(1,3))\nend\n",
            "1|rejected line 2\n|",
        ),
        (
            "check trivial g6 g s r",
            b"Cl\n",
            b"",
            b"mdt trivial\nc4 0 3 2 1\nend\n",
            "1|rejected line 2\n|",
        ),
        (
            "check trivial g6 g s r",
            b"Cl\n",
            b"-v 0\n",
            b"mdt trivial\nc4 0 1 2 3\nok S(P(1,3),2)\nend\n",
            "1|rejected line 3\n|",
        ),
    ];
    for (line, file, script, report, want) in &TABLE {
        expect_check(&rt, alloc, line, *file, *script, *report, want)?;
    }
    Ok(())
}
