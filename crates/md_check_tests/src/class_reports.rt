//! Reports of sessions on classes of graphs, and their answers.
use md_bar::Class;
use md_bar_checker::check_class;
use md_checker::CheckAnswer;
use md_input::Format;
use std::alloc::Global;
use std::process::Abort;

fn answer_of(
    rt: &impl Abort,
    alloc: Global,
    class: Class,
    files: (&[u8], &[u8]),
    report: &[u8],
) -> CheckAnswer {
    let (file, script) = files;
    let Ok(answer) = check_class(alloc, class, Format::G6, file, script, report) else {
        panic!(rt; "stopped");
    };
    answer
}

#[test]
fn reports_on_trivially_perfect_graphs(rt: HostRuntime) {
    let accepted = CheckAnswer::Accepted;
    // Two edges; a star; a cycle.
    let edges: (&[u8], &[u8]) = (b"C`\n", b"+e 1 2\n+v 4 0 1\n");
    let star: (&[u8], &[u8]) = (b"Cs\n", b"begin\n+e 1 2\n+e 2 3\n-e 0 2\ncommit\nundo\n");
    let cycle: (&[u8], &[u8]) = (b"Cl\n", b"+e 0 2\n");
    let cases: [((&[u8], &[u8]), &[u8], CheckAnswer); 9] = [
        (
            edges,
            b"mdt trivial\nt P(S(0,1),S(2,3))\nno p4 0 1 2 3\nok P(S(0,1,4),S(2,3))\nend\n",
            accepted,
        ),
        (edges, b"mdt threshold\n", CheckAnswer::Rejected(1)),
        (
            edges,
            b"mdt trivial\nt P(S(0,1),S(2,3))\nno 2k2 0 1 2 3\n",
            CheckAnswer::Rejected(3),
        ),
        (
            edges,
            b"mdt trivial\n2k2 0 1 2 3\nend\n",
            CheckAnswer::Rejected(2),
        ),
        (
            star,
            b"mdt trivial\nt S(0,P(1,2,3))\nno edit 3 c4 0 1 2 3\nno undo\nend\n",
            accepted,
        ),
        (
            star,
            b"mdt trivial\nt S(0,P(1,2,3))\nok S(P(0,2),P(1,3))\n",
            CheckAnswer::Rejected(3),
        ),
        (cycle, b"mdt trivial\nc4 0 1 2 3\nend\n", accepted),
        (
            cycle,
            b"mdt trivial\nc4 0 1 2 3\nok S(0,2,P(1,3))\n",
            CheckAnswer::Rejected(3),
        ),
        (
            cycle,
            b"mdt trivial\nt S(P(0,2),P(1,3))\n",
            CheckAnswer::Rejected(2),
        ),
    ];
    for (files, report, want) in &cases {
        let got = answer_of(&rt, rt.alloc(), Class::Trivial, *files, *report);
        assert!(&rt; got == *want);
    }
}

#[test]
fn reports_on_threshold_graphs(rt: HostRuntime) {
    let accepted = CheckAnswer::Accepted;
    let edges: (&[u8], &[u8]) = (b"C`\n", b"");
    let edge: (&[u8], &[u8]) = (b"C_\n", b"+e 2 3\n+v 4 0 1\n");
    let cases: [((&[u8], &[u8]), &[u8], CheckAnswer); 6] = [
        (edges, b"mdt threshold\n2k2 0 1 2 3\nend\n", accepted),
        (
            edges,
            b"mdt threshold\nt P(S(0,1),S(2,3))\nend\n",
            CheckAnswer::Rejected(2),
        ),
        (
            edge,
            b"mdt threshold\nt P(S(0,1),2,3)\nno 2k2 0 1 2 3\nok P(S(0,1,4),2,3)\nend\n",
            accepted,
        ),
        (
            edge,
            b"mdt threshold\nt P(S(0,1),2,3)\nok P(S(0,1),S(2,3))\n",
            CheckAnswer::Rejected(3),
        ),
        (
            edge,
            b"mdt threshold\nt P(S(0,1),2,3)\nno p4 0 1 2 3\n",
            CheckAnswer::Rejected(3),
        ),
        (
            edge,
            b"mdt threshold\nt P(S(0,1),2,3)\nno 2k2 0 1 2 3\nok P(S(0,1,4),2,3)\n",
            CheckAnswer::Rejected(5),
        ),
    ];
    for (files, report, want) in &cases {
        let got = answer_of(&rt, rt.alloc(), Class::Threshold, *files, *report);
        assert!(&rt; got == *want);
    }
}
