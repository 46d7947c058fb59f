//! Reports of directed trees and their answers.
use md_checker::CheckAnswer;
use md_dcheck::check_directed;
use md_graph6::{G6Fault, G6Kind};
use md_input::{Fault, InputStop};
use std::alloc::Global;
use std::process::Abort;
use std::test::Fail;

static REPORTS: [(&[u8], &[u8], CheckAnswer); 12] = [
    (
        b"&DI?AO?\n",
        b"mdt dtree\nt R(0,1,2,3,4;0>2,0>4,3>1,3>4)\nend\n",
        CheckAnswer::Accepted,
    ),
    (
        b"&BP_\n&BCo\n&AG\n&AW\n&?\n&@?\n",
        b"mdt dtree\nt R(0,1,2;0>1,1>2,2>0)\nt O(2,1,0)\nt O(1,0)\nt S(0,1)\nt empty\nt 0\nend\n",
        CheckAnswer::Accepted,
    ),
    (b"", b"mdt dtree\nend\n", CheckAnswer::Accepted),
    (
        b"&BCo\n",
        b"mdt dtree\nt O(0,1,2)\nend\n",
        CheckAnswer::Rejected(2),
    ),
    (
        b"&BCo\n",
        b"mdt dtree\nt O(2,1,0)\n",
        CheckAnswer::Rejected(3),
    ),
    (
        b"&BCo\n",
        b"mdt dtree\nt O(2,1,0)\nend",
        CheckAnswer::Rejected(3),
    ),
    (
        b"&BCo\n",
        b"mdt dtree\nt O(2,1,0)\nend\nend\n",
        CheckAnswer::Rejected(4),
    ),
    (b"&BCo\n", b"mdt dtree\nend\n", CheckAnswer::Rejected(2)),
    (b"&BCo\n", b"mdt tree\n", CheckAnswer::Rejected(1)),
    (b"&BCo\n", b"", CheckAnswer::Rejected(1)),
    (
        b"&BCo\n",
        b"mdt dtree\nt O(2,1,0\n",
        CheckAnswer::Rejected(2),
    ),
    (
        b"&BP?\n",
        b"mdt dtree\nt R(0,1,2;1>2,0>1)\n",
        CheckAnswer::Rejected(2),
    ),
];

// The answer of a report over a file, or why there is none.
fn judge(alloc: Global, file: &[u8], report: &[u8]) -> Result<CheckAnswer, InputStop> {
    check_directed(alloc, file, report)
}

// The answer of a report over a file.
fn answer_of(rt: &impl Abort, alloc: Global, file: &[u8], report: &[u8]) -> CheckAnswer {
    let Ok(answer) = judge(alloc, file, report) else {
        panic!(rt; "stopped");
    };
    answer
}

#[test]
fn reports_of_trees(rt: HostRuntime) {
    for (file, report, expected) in &REPORTS {
        assert_eq!(rt; answer_of(&rt, rt.alloc(), *file, *report), *expected);
    }
}

// Sees that a file has a fault of this kind in its first line.
fn check_fault(rt: &impl Abort, alloc: Global, file: &[u8], kind: G6Kind) {
    let report = b"mdt dtree\nend\n";
    let Err(InputStop::BadInput(Fault::Graph6(fault))) = judge(alloc, file, report) else {
        panic!(rt; "no fault");
    };
    assert_eq!(rt; fault, G6Fault { kind, line: 1 });
}

#[test]
fn faulty_files(rt: HostRuntime) {
    check_fault(&rt, rt.alloc(), b"&@_\n", G6Kind::Loop);
    check_fault(&rt, rt.alloc(), b"DQc\n", G6Kind::OtherFormat);
    check_fault(&rt, rt.alloc(), b"&\n", G6Kind::Truncated);
}

// A path of eleven vertices.
const PATH: &[u8] = b"&JO?O?O?O?O?O?O?O?O?O??\n";

static TEXTS: [(&[u8], &[u8], bool); 14] = [
    (b"&?\n", b"empty", true),
    (b"&@?\n", b"0", true),
    (b"&AW\n", b"S(0,1)", true),
    (b"&BCo\n", b"O(2,1,0)", true),
    (b"&BCo\n", b"O(0,1,2)", false),
    (b"&BC?\n", b"P(O(1,0),2)", true),
    (b"&CQKo\n", b"O(P(2,3),S(0,1))", true),
    (b"&CI`?\n", b"R(O(1,0),2,3;0>1,1>2)", true),
    // The order of two is a module that this tree leaves out.
    (b"&CI`?\n", b"R(0,1,2,3;0>2,1>0,1>2,2>3)", false),
    (
        PATH,
        b"R(0,1,2,3,4,5,6,7,8,9,10;0>1,1>2,2>3,3>4,4>5,5>6,6>7,7>8,8>9,9>10)",
        true,
    ),
    (
        PATH,
        b"R(0,1,2,3,4,5,6,7,8,9,10;0>1,1>2,2>3,3>4,4>5,5>6,6>7,7>8,8>9)",
        false,
    ),
    (
        PATH,
        b"R(0,1,2,3,4,5,6,7,8,9,10;0>1,1>2,2>3,3>4,4>5,5>6,6>7,7>8,8>9,9>10,10>9)",
        false,
    ),
    (
        PATH,
        b"R(0,1,2,3,4,5,6,7,8,9,10;0>1,1>2,2>3,3>4,5>6,4>5,6>7,7>8,8>9,9>10)",
        false,
    ),
    (
        PATH,
        b"R(0,1,2,3,4,5,6,7,8,9,10;0>1,1>2,2>3,3>4,4>5,5>6,6>7,7>8,8>9,9>1)",
        false,
    ),
];

// Sees whether the report of a tree with this text is accepted.
fn check_text(
    rt: &impl Abort,
    alloc: Global,
    file: &[u8],
    text: &[u8],
    want: bool,
) -> Result<(), Fail> {
    let mut report = Vec::new(alloc);
    for piece in [b"mdt dtree\nt ", text, b"\nend\n"] {
        report.extend_from_slice(piece)?;
    }
    let wanted = if want {
        CheckAnswer::Accepted
    } else {
        CheckAnswer::Rejected(2)
    };
    assert_eq!(rt; answer_of(rt, alloc, file, &report), wanted);
    Ok(())
}

#[test]
fn texts_of_trees(rt: HostRuntime) -> Result<(), Fail> {
    for (file, text, want) in &TEXTS {
        check_text(&rt, rt.alloc(), *file, *text, *want)?;
    }
    Ok(())
}
