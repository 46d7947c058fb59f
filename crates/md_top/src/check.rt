//! Checks of reports: all files are read whole, and the answer is one put.
ghost use Rattle.std.specs.Prelude.{◌≡◌, ◌≤◌};
ghost use Rattle.md_checker.specs.declared.answer.CheckAnswer.{CheckAnswer};
ghost use Rattle.md_top.specs.declared.request.Subject.{Subject};
ghost use Rattle.md_top.specs.declared.request.Request.{Request};
ghost use Rattle.md_top.specs.Answer.{answer_text, verdict_of};
ghost use Rattle.md_top.specs.Command.{CommandEnds};
ghost use Rattle.md_top.specs.Sinks.{sink_run, PutsWhole};

use crate::err_line::fixed_line;
use crate::put::put_piece;
use crate::short::ShortText;
use crate::stop::{PutStop, Stop, Verdict};
use md_checker::{CheckAnswer, check_graphs, check_session};
use md_dcheck::check_directed;
use md_input::Format;
use md_io::Sink;
use md_report::{GraphMode, SessionMode};
use std::alloc::Global;

/// Puts the answer of checking a report of a mode over the graphs of a file.
// Never inlined, so that the stack holds the frame of one kind of checks alone.
#[inline(never)]
pub fn graphs_check<O: Sink>(
    alloc: Global,
    mode: GraphMode,
    from: Format,
    file: &[u8],
    report: &[u8],
    out: &mut O,
) -> Result<Verdict, Stop>
    ensures ends { CommandEnds
        (Request.Check (Subject.Graphs mode from file.now) report.now) result
        (sink_run O.Sink out.old out.new) }
    ensures faults_never_fall { O.faults out.old ≤ O.faults out.new }
{
    let answer = check_graphs(alloc, mode, from, file, report)?;
    put_answer(answer, out)?;
    Ok(verdict_of(answer))
}

/// Puts the answer of checking a report of a session on the one graph of a file, over a script.
// Never inlined, so that the stack holds the frame of one kind of checks alone.
#[inline(never)]
pub fn session_check<O: Sink>(
    alloc: Global,
    mode: SessionMode,
    from: Format,
    file: &[u8],
    script: &[u8],
    report: &[u8],
    out: &mut O,
) -> Result<Verdict, Stop>
    ensures ends { CommandEnds
        (Request.Check (Subject.Session mode from file.now script.now) report.now) result
        (sink_run O.Sink out.old out.new) }
    ensures faults_never_fall { O.faults out.old ≤ O.faults out.new }
{
    let answer = check_session(alloc, mode, from, file, script, report)?;
    put_answer(answer, out)?;
    Ok(verdict_of(answer))
}

/// Puts the answer of checking a report of the trees of the directed graphs of a file.
// Never inlined, so that the stack holds the frame of one kind of checks alone.
#[inline(never)]
pub fn digraphs_check<O: Sink>(
    alloc: Global,
    file: &[u8],
    report: &[u8],
    out: &mut O,
) -> Result<Verdict, Stop>
    ensures ends { CommandEnds (Request.Check (Subject.Digraphs file.now) report.now) result
        (sink_run O.Sink out.old out.new) }
    ensures faults_never_fall { O.faults out.old ≤ O.faults out.new }
{
    let answer = check_directed(alloc, file, report)?;
    put_answer(answer, out)?;
    Ok(verdict_of(answer))
}

// Puts the answer of a check, in one put.
fn put_answer<O: Sink>(answer: CheckAnswer, out: &mut O) -> Result<(), PutStop>
    ensures puts { PutsWhole (answer_text answer) result (sink_run O.Sink out.old out.new) }
    ensures faults_never_fall { O.faults out.old ≤ O.faults out.new }
{
    let text = answer_text(answer);
    put_piece(out, text.as_slice())
}

// The text of the answer of a check.
fn answer_text(answer: CheckAnswer) -> ShortText
    ensures { result ≡ answer_text answer }
{
    match answer {
        CheckAnswer::Accepted => fixed_line(b"accepted\n"),
        CheckAnswer::Rejected(line) => rejected_line(line),
    }
}

fn rejected_line(line: u64) -> ShortText
    ensures { result ≡ answer_text (CheckAnswer.Rejected line) }
{
    let mut text = ShortText::new();
    text.push(b"rejected line ");
    text.push_decimal(line);
    text.push(b"\n");
    text
}

// What the answer of a check says of the run.
fn verdict_of(answer: CheckAnswer) -> Verdict
    ensures { result ≡ verdict_of answer }
{
    match answer {
        CheckAnswer::Accepted => Verdict::Done,
        CheckAnswer::Rejected(_) => Verdict::Rejected,
    }
}
