//! The top call: all that the program does.
ghost use Rattle.std.specs.Prelude.{◌≡◌, ◌≢◌, ◌↔◌, ◌⊎◌, ◌<◌, ◌≤◌, ℕ, List, None, Some, IsTrue, OnOk};
ghost use Rattle.md_io.specs.Count.{Rose};
ghost use Rattle.md_input.specs.declared.fault.Fault.{Fault};
ghost use Rattle.md_top.specs.declared.request.Request.{Request};
ghost use Rattle.md_top.specs.Subject.{subject_seen};
ghost use Rattle.md_top.specs.Request.{texts, request_of};
ghost use Rattle.md_top.specs.Input.{IsInput, AllToldFiles, AsksInOrder, file_names, files_run};
ghost use Rattle.md_top.specs.Answer.{fault_of, HasAnswer};
ghost use Rattle.md_top.specs.Sinks.{sink_run};
ghost use Rattle.md_checker.specs.declared.answer.CheckAnswer.{CheckAnswer};
ghost use Rattle.md_top.specs.Promise.{CanBeBad, CanBeGood, CanBeRejected, Puts, TakesLineOf, Ends};

use crate::big::{BIGGEST, big};
use crate::convert::convert;
use crate::err_line::put_line;
use crate::load::load;
use crate::request::{Request, Subject, request_of};
use crate::stop::{Status, Stop, Verdict};
use crate::subject::{check_of_subject, load_subject, report_of_subject};
use md_input::Format;
use md_io::{Files, Sink};
use std::alloc::Global;

/// Does what the words ask for: loads the files that they name, in their order, puts the whole
/// output to `out`, and answers how that ended. Where the output isn't whole, one line on `err`
/// says why.
///
/// All files are loaded and the input is read whole before the first byte is put. The output is
/// flushed before the line on `err` is put and before the answer: where that would be Done or
/// Rejected, a flush that fails makes it WriteFault; else the first cause stays.
pub fn run<F: Files, O: Sink, E: Sink>(
    alloc: Global,
    words: &[String],
    files: &mut F,
    out: &mut O,
    err: &mut E,
) -> Status
    // Usage comes exactly where the words are in no form.
    ensures usage { (result ≡ Status.Usage) ↔ (request_of (texts words.now) ≡ None) }

    // No file but those of the words is asked for, and these in their order, each behind files that
    // can be had.
    ensures asked { AsksInOrder (F.holds files.old) (F.asked files.old) (F.asked files.new)
        (file_names (request_of (texts words.now))) }

    // Bad input comes exactly where the input has a fault. A reading fault or want of memory may
    // come first.
    ensures bad_input { result ≡ Status.BadInput
        → (fault : Fault) × CanBeBad (F.holds files.old) (request_of (texts words.now)) fault }
    ensures bad_input_always { (input : Request (List ℕ)) (fault : Fault)
        → IsInput (F.holds files.old) (request_of (texts words.now)) input
        → fault_of input ≡ Some fault
        → (result ≡ Status.BadInput) ⊎ (result ≡ Status.ReadFault) ⊎ (result ≡ Status.Memory) }

    // Done, Rejected and a writing fault come only over well-formed input.
    ensures good_input { (result ≡ Status.Done) ⊎ (result ≡ Status.Rejected)
        ⊎ (result ≡ Status.WriteFault)
        → CanBeGood (F.holds files.old) (request_of (texts words.now)) }

    // Rejected comes exactly where a report is to be checked and isn't valid. A fault of the
    // outside or want of memory may come first.
    ensures rejected { result ≡ Status.Rejected
        → CanBeRejected (F.holds files.old) (request_of (texts words.now)) }
    ensures rejected_always { (input : Request (List ℕ)) (line : ℕ)
        → IsInput (F.holds files.old) (request_of (texts words.now)) input
        → fault_of input ≡ None
        → HasAnswer input (CheckAnswer.Rejected line)
        → (result ≡ Status.Rejected) ⊎ (result ≡ Status.ReadFault) ⊎ (result ≡ Status.WriteFault)
        ⊎ (result ≡ Status.Memory) }

    // A fault of the outside is answered only where its count rose.
    ensures read_fault { result ≡ Status.ReadFault
        → Rose (F.faults files.old) (F.faults files.new) }
    ensures write_fault { result ≡ Status.WriteFault → Rose (O.faults out.old) (O.faults out.new) }
    ensures too_long { result ≡ Status.TooLong → Rose (F.overs files.old) (F.overs files.new) }

    // The failing load ends the run: where the count of faults rose, nothing else is answered.
    ensures failing_load { F.faults files.old < F.faults files.new → result ≡ Status.ReadFault }

    // Where loads of told files can't fail, and the files of the words are told, none fails.
    ensures sure { IsTrue (F.sure files.old)
        → AllToldFiles (F.holds files.old) (file_names (request_of (texts words.now)))
        → (F.faults files.new ≡ F.faults files.old)
        × IsTrue (F.sure files.new) × (result ≢ Status.ReadFault) }

    // What is put, by the status: a whole valid output, the beginning of one, or nothing.
    ensures out { Puts (F.holds files.old) (request_of (texts words.now)) result
        (sink_run O.Sink out.old out.new) }

    // With Done and Rejected all that was put has reached the device, where `out` tells it; with
    // another status it has, or the count of faults rose.
    ensures flushed { (result ≡ Status.Done) ⊎ (result ≡ Status.Rejected)
        → O.reached out.new ≡ O.holds out.new }
    ensures flushed_or_failed { (O.reached out.new ≡ O.holds out.new)
        ⊎ Rose (O.faults out.old) (O.faults out.new) }

    // The line of the status, or a beginning of it where a count of `err` rose.
    ensures err { TakesLineOf (F.holds files.old) (request_of (texts words.now)) result
        (sink_run E.Sink err.old err.new) (E.wants err.old) (E.wants err.new) }

    // Well-formed input that is told, and no fault of the outside: the whole output, or want of
    // memory.
    ensures complete { (input : Request (List ℕ))
        → IsInput (F.holds files.old) (request_of (texts words.now)) input
        → fault_of input ≡ None
        → ¬ Rose (F.faults files.old) (F.faults files.new)
        → ¬ Rose (O.faults out.old) (O.faults out.new)
        → (result ≡ Status.Done) ⊎ (result ≡ Status.Rejected) ⊎ (result ≡ Status.Memory) }

    // What is told of the files stays.
    ensures told { F.holds files.new ≡ F.holds files.old }
{
    match end_flushed(alloc, words, files, out) {
        Ok(verdict) => verdict.status(),
        Err(stop) => {
            put_line(err, stop);
            stop.status()
        }
    }
}

// Does what the words ask for and flushes the output, but for the line on `err`. A flush that fails
// is a writing fault, where nothing else stopped the run before.
fn end_flushed<F: Files, O: Sink>(
    alloc: Global,
    words: &[String],
    files: &mut F,
    out: &mut O,
) -> Result<Verdict, Stop>
    ensures ends { Ends (request_of (texts words.now)) result
        (files_run F.Files files.old files.new) (sink_run O.Sink out.old out.new) }
    ensures told { F.holds files.new ≡ F.holds files.old }
    ensures flushed { OnOk result (O.reached out.new ≡ O.holds out.new) }
    ensures flushed_or_failed { (O.reached out.new ≡ O.holds out.new)
        ⊎ Rose (O.faults out.old) (O.faults out.new) }
{
    let ending = end(alloc, words, files, out);
    let flush = out.flush();
    if ending.is_ok() && flush.is_err() {
        return Err(Stop::WriteFault);
    }
    ending
}

// Does what the words ask for, but for the flush and the line on `err`.
fn end<F: Files, O: Sink>(
    alloc: Global,
    words: &[String],
    files: &mut F,
    out: &mut O,
) -> Result<Verdict, Stop>
    ensures ends { Ends (request_of (texts words.now)) result
        (files_run F.Files files.old files.new) (sink_run O.Sink out.old out.new) }
    ensures told { F.holds files.new ≡ F.holds files.old }
    ensures faults_never_fall { O.faults out.old ≤ O.faults out.new }
{
    let Some(request) = request_of(words) else {
        return Err(Stop::Usage);
    };
    match request {
        Request::Convert(to, from, graph) => end_convert(alloc, to, from, graph, files, out),
        Request::Report(subject) => end_report(alloc, subject, files, out),
        Request::Check(subject, report) => end_check(alloc, subject, report, files, out),
        Request::Big(size) => end_big(alloc, size, files, out),
    }
}

// Runs the session over the edits that a number of names gives; no file is asked for.
// Condition: the number is at most `BIGGEST`. Never inlined, so that the stack holds the frame of
// one command alone.
#[inline(never)]
fn end_big<F: Files, O: Sink>(
    alloc: Global,
    size: u32,
    _files: &mut F,
    out: &mut O,
) -> Result<Verdict, Stop>
    requires { size ≤ BIGGEST }
    ensures ends { Ends (Some (Request.Big size)) result
        (files_run F.Files _files.old _files.new) (sink_run O.Sink out.old out.new) }
    ensures told { F.holds _files.new ≡ F.holds _files.old }
    ensures faults_never_fall { O.faults out.old ≤ O.faults out.new }
{
    big(alloc, size, out)
}

// Loads the graph file, and puts the text of each graph in a format. Never inlined, as above.
#[inline(never)]
fn end_convert<F: Files, O: Sink>(
    alloc: Global,
    to: Format,
    from: Format,
    graph: &str,
    files: &mut F,
    out: &mut O,
) -> Result<Verdict, Stop>
    ensures ends { Ends (Some (Request.Convert to from graph.now)) result
        (files_run F.Files files.old files.new) (sink_run O.Sink out.old out.new) }
    ensures told { F.holds files.new ≡ F.holds files.old }
    ensures faults_never_fall { O.faults out.old ≤ O.faults out.new }
{
    let file = load(alloc, files, graph)?;
    convert(alloc, from, to, &file, out)
}

// Loads the files of a subject, and puts the report over it. Never inlined, as above.
#[inline(never)]
fn end_report<F: Files, O: Sink>(
    alloc: Global,
    subject: Subject<&str>,
    files: &mut F,
    out: &mut O,
) -> Result<Verdict, Stop>
    ensures ends { Ends (Some (Request.Report (subject_seen subject.entry))) result
        (files_run F.Files files.old files.new) (sink_run O.Sink out.old out.new) }
    ensures told { F.holds files.new ≡ F.holds files.old }
    ensures faults_never_fall { O.faults out.old ≤ O.faults out.new }
{
    let loaded = load_subject(alloc, files, subject)?;
    report_of_subject(alloc, &loaded, out)
}

// Loads the files of a subject and the report, and checks the report. Never inlined, as above.
#[inline(never)]
fn end_check<F: Files, O: Sink>(
    alloc: Global,
    subject: Subject<&str>,
    report: &str,
    files: &mut F,
    out: &mut O,
) -> Result<Verdict, Stop>
    ensures ends { Ends (Some (Request.Check (subject_seen subject.entry) report.now)) result
        (files_run F.Files files.old files.new) (sink_run O.Sink out.old out.new) }
    ensures told { F.holds files.new ≡ F.holds files.old }
    ensures faults_never_fall { O.faults out.old ≤ O.faults out.new }
{
    let loaded = load_subject(alloc, files, subject)?;
    let report_file = load(alloc, files, report)?;
    check_of_subject(alloc, &loaded, &report_file, out)
}
