//! What is done over what a report is over: its files are loaded, its report is put, or a report of
//! it is checked.
ghost use Rattle.std.specs.Prelude.{◌≡◌, ◌≤◌, Some, IfOk, IfErr};
ghost use Rattle.md_top.specs.declared.request.Request.{Request};
ghost use Rattle.md_top.specs.Subject.{subject_seen, subject_files, with_subject_files};
ghost use Rattle.md_top.specs.Input.{files_run};
ghost use Rattle.md_top.specs.Loading.{Loads, StopsLoading, subject_read};
ghost use Rattle.md_top.specs.Command.{CommandEnds};
ghost use Rattle.md_top.specs.Sinks.{sink_run};

use crate::check::{digraphs_check, graphs_check, session_check};
use crate::directed::directed_report;
use crate::load::load;
use crate::report::report;
use crate::request::Subject;
use crate::session::session_report;
use crate::stop::{Stop, Verdict};
use md_io::{Files, Sink};
use std::alloc::Global;

/// The subject with the bytes of its files, which are loaded in the order of the words.
pub fn load_subject<F: Files>(
    alloc: Global,
    files: &mut F,
    subject: Subject<&str>,
) -> Result<Subject<Vec<u8>>, Stop>
    ensures loaded { IfOk result (λ loaded. Loads (files_run F.Files files.old files.new)
        (subject_files (subject_seen subject.entry)) (subject_files (subject_read loaded))) }
    ensures filled { IfOk result (λ loaded.
        with_subject_files (subject_seen subject.entry) (subject_files (subject_read loaded))
        ≡ Some (subject_read loaded)) }
    ensures stops { IfErr result (StopsLoading (files_run F.Files files.old files.new)
        (subject_files (subject_seen subject.entry))) }
    ensures told { F.holds files.new ≡ F.holds files.old }
{
    match subject {
        Subject::Graphs(mode, from, graph) => {
            let file = load(alloc, files, graph)?;
            Ok(Subject::Graphs(mode, from, file))
        }
        Subject::Session(mode, from, graph, script) => {
            let graph_file = load(alloc, files, graph)?;
            let script_file = load(alloc, files, script)?;
            Ok(Subject::Session(mode, from, graph_file, script_file))
        }
        Subject::Digraphs(graph) => {
            let file = load(alloc, files, graph)?;
            Ok(Subject::Digraphs(file))
        }
    }
}

/// Puts the report over a subject.
pub fn report_of_subject<O: Sink>(
    alloc: Global,
    subject: &Subject<Vec<u8>>,
    out: &mut O,
) -> Result<Verdict, Stop>
    ensures ends { CommandEnds (Request.Report (subject_read subject.now)) result
        (sink_run O.Sink out.old out.new) }
    ensures faults_never_fall { O.faults out.old ≤ O.faults out.new }
{
    match subject {
        Subject::Graphs(mode, from, graph) => report(alloc, *mode, *from, graph, out),
        Subject::Session(mode, from, graph, script) => {
            session_report(alloc, *mode, *from, graph, script, out)
        }
        Subject::Digraphs(graph) => directed_report(alloc, graph, out),
    }
}

/// Puts the answer of checking bytes as a report over a subject.
pub fn check_of_subject<O: Sink>(
    alloc: Global,
    subject: &Subject<Vec<u8>>,
    bytes: &[u8],
    out: &mut O,
) -> Result<Verdict, Stop>
    ensures ends { CommandEnds (Request.Check (subject_read subject.now) bytes.now) result
        (sink_run O.Sink out.old out.new) }
    ensures faults_never_fall { O.faults out.old ≤ O.faults out.new }
{
    match subject {
        Subject::Graphs(mode, from, graph) => graphs_check(alloc, *mode, *from, graph, bytes, out),
        Subject::Session(mode, from, graph, script) => {
            session_check(alloc, *mode, *from, graph, script, bytes, out)
        }
        Subject::Digraphs(graph) => digraphs_check(alloc, graph, bytes, out),
    }
}
