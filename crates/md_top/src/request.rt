//! What the program can be asked: the request that words make.
ghost use Rattle.std.specs.Prelude.{◌≡◌, ◌≤◌, IfSome};
ghost use Rattle.std.specs.Option.{option_map};
ghost use Rattle.md_top.specs.Subject.{subject_seen};
ghost use Rattle.md_top.specs.Request.{texts, format_of, graph_mode, session_mode, digraphs_subject, subject_of, size_written, HasSize, convert_request, check_request, big_request, request_of, seen};

use crate::big::BIGGEST;
use md_input::Format;
use md_report::{GraphMode, SessionMode, class_of_word, mode_of_word};
use md_text::number;

/// What a report is over, by what stands for each file: its name, or its bytes; and its mode, where
/// there is more than one. The format is that of the graph file.
#[derive(Clone, Copy, Debug, Drop, PartialEq, Eq)]
pub enum Subject<F> {
    /// The graphs of a graph file.
    Graphs(GraphMode, Format, F),
    /// A session on the one graph of a graph file, over a script.
    Session(SessionMode, Format, F, F),
    /// The directed graphs of a digraph6 file.
    Digraphs(F),
}

/// What is asked for, by what stands for each file: its name, or its bytes.
#[derive(Clone, Copy, Debug, Drop, PartialEq, Eq)]
pub enum Request<F> {
    /// The text of each graph of a graph file: the format that is written, and that of the file.
    Convert(Format, Format, F),
    /// The report over a subject.
    Report(Subject<F>),
    /// The check of a report over a subject; the last file is the report.
    Check(Subject<F>, F),
    /// The numbers of a session on cographs over the edits that a number of names gives.
    Big(u32),
}

/// The request that the words make, with the names of files; none where they are in no form.
pub fn request_of(words: &[String]) -> Option<Request<&str>>
    ensures request { option_map seen result ≡ request_of (texts words.now) }
    ensures size { IfSome result (λ request. HasSize request) }
{
    let (command, behind) = words.split_first()?;
    match command.as_str() {
        "check" => check_request(behind),
        "big" => big_request(behind),
        "edges" => convert_request(Format::Dimacs, behind),
        "graph6" => convert_request(Format::G6, behind),
        _ => Some(Request::Report(subject_of(words)?)),
    }
}

// The check of a report that the words behind `check` ask for: those of a subject, and then the
// report.
fn check_request(words: &[String]) -> Option<Request<&str>>
    ensures request { option_map seen result ≡ check_request (texts words.now) }
    ensures size { IfSome result (λ request. HasSize request) }
{
    let (report, of_subject) = words.split_last()?;
    let subject = subject_of(of_subject)?;
    Some(Request::Check(subject, report.as_str()))
}

// The session over the edits that a number gives, by the word behind `big`.
fn big_request(words: &[String]) -> Option<Request<&str>>
    ensures request { option_map seen result ≡ big_request (texts words.now) }
    ensures size { IfSome result (λ request. HasSize request) }
{
    let [size] = words else {
        return None;
    };
    Some(Request::Big(size_of(size.as_str())?))
}

// The text of each graph in a format, by the words behind that: the format of the file, and the
// file.
fn convert_request(to: Format, words: &[String]) -> Option<Request<&str>>
    ensures request { option_map seen result ≡ convert_request to (texts words.now) }
    ensures size { IfSome result (λ request. HasSize request) }
{
    let [from, graph] = words else {
        return None;
    };
    Some(Request::Convert(to, format_of(from.as_str())?, graph.as_str()))
}

// The subject of a report that the words name: a mode, the format of the graph file, if there is
// more than one, and the files.
fn subject_of(words: &[String]) -> Option<Subject<&str>>
    ensures { option_map subject_seen result ≡ subject_of (texts words.now) }
{
    match words {
        [word, graph] => digraphs_subject(word.as_str(), graph.as_str()),
        [mode, format, graph] => {
            let mode = graph_mode(mode.as_str())?;
            let from = format_of(format.as_str())?;
            Some(Subject::Graphs(mode, from, graph.as_str()))
        }
        [mode, format, graph, script] => {
            let mode = session_mode(mode.as_str())?;
            let from = format_of(format.as_str())?;
            Some(Subject::Session(mode, from, graph.as_str(), script.as_str()))
        }
        _ => None,
    }
}

// The directed graphs of a file, if the word is that of the reports of their trees; none for any
// other word.
fn digraphs_subject<'a>(word: &str, graph: &'a str) -> Option<Subject<&'a str>>
    ensures { option_map subject_seen result ≡ digraphs_subject word.now graph.now }
{
    match word {
        "dtree" => Some(Subject::Digraphs(graph)),
        _ => None,
    }
}

// The number that a word writes, if it is one of 1 to `BIGGEST`; none for any other word.
fn size_of(word: &str) -> Option<u32>
    ensures size { result ≡ size_written word.now }
    ensures within { IfSome result (λ size. size ≤ BIGGEST) }
{
    let size = number(word.as_bytes())?;
    if 1 <= size && size <= u64::from(BIGGEST) {
        return Some(size as u32);
    }
    None
}

// The format that a word names; none for any other word.
fn format_of(word: &str) -> Option<Format>
    ensures { result ≡ format_of word.now }
{
    match word {
        "g6" => Some(Format::G6),
        "dimacs" => Some(Format::Dimacs),
        _ => None,
    }
}

// The mode of a report over the graphs of a file; none for any other word.
fn graph_mode(word: &str) -> Option<GraphMode>
    ensures { result ≡ graph_mode word.now }
{
    if word == "shortest" {
        return Some(GraphMode::Shortest);
    }
    mode_of_word(word.as_bytes())?.as_graph_mode()
}

// The mode of a report over a graph and a script; none for any other word.
fn session_mode(word: &str) -> Option<SessionMode>
    ensures { result ≡ session_mode word.now }
{
    if let Some(class) = class_of_word(word.as_bytes()) {
        return Some(SessionMode::Of(class));
    }
    mode_of_word(word.as_bytes())?.as_session_mode()
}
