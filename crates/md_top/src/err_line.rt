//! The line on standard error.
ghost use Rattle.std.specs.Prelude.{◌≡◌, ◌≤◌, length};
ghost use Rattle.md_top.specs.Status.{g6_name, dimacs_name, script_name, graph_fault_line, script_fault_line, fault_line, line_of_stop};
ghost use Rattle.md_input.specs.declared.fault.Fault.{Fault};
ghost use Rattle.md_top.specs.Sinks.{sink_run, TakesLine};

use crate::short::ShortText;
use crate::stop::Stop;
use md_dimacs::DimacsKind;
use md_graph6::G6Kind;
use md_input::Fault;
use md_io::Sink;
use md_script::ScriptKind;

fn g6_name(kind: G6Kind) -> &'static str
    ensures { result.now ≡ g6_name kind }
{
    match kind {
        G6Kind::BadByte => "BadByte",
        G6Kind::BadSize => "BadSize",
        G6Kind::TooManyVertices => "TooManyVertices",
        G6Kind::Truncated => "Truncated",
        G6Kind::TrailingBytes => "TrailingBytes",
        G6Kind::BadPadding => "BadPadding",
        G6Kind::OtherFormat => "OtherFormat",
        G6Kind::Loop => "Loop",
    }
}

fn dimacs_name(kind: DimacsKind) -> &'static str
    ensures { result.now ≡ dimacs_name kind }
{
    match kind {
        DimacsKind::NoProblemLine => "NoProblemLine",
        DimacsKind::SecondProblemLine => "SecondProblemLine",
        DimacsKind::EdgeBeforeProblem => "EdgeBeforeProblem",
        DimacsKind::BadNumber => "BadNumber",
        DimacsKind::VertexOutOfRange => "VertexOutOfRange",
        DimacsKind::Loop => "Loop",
        DimacsKind::UnknownLine => "UnknownLine",
        DimacsKind::TooManyVertices => "TooManyVertices",
        DimacsKind::FieldCount => "FieldCount",
    }
}

fn script_name(kind: ScriptKind) -> &'static str
    ensures { result.now ≡ script_name kind }
{
    match kind {
        ScriptKind::UnknownEdit => "UnknownEdit",
        ScriptKind::FieldCount => "FieldCount",
        ScriptKind::BadNumber => "BadNumber",
        ScriptKind::NameTooLarge => "NameTooLarge",
        ScriptKind::TooManyEdits => "TooManyEdits",
        ScriptKind::Nested => "Nested",
        ScriptKind::NoGroup => "NoGroup",
        ScriptKind::OpenGroup => "OpenGroup",
    }
}

fn graph_fault_line(name: &str, line: u64) -> ShortText
    requires { length name.now ≤ 32 }
    ensures { result ≡ graph_fault_line name.now line }
{
    let mut text = ShortText::new();
    text.push(b"mdt: graph ");
    text.push(name.as_bytes());
    text.push(b" line ");
    text.push_decimal(line);
    text.push(b"\n");
    text
}

fn fault_line(fault: Fault) -> ShortText
    ensures { result ≡ fault_line fault }
{
    match fault {
        Fault::Graph6(fault) => graph_fault_line(g6_name(fault.kind), fault.line),
        Fault::Dimacs(fault) => graph_fault_line(dimacs_name(fault.kind), fault.line),
        Fault::NotOneGraph(count) => count_line(count),
        Fault::Script(kind, line) => script_fault_line(script_name(kind), line),
    }
}

fn count_line(count: u64) -> ShortText
    ensures { result ≡ fault_line (Fault.NotOneGraph count) }
{
    let mut text = ShortText::new();
    text.push(b"mdt: graph NotOneGraph count ");
    text.push_decimal(count);
    text.push(b"\n");
    text
}

fn script_fault_line(name: &str, line: u64) -> ShortText
    requires { length name.now ≤ 32 }
    ensures { result ≡ script_fault_line name.now line }
{
    let mut text = ShortText::new();
    text.push(b"mdt: script ");
    text.push(name.as_bytes());
    text.push(b" line ");
    text.push_decimal(line);
    text.push(b"\n");
    text
}

pub(crate) fn fixed_line(line: &[u8]) -> ShortText
    requires { length line.now ≤ 32 }
    ensures { result ≡ line.now }
{
    let mut text = ShortText::new();
    text.push(line);
    text
}

fn line_of_stop(stop: Stop) -> ShortText
    ensures { result ≡ line_of_stop stop }
{
    match stop {
        Stop::Usage => fixed_line(b"mdt: usage\n"),
        Stop::BadInput(fault) => fault_line(fault),
        Stop::ReadFault => fixed_line(b"mdt: read fault\n"),
        Stop::WriteFault => fixed_line(b"mdt: write fault\n"),
        Stop::Memory => fixed_line(b"mdt: memory\n"),
        Stop::TooLong => fixed_line(b"mdt: too long\n"),
    }
}

/// Puts the line of what stopped a run, in one put. A refused put is left at that.
pub fn put_line<E: Sink>(err: &mut E, stop: Stop)
    ensures { TakesLine (line_of_stop stop) (sink_run E.Sink err.old err.new)
        (E.wants err.old) (E.wants err.new) }
{
    let line = line_of_stop(stop);
    let _ = err.put(line.as_slice());
}
