//! The lines that are the same in each report of a mode.
ghost use Rattle.std.specs.Prelude.{◌≡◌, ◌↔◌, IsTrue};
ghost use Rattle.md_report.specs.Lines.{head, head_class, session_head, end};
ghost use Rattle.md_checker.specs.ReportLines.{plain_report_line};

use crate::report_line::ReportLine;
use md_bar::Class;
use md_report::{Line, Mode, SessionMode};

// Whether the line is the head of a report of this mode.
pub(crate) fn is_head(line: &ReportLine<'_>, mode: Mode) -> bool
    ensures { IsTrue result ↔ plain_report_line line.now ≡ head mode }
{
    match line {
        ReportLine::Plain(Line::Head(named)) => *named == mode,
        _ => false,
    }
}

// Whether the line is the head of a report of a session of this mode.
pub(crate) fn is_session_head(line: &ReportLine<'_>, mode: SessionMode) -> bool
    ensures { IsTrue result ↔ plain_report_line line.now ≡ session_head mode }
{
    match mode {
        SessionMode::Edit => is_head(line, Mode::Edit),
        SessionMode::Cograph => is_head(line, Mode::Cograph),
        SessionMode::Quiet => is_head(line, Mode::Quiet),
        SessionMode::Of(class) => is_class_head(line, class),
    }
}

// Whether the line is the head of a report of a session on this class.
fn is_class_head(line: &ReportLine<'_>, class: Class) -> bool
    ensures { IsTrue result ↔ plain_report_line line.now ≡ head_class class }
{
    match line {
        ReportLine::Head(named) => *named == class,
        _ => false,
    }
}

// Whether the line is the last one.
pub(crate) fn is_end(line: &ReportLine<'_>) -> bool
    ensures { IsTrue result ↔ plain_report_line line.now ≡ end }
{
    match line {
        ReportLine::Plain(Line::End) => true,
        _ => false,
    }
}
