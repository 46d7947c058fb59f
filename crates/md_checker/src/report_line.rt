//! Lines of reports as they are judged.
ghost use Rattle.std.specs.Prelude.{◌≡◌, ◌≢◌, ℕ, MatchOption};
ghost use Rattle.md_bar_tree.specs.declared.Bar.{Bar};
ghost use Rattle.md_report.specs.Lines.{path_bar, barred, refused_bar, group_refused_bar};
ghost use Rattle.md_bar.specs.ClassLines.{plain_class_line};
ghost use Rattle.md_checker.specs.ReportLines.{plain_report_line};

use md_bar::{Bar, BarKind, Class, ClassLine};
use md_modules::P4;
use md_report::Line;

// A line of a report, lent: as sessions on all graphs and reports over graphs have it, or with a
// class or a bar of any kind.
#[derive(Clone, Copy)]
pub(crate) enum ReportLine<'a> {
    Plain(&'a Line),
    // The first line: the class of the session.
    Head(Class),
    // The first graph has this bar.
    First(Bar),
    // The edit was refused, since the graph after it has this bar.
    Refused(Bar),
    // A group was refused, since the graph after its edit with this number has this bar.
    GroupRefused(u64, Bar),
}

impl<'a> ReportLine<'a> {
    // The line of a report of a session on a class.
    pub(crate) fn of_class(line: &'a ClassLine) -> ReportLine<'a>
        ensures { plain_report_line result ≡ plain_class_line line.now }
    {
        match line {
            ClassLine::Head(class) => ReportLine::Head(*class),
            ClassLine::Plain(plain) => ReportLine::Plain(plain),
            ClassLine::First(bar) => ReportLine::First(*bar),
            ClassLine::Refused(bar) => ReportLine::Refused(*bar),
            ClassLine::GroupRefused(number, bar) => ReportLine::GroupRefused(*number, *bar),
        }
    }

    // The bar of the first graph of which the line tells.
    pub(crate) fn first_bar(&self) -> Option<Bar>
        ensures { MatchOption result ((bar : Bar) → plain_report_line self.now ≢ barred bar)
            (λ bar. plain_report_line self.now ≡ barred bar) }
    {
        match self {
            ReportLine::First(bar) => Some(*bar),
            ReportLine::Plain(Line::NotCograph(p)) => Some(bar_of_path(p)),
            _ => None,
        }
    }

    // The bar with which the line refuses an edit.
    pub(crate) fn refused_bar(&self) -> Option<Bar>
        ensures { MatchOption result ((bar : Bar) → plain_report_line self.now ≢ refused_bar bar)
            (λ bar. plain_report_line self.now ≡ refused_bar bar) }
    {
        match self {
            ReportLine::Refused(bar) => Some(*bar),
            ReportLine::Plain(Line::RefusedP4(p)) => Some(bar_of_path(p)),
            _ => None,
        }
    }

    // The number of the edit of a group, and the bar with which the line refuses it.
    pub(crate) fn group_refused_bar(&self) -> Option<(u64, Bar)>
        ensures { MatchOption result ((number : ℕ) (bar : Bar)
            → plain_report_line self.now ≢ group_refused_bar number bar)
            (λ p. plain_report_line self.now ≡ group_refused_bar p.0 p.1) }
    {
        match self {
            ReportLine::GroupRefused(number, bar) => Some((*number, *bar)),
            ReportLine::Plain(Line::GroupRefusedP4(number, p)) => Some((*number, bar_of_path(p))),
            _ => None,
        }
    }
}

// The bar that an induced P4 is.
fn bar_of_path(p: &P4) -> Bar
    ensures { result ≡ path_bar p.now }
{
    Bar {
        kind: BarKind::P4,
        a: p.a,
        b: p.b,
        c: p.c,
        d: p.d,
    }
}
