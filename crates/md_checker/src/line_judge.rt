//! The judge of whole reports, by their lines one after the other, whatever the lines are.
ghost use Rattle.std.specs.Prelude.{◌≡◌, ◌↔◌, ℕ, ◌<◌, List, [], ◌∷◌, ◌++◌, length, IfOk, IfSome, IfNone, IsErr, IsTrue};
ghost use Rattle.md_report.specs.Cuts.{LacksByte};
ghost use Rattle.md_report.specs.Protocols.{fed_by, CanEnd, IsLast, IsLineSpelling};
ghost use Rattle.md_checker.specs.Answers.{IsCheckAnswerBy, IsPlaceBehindBy};

use crate::answer::CheckAnswer;
use md_graph::Memory;
use md_text::split_line;
use std::alloc::Global;

/// What takes the lines of a report, one after the other: it stands at a place of the report.
pub trait LineJudge {
    // The places and the lines of its reports.
    ghost Place: { Type 0 };

    ghost Line: { Type 0 };

    // Which lines may come at a place, the place behind a line, the place at the end of a report,
    // and the text of a line.
    ghost may_come: { Place → Line → Type 0 };

    ghost next: { Place → Line → Place };

    ghost last: { Place };

    ghost line_text: { Line → List ℕ };

    // The place at which it stands.
    ghost place: { Self → Place };

    /// Whether a line with this text may come: it is then taken, and else nothing changes. Errors:
    /// want of memory; nothing changes then.
    fn feed_text(&mut self, alloc: Global, text: &[u8]) -> Result<bool, Memory>
        ensures may { IfOk result (λ taken. IsTrue taken
            ↔ ((line : Line) × may_come (place self.old) line × (text.now ≡ line_text line))) }
        ensures next { IfOk result (λ taken. IsTrue taken
            → (line : Line) × may_come (place self.old) line × (text.now ≡ line_text line)
            × (place self.new ≡ next (place self.old) line)) }
        ensures refused { IfOk result (λ taken.
            ¬ IsTrue taken → place self.new ≡ place self.old) }
        ensures stays { IsErr result → place self.new ≡ place self.old };

    /// Whether the report is at its end.
    fn complete(&self) -> bool
        ensures complete { IsTrue result ↔ place self.now ≡ last };

    // No line may come at the end.
    ghost ends: { IsLast may_come last };

    // No text of a line has a line feed, and each is of one line at most.
    ghost spells: { IsLineSpelling line_text };
}

/// The answer of a report, by its lines one after the other. The judge then stands behind those
/// that it took. Condition: wherever lines lead from the place of the judge, others lead on to the
/// end. Errors: want of memory.
pub fn judge<J: LineJudge>(
    alloc: Global,
    line_judge: &mut J,
    report: &[u8],
) -> Result<CheckAnswer, Memory>
    requires can_end { CanEnd J.may_come J.next J.last (J.place line_judge.old) }
    ensures answer { IfOk result (IsCheckAnswerBy J.may_come J.next (fed_by J.line_text) J.last
        (J.place line_judge.old) report.now) }
    ensures stands { IfOk result (λ answer. IsPlaceBehindBy J.may_come J.next (fed_by J.line_text)
        J.last (J.place line_judge.old) report.now answer (J.place line_judge.new)) }
{
    let mut rest = report;
    let mut line: u64 = 1;
    while !rest.is_empty() {
        let Some((text, behind)) = ended_line(rest) else {
            return Ok(CheckAnswer::Rejected(line));
        };
        if !line_judge.feed_text(alloc, text)? {
            return Ok(CheckAnswer::Rejected(line));
        }
        rest = behind;
        line += 1;
    }
    if !line_judge.complete() {
        return Ok(CheckAnswer::Rejected(line));
    }
    Ok(CheckAnswer::Accepted)
}

// The first line of a text, without the line feed that ends it, and what stands behind that; none
// where the text has no line feed.
fn ended_line(text: &[u8]) -> Option<(&[u8], &[u8])>
    ensures whole { IfSome result (λ p. text.now ≡ p.0.now ++ 10 ∷ p.1.now) }
    ensures lacks { IfSome result (λ p. LacksByte 10 p.0.now) }
    ensures none { IfNone result (LacksByte 10 text.now) }
    ensures shorter { IfSome result (λ p. length p.1.now < length text.now) }
{
    if text.is_empty() {
        return None;
    }
    let (line, behind) = split_line(text);
    if line.len() == text.len() {
        return None;
    }
    Some((line, behind))
}
