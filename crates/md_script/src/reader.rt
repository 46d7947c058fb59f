//! Reads a script.
ghost use Rattle.std.specs.Prelude.{◌≡◌, None, IfOk, IfErr, OnOk};
ghost use Rattle.md_text.specs.Fields.{fields};
ghost use Rattle.md_script.specs.Drafts.{draft_seen, draft_after};
ghost use Rattle.md_script.specs.File.{SpellsScript, first_fault};
ghost use Rattle.md_script.specs.Read.{IsFaultOf, IsRefusal};
ghost use Rattle.md_script.specs.Tokens.{fault_of_words};

use crate::draft::Draft;
use crate::line::Refusal;
use crate::token::read_token;
use crate::{Script, ScriptFault, ScriptKind};
use md_graph::Names;
use md_text::{split_field, split_line, without_return};
use std::alloc::Global;

/// Reads the script that bytes spell: each line that isn't skipped is an edit, an undo, or the
/// beginning or end of a group. Besides the script, only the neighbours of new vertices take
/// memory.
///
/// # Errors
///
/// It refuses exactly where the script has a fault, and names the first; or for want of memory.
pub fn read_script(alloc: Global, bytes: &[u8]) -> Result<Script, ScriptFault>
    ensures spells { IfOk result (λ script. SpellsScript bytes.now script) }
    ensures faultless { OnOk result (first_fault bytes.now ≡ None) }
    ensures fault { IfErr result (IsFaultOf bytes.now) }
{
    let mut draft = Draft::new(alloc);
    let mut names = Names::none();
    let mut rest = bytes;
    let mut count = 0u64;
    while !rest.is_empty() {
        let (line, more) = split_line(rest);
        rest = more;
        count += 1;
        match read_line(alloc, without_return(line), &mut names, &mut draft) {
            Ok(()) => {}
            Err(Refusal::Bad(kind)) => return Err(ScriptFault::Bad { kind, line: count }),
            Err(Refusal::Memory) => return Err(ScriptFault::Memory),
        }
    }
    if draft.is_open() {
        return Err(ScriptFault::Bad {
            kind: ScriptKind::OpenGroup,
            line: count + 1,
        });
    }
    Ok(draft.into_script())
}

// Reads one line, and puts its token behind the others, unless it is skipped. Neighbours are
// gathered in `names`; what it held is lost.
fn read_line(
    alloc: Global,
    line: &[u8],
    names: &mut Names,
    draft: &mut Draft,
) -> Result<(), Refusal>
    ensures read { OnOk result (draft.new ≡ draft_after draft.old (fields line.now)) }
    ensures faultless { OnOk result (fault_of_words (draft_seen draft.old) (fields line.now)
        ≡ None) }
    ensures fault { IfErr result
        (IsRefusal (fault_of_words (draft_seen draft.old) (fields line.now))) }
{
    let Some((first, rest)) = split_field(line) else {
        return Ok(());
    };
    if first[0] == b'#' {
        return Ok(());
    }
    let counted = draft.count();
    let token = read_token(alloc, counted, draft.is_open(), first, rest, names)?;
    draft.put(alloc, token)?;
    Ok(())
}
