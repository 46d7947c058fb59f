//! The list of the names that were asked for.
ghost use Rattle.std.specs.Prelude.{◌≡◌, [], ◌∷◌, ◌++◌, OnOk, OnErr, IsOkUnless};
ghost use Rattle.md_io.specs.Asked.{names};

use crate::LoadFault;
use std::alloc::Global;

// Notes a name at the end of the list. For want of memory the list stays as it was.
pub(crate) fn note(asked: &mut Vec<String>, alloc: Global, name: &str) -> Result<(), LoadFault>
    ensures ok { OnOk result (names asked.new.items ≡ names asked.old.items ++ name.now ∷ []) }
    ensures err { OnErr result (names asked.new.items ≡ names asked.old.items) }
    ensures only_memory { IsOkUnless result LoadFault.Memory }
{
    let name = String::from_str(alloc, name).map_err(|_| LoadFault::Memory)?;
    asked.push(name).map_err(|_| LoadFault::Memory)?;
    Ok(())
}
