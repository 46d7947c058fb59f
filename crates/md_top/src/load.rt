//! Loads a file of a request.
ghost use Rattle.std.specs.Prelude.{◌≡◌, [], ◌∷◌, IfOk, IfErr};
ghost use Rattle.md_top.specs.Input.{files_run};
ghost use Rattle.md_top.specs.Loading.{Loads, StopsLoading};

use crate::stop::Stop;
use md_io::{Files, LIMIT};
use std::alloc::Global;

/// The bytes of the file of a name, within the limit.
pub fn load<F: Files>(alloc: Global, files: &mut F, name: &str) -> Result<Vec<u8>, Stop>
    ensures loaded { IfOk result (λ file.
        Loads (files_run F.Files files.old files.new) (name.now ∷ []) (file.items ∷ [])) }
    ensures stops { IfErr result
        (StopsLoading (files_run F.Files files.old files.new) (name.now ∷ [])) }
    ensures told { F.holds files.new ≡ F.holds files.old }
{
    let file = files.load(alloc, name, LIMIT)?;
    Ok(file)
}
