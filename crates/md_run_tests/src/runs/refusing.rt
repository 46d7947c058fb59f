//! Files that refuse each load.
ghost use Rattle.std.specs.Prelude.{◌≡◌, ◌⊎◌, ℕ, ◌+◌, ◌-◌, ◌^◌, ◌<◌, ◌≤◌, List, [], ◌∷◌, ◌++◌, Bool, false, Vec, length, IsTrue, IfOk, IsErrOf};
ghost use Rattle.md_io.specs.Told.{untold, IsToldAs, IsToldLonger, IsToldFile};
ghost use Rattle.md_io.specs.Count.{count_up, Rose, RoseBy};
ghost use Rattle.md_io.specs.Asked.{names};

use md_io::{Files, LIMIT, LoadFault};
use std::alloc::Global;

// Files that each have more bytes than the limit of a run, or that have no memory for the bytes of
// one. A load with another limit finds no memory either.
#[derive(Drop)]
pub(super) struct RefusingFiles {
    alloc: Global,
    asked: Vec<String>,
    too_long: bool,
    taken: u64,
    overs: u64,
}

impl RefusingFiles {
    pub(super) fn new(alloc: Global, too_long: bool) -> RefusingFiles {
        RefusingFiles {
            alloc,
            asked: Vec::new(alloc),
            too_long,
            taken: 0,
            overs: 0,
        }
    }
}

impl Files for RefusingFiles {
    ghost holds = { λ _ _. untold };

    ghost faults = { λ _. 0 };

    ghost taken = { λ files. files.taken };

    ghost overs = { λ files. files.overs };

    ghost asked = { λ files. names files.asked.items };

    ghost sure = { λ _. false };

    ghost use Rattle.std.proofs.Common.{arith};

    ghost sure_below = { λ files h. Prim.grind arith };

    fn load(&mut self, _alloc: Global, name: &str, limit: u64) -> Result<Vec<u8>, LoadFault> {
        let name = String::from_str(self.alloc, name).map_err(|_| LoadFault::Memory)?;
        self.asked.push(name).map_err(|_| LoadFault::Memory)?;
        if !self.too_long || limit != LIMIT {
            return Err(LoadFault::Memory);
        }
        self.taken = self.taken.saturating_add(limit).saturating_add(1);
        self.overs = self.overs.saturating_add(1);
        Err(LoadFault::TooLong)
    }
}
