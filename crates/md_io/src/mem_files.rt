//! Files in memory.
ghost use Rattle.std.specs.Prelude.{◌≡◌, ◌≢◌, ◌⊎◌, ◌↔◌, ◌==◌, ℕ, ◌+◌, ◌-◌, ◌^◌, ◌<◌, ◌≤◌, List, [], ◌∷◌, ◌++◌, Bool, length, bytes_eq, if◌then◌else◌, IsTrue, IfOk, OnOk, OnErr, IsErrOf, IsOkUnless, All};
ghost use Rattle.md_io.specs.Told.{absent, file, IsToldAs, IsToldLonger, IsToldFile};
ghost use Rattle.md_io.specs.Count.{count_up, Rose, RoseBy};
ghost use Rattle.md_io.specs.Asked.{names};
ghost use Rattle.md_io.specs.MemFiles.{stored, failing_loads, load_count, no_load_fails, IsMemLoad};

use crate::asked::note;
use crate::failing::next_fails;
use crate::{Files, LIMIT, LoadFault};
use std::alloc::Global;
use std::collections::BTreeMap;

/// Files in memory, of which some loads fail by their number.
#[derive(Drop)]
pub struct MemFiles {
    alloc: Global,
    files: BTreeMap<String, Vec<u8>>,
    failing: Vec<u64>,
    loads: u64,
    faults: u64,
    taken: u64,
    overs: u64,
    asked: Vec<String>,
}

// Copies a whole file, or refuses it where it has more bytes than the limit: it then hands over one
// byte more than that.
fn hand_over(
    alloc: Global,
    bytes: &[u8],
    limit: u64,
    taken: &mut u64,
    overs: &mut u64,
) -> Result<Vec<u8>, LoadFault>
    ensures ok { IfOk result (λ copy. copy.items ≡ bytes.now) }
    ensures within { OnOk result (length bytes.now ≤ limit) }
    ensures ok_taken { OnOk result (taken.new ≡ count_up taken.old (length bytes.now)) }
    ensures too_long { IsErrOf result LoadFault.TooLong → limit < length bytes.now }
    ensures too_long_taken { IsErrOf result LoadFault.TooLong
        → taken.new ≡ count_up taken.old (limit + 1) }
    ensures over { IsErrOf result LoadFault.TooLong
        → LIMIT ≤ limit → overs.new ≡ count_up overs.old 1 }
    ensures no_over { overs.old ≢ overs.new
        → IsErrOf result LoadFault.TooLong × (LIMIT ≤ limit) }
    ensures memory { IsErrOf result LoadFault.Memory → taken.new ≡ taken.old }
    ensures not_failed { ¬ IsErrOf result LoadFault.Failed }
    ensures taken_never_falls { taken.old ≤ taken.new }
    ensures overs_never_fall { overs.old ≤ overs.new }
{
    if bytes.len() as u64 > limit {
        *taken = taken.saturating_add(limit + 1);
        if limit >= LIMIT {
            *overs = overs.saturating_add(1);
        }
        return Err(LoadFault::TooLong);
    }
    let copy = Vec::from_slice(alloc, bytes).map_err(|_| LoadFault::Memory)?;
    *taken = taken.saturating_add(bytes.len() as u64);
    Ok(copy)
}

impl MemFiles {
    /// No file yet. The loads whose numbers, counted from 1, stand in `failing` fail.
    pub fn new(alloc: Global, failing: Vec<u64>) -> MemFiles
        ensures empty { (name : List ℕ)
            → ⟦<MemFiles as Files>⟧.holds result name ≡ absent }
        ensures failing { failing_loads result ≡ failing.items }
        ensures loads { load_count result ≡ 0 }
        ensures faults { ⟦<MemFiles as Files>⟧.faults result ≡ 0 }
        ensures taken { ⟦<MemFiles as Files>⟧.taken result ≡ 0 }
        ensures overs { ⟦<MemFiles as Files>⟧.overs result ≡ 0 }
        ensures asked { ⟦<MemFiles as Files>⟧.asked result ≡ [] }
        ensures sure { IsTrue (⟦<MemFiles as Files>⟧.sure result)
            ↔ All (λ number. number < 1) failing.items }
    {
        MemFiles {
            alloc,
            files: BTreeMap::new(alloc),
            failing,
            loads: 0,
            faults: 0,
            taken: 0,
            overs: 0,
            asked: Vec::new(alloc),
        }
    }

    /// Stores a file, in place of one of the same name.
    ///
    /// For want of memory the files stay as they were. No count and no name changes.
    pub fn add(&mut self, name: &str, bytes: &[u8]) -> Result<(), LoadFault>
        ensures ok { OnOk result ((other : List ℕ)
            → ⟦<MemFiles as Files>⟧.holds self.new other
            ≡ (if bytes_eq name.now other then file bytes.now
            else ⟦<MemFiles as Files>⟧.holds self.old other)) }
        ensures err { OnErr result ((other : List ℕ)
            → ⟦<MemFiles as Files>⟧.holds self.new other
            ≡ ⟦<MemFiles as Files>⟧.holds self.old other) }
        ensures only_memory { IsOkUnless result LoadFault.Memory }
        ensures failing { failing_loads self.new ≡ failing_loads self.old }
        ensures loads { load_count self.new ≡ load_count self.old }
        ensures faults { ⟦<MemFiles as Files>⟧.faults self.new
            ≡ ⟦<MemFiles as Files>⟧.faults self.old }
        ensures taken { ⟦<MemFiles as Files>⟧.taken self.new
            ≡ ⟦<MemFiles as Files>⟧.taken self.old }
        ensures overs { ⟦<MemFiles as Files>⟧.overs self.new
            ≡ ⟦<MemFiles as Files>⟧.overs self.old }
        ensures asked { ⟦<MemFiles as Files>⟧.asked self.new
            ≡ ⟦<MemFiles as Files>⟧.asked self.old }
        ensures sure { ⟦<MemFiles as Files>⟧.sure self.new
            ≡ ⟦<MemFiles as Files>⟧.sure self.old }
    {
        let key = String::from_str(self.alloc, name).map_err(|_| LoadFault::Memory)?;
        let value = Vec::from_slice(self.alloc, bytes).map_err(|_| LoadFault::Memory)?;
        self.files
            .insert(key, value)
            .map_err(|_| LoadFault::Memory)?;
        Ok(())
    }
}

impl Files for MemFiles {
    ghost holds = { stored };

    ghost faults = { λ files. files.faults };

    ghost taken = { λ files. files.taken };

    ghost overs = { λ files. files.overs };

    ghost asked = { λ files. names files.asked.items };

    ghost sure = { no_load_fails };

    ghost load_gives = { IsMemLoad };

    ghost use Rattle.std.proofs.Common.{rules, tests, arith};

    ghost sure_below = { λ files h. Prim.grind arith };

    fn load(&mut self, alloc: Global, name: &str, limit: u64) -> Result<Vec<u8>, LoadFault> {
        let fails = next_fails(self.failing.as_slice(), self.loads);
        self.loads = self.loads.saturating_add(1);
        note(&mut self.asked, self.alloc, name)?;
        if fails {
            self.faults = self.faults.saturating_add(1);
            return Err(LoadFault::Failed);
        }
        let Some(bytes) = self.files.get(name) else {
            self.faults = self.faults.saturating_add(1);
            return Err(LoadFault::Failed);
        };
        hand_over(
            alloc,
            bytes.as_slice(),
            limit,
            &mut self.taken,
            &mut self.overs,
        )
    }
}
