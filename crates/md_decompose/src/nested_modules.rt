//! The modules of a set that hold its least name, each inside the next, by which a search grew: the
//! first child of the set has the same least name, and need not grow them again.
ghost use Rattle.std.specs.Prelude.{◌*◌, ◌≡◌, ◌<◌, ◌≤◌, ◌-◌, ◌++◌, ◌∷◌, [], ℕ, Contains, IfOk, length};
ghost use Rattle.std.specs.FinSet.{difference};
ghost use Rattle.md_graph.specs.NameSet.{ascending};
ghost use Rattle.md_decompose.specs.Chains.{with_names, step_at, taken_with, IsChainFront};

use md_graph::{Memory, Set, WORDS};
use std::alloc::Global;

// A module of the chain: how many names were taken before it and with it, beside the least name,
// and the name that led to it.
#[derive(Clone, Copy)]
pub(crate) struct Step {
    from: usize,
    to: usize,
    led: u32,
}

// The names in the order in which they were taken, and the modules.
#[derive(Drop)]
pub(crate) struct Nested {
    taken: Vec<u32>,
    steps: Vec<Step>,
}

impl Nested {
    // No module but the least name alone.
    pub(crate) fn none(alloc: Global) -> Nested
        ensures taken { result.taken.items ≡ [] }
        ensures steps { result.steps.items ≡ [] }
    {
        Nested {
            taken: Vec::new(alloc),
            steps: Vec::new(alloc),
        }
    }

    // The last module of a chain whose least name is `v`, in sets of `W` words.
    pub(crate) fn names<const W: usize>(&self, v: u32) -> Set<W>
        requires limit { W ≤ WORDS }
        requires least { v < 64 * W }
        requires names { (x : ℕ) → Contains self.now.taken.items x → x < 64 * W }
        ensures { result ≡ with_names v self.now.taken.items }
    {
        let mut names = Set::from_list(&self.taken);
        names.insert(v);
        names
    }

    // The name that led to the last module; `v` where none did.
    pub(crate) fn last_led(&self, v: u32) -> u32
        ensures none { length self.now.steps.items ≡ 0 → result ≡ v }
        ensures some { 0 < length self.now.steps.items
            → result ≡ (step_at self.now.steps.items (length self.now.steps.items - 1)).led }
    {
        match self.steps.last() {
            Some(step) => step.led,
            None => v,
        }
    }

    // One more module, which grew from the last one, `begun`, after `led`.
    pub(crate) fn push<const W: usize>(
        &mut self,
        begun: &Set<W>,
        held: &Set<W>,
        led: u32,
    ) -> Result<(), Memory>
        ensures taken { IfOk result (λ _. self.new.taken.items
            ≡ self.old.taken.items ++ ascending (difference held.now begun.now)) }
        ensures steps { IfOk result (λ _. self.new.steps.items ≡ self.old.steps.items
            ++ record {
              from = length self.old.taken.items;
              to = length self.new.taken.items;
              led = led;
            } ∷ []) }
    {
        let from = self.taken.len();
        take_members(&mut self.taken, &held.minus(begun))?;
        let to = self.taken.len();
        self.steps.push(Step { from, to, led })?;
        Ok(())
    }

    // The modules with at most `most` names. They are copied, so that no chain keeps more room than
    // for the names of its set.
    pub(crate) fn within(&self, alloc: Global, most: usize) -> Result<Nested, Memory>
        requires { (k : ℕ) → k < length self.now.steps.items
            → (step_at self.now.steps.items k).to ≤ length self.now.taken.items }
        ensures { IfOk result (λ front. IsChainFront self.now most front) }
    {
        let count = count_within(&self.steps, most);
        let to = end_of(&self.steps, count);
        Ok(Nested {
            taken: Vec::from_slice(alloc, &self.taken[..to])?,
            steps: Vec::from_slice(alloc, &self.steps[..count])?,
        })
    }
}

// Takes the members of a set, in ascending order.
fn take_members<const W: usize>(taken: &mut Vec<u32>, names: &Set<W>) -> Result<(), Memory>
    ensures { IfOk result (λ _. taken.new.items ≡ taken.old.items ++ ascending names.now) }
{
    for name in names.members() {
        taken.push(name)?;
    }
    Ok(())
}

// How many of the first modules end within `most` names, the least one among them.
fn count_within(steps: &[Step], most: usize) -> usize
    ensures known { result ≤ length steps.now }
    ensures inside { 0 < result → taken_with steps.now result < most }
    ensures beyond { (k : ℕ) → result ≤ k → k < length steps.now → most ≤ (step_at steps.now k).to }
{
    let mut count = steps.len();
    while count > 0 {
        if steps[count - 1].to < most {
            return count;
        }
        count -= 1;
    }
    0
}

// How many names are taken with the first `count` modules.
fn end_of(steps: &[Step], count: usize) -> usize
    requires { count ≤ length steps.now }
    ensures { result ≡ taken_with steps.now count }
{
    if count == 0 {
        return 0;
    }
    steps[count - 1].to
}
