//! The neighbours that a new vertex is to have.
ghost use Rattle.std.specs.Prelude.{◌≡◌, ◌<◌, ◌≤◌, ℕ, IfOk};
ghost use Rattle.std.specs.List.{All};
ghost use Rattle.md_graph.specs.NameSet.{ascending};
ghost use Rattle.md_script.specs.Neighbours.{IsNameList};

use md_graph::{Memory, Names};
use std::alloc::Global;
use std::marker::Model;

/// An ascending list of names without repeats.
#[derive(Debug, Drop)]
pub struct Neighbours {
    list: Vec<u32>,
}

impl Model for Neighbours {
    ghost use Rattle.std.specs.Prelude.{ℕ, List};

    ghost Value = { List ℕ };

    ghost use Rattle.md_script.specs.Neighbours.{IsNameList};

    ghost view = { λ n. n.list.items };

    ghost invariant = { λ n. IsNameList n.list.items };
}

impl Neighbours {
    /// The members of a set of names. One with no member takes no memory.
    pub fn new(alloc: Global, names: &Names) -> Result<Neighbours, Memory>
        ensures { IfOk result (λ n. n ≡ ascending names.now) }
    {
        let list = names.members().collect(alloc)?;
        Ok(Neighbours { list })
    }

    /// The names, ascending.
    pub fn as_slice(&self) -> &[u32]
        ensures list { result.now ≡ self.now }
        ensures names { IsNameList self.now }
    {
        self.list.as_slice()
    }

    // The least number above every name: 0 where there is none.
    pub(crate) fn bound(&self) -> u32
        ensures below { All (λ v. v < result) self.now }
        ensures least { (limit : ℕ) → All (λ v. v < limit) self.now → result ≤ limit }
    {
        match self.list.last() {
            Some(v) => *v + 1,
            None => 0,
        }
    }
}
