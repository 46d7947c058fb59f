//! Sets in ascending order of their least names.
ghost use Rattle.std.specs.Prelude.{◌<◌, ℕ, IfOk, length};
ghost use Rattle.md_tree.specs.StrongTrees.{IsBefore};
ghost use Rattle.md_decompose.specs.Children.{set_at};
ghost use Rattle.md_modules.specs.Classes.{AreApart};
ghost use Rattle.md_decompose.specs.Marks.{AreMarks, ListsInOrder};

use md_graph::Memory;
use md_modules::CompactSet;
use std::alloc::Global;

// The least name of a class, and the class.
#[derive(Drop)]
struct Mark<const W: usize> {
    least: u32,
    class: CompactSet<W>,
}

/// `first` and then the classes, in ascending order of their least names. Conditions: no two
/// classes meet, none is empty, and `first` has a name below all of theirs. Errors: want of memory.
pub fn in_order<const W: usize>(
    alloc: Global,
    first: CompactSet<W>,
    classes: Vec<CompactSet<W>>,
) -> Result<Vec<CompactSet<W>>, Memory>
    requires apart { AreApart classes.items }
    requires lowest { (k : ℕ) → k < length classes.items
        → IsBefore first (set_at classes.items k) }
    ensures listed { IfOk result (λ sets. ListsInOrder first.entry classes.entry.items sets.items) }
{
    let marks = marks(alloc, classes)?;
    let mut sets = Vec::with_capacity(alloc, marks.len() + 1)?;
    sets.push_reserved(first);
    for mark in marks {
        sets.push_reserved(mark.class);
    }
    Ok(sets)
}

// One mark of each class, in ascending order of their least names.
fn marks<const W: usize>(alloc: Global, classes: Vec<CompactSet<W>>) -> Result<Vec<Mark<W>>, Memory>
    requires { AreApart classes.items }
    ensures { IfOk result (λ marks. AreMarks classes.entry.items marks.items) }
{
    let mut marks = Vec::with_capacity(alloc, classes.len())?;
    for class in classes {
        let Some(least) = class.first() else {
            unreachable!();
        };
        marks.push_reserved(Mark { least, class });
    }
    marks.sort_unstable_by_key(|mark| mark.least);
    Ok(marks)
}
