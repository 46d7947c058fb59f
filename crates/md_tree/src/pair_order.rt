//! The order in which a prime node lists its pairs, and the positions that they may be of.
ghost use Rattle.std.specs.Prelude.{◌≡◌, ◌<◌, ◌+◌, ◌*◌, ◌↔◌, IsTrue};
ghost use Rattle.md_tree.specs.Spellings.{graph_pairs};
ghost use Rattle.md_tree.specs.StrongTrees.{IsPairBefore};
ghost use Rattle.md_tree.specs.Held.{MayFollow};

use crate::Pair;

// Whether a node with so many children may list the pair behind another one.
#[inline(always)]
pub(crate) fn is_listed_behind(last: Pair, pair: Pair, count: usize) -> bool
    ensures { IsTrue result ↔ MayFollow graph_pairs count last pair }
{
    is_before(last, pair) && is_of_positions(pair, count)
}

#[inline(always)]
fn is_before(first: Pair, second: Pair) -> bool
    ensures { IsTrue result ↔ IsPairBefore first second }
{
    first.low < second.low || first.low == second.low && first.high < second.high
}

#[inline(always)]
fn is_of_positions(pair: Pair, count: usize) -> bool
    ensures { IsTrue result ↔ ((pair.low < pair.high) × (pair.high < count)) }
{
    pair.low < pair.high && (pair.high as usize) < count
}
