//! Compares a text with the pairs of a prime node that a graph demands. No list of these is made.
ghost use Rattle.std.specs.Prelude.{◌≡◌, ◌≢◌, ◌≤◌, ℕ, List, true, [], ◌∷◌, ◌++◌, length, IfOk, IfSome, IfNone, MatchOption};
ghost use Rattle.md_graph.specs.declared.TheConstants.{NAMES, WORDS};
ghost use Rattle.md_tree.specs.TreeTexts.{pairs_text_by};
ghost use Rattle.md_outline.specs.HeadPairs.{head_pairs, SpellPositions};
ghost use Rattle.md_checker.specs.TextViews.{StandForChildren};

use crate::text_graph::TextGraph;
use md_blocks::{Compared, Differs};
use md_graph::{Memory, Set};
use md_outline::{PairSpace, put_row};
use md_text::skip_byte;
use md_tree::{Lettered, Paired};

// What stands behind the pairs of a prime node with these names of its children, and behind its
// bracket; none if the text doesn't begin with them, or if there is no pair. Condition: there are
// as few as names.
pub(crate) fn past_pairs<'a, K: Lettered, P: Paired, G: TextGraph<K, P, W>, const W: usize>(
    graph: &G,
    heads: &[u32],
    text: &'a [u8],
    space: &mut PairSpace,
) -> Result<Option<&'a [u8]>, Memory>
    requires limit { W ≤ WORDS }
    requires heads { StandForChildren (G.view graph.now).vertices true heads.now }
    requires few { length heads.now ≤ NAMES }
    ensures some { IfOk result (λ o. IfSome o (λ tail.
        head_pairs P.rules (G.view graph.now).lists heads.now ≢ [])) }
    ensures text { IfOk result (λ o. IfSome o (λ tail. text.now ≡ pairs_text_by P.rules 59
        (head_pairs P.rules (G.view graph.now).lists heads.now) ++ 41 ∷ tail.now)) }
    ensures none { IfOk result (λ o. IfNone o ((tail : List ℕ)
        → head_pairs P.rules (G.view graph.now).lists heads.now ≢ []
        → text.now ≢ pairs_text_by P.rules 59
        (head_pairs P.rules (G.view graph.now).lists heads.now) ++ 41 ∷ tail)) }
{
    space.places.spell(heads)?;
    let Some(rest) = past_heads::<K, P, G, W>(graph, heads, text, space) else {
        return Ok(None);
    };
    if rest.len() == text.len() {
        return Ok(None);
    }
    Ok(past_bracket(rest))
}

// What stands behind the bracket at the end of a node.
pub(crate) fn past_bracket(text: &[u8]) -> Option<&[u8]>
    ensures { MatchOption result ((tail : List ℕ) → text.now ≢ 41 ∷ tail)
        (λ tail. text.now ≡ 41 ∷ tail.now) }
{
    match skip_byte(text, b')') {
        Ok(tail) => Some(tail),
        Err(_) => None,
    }
}

// What stands behind the pairs of the heads; none if the text doesn't begin with them.
fn past_heads<'a, K: Lettered, P: Paired, G: TextGraph<K, P, W>, const W: usize>(
    graph: &G,
    heads: &[u32],
    text: &'a [u8],
    space: &mut PairSpace,
) -> Option<&'a [u8]>
    requires limit { W ≤ WORDS }
    requires heads { StandForChildren (G.view graph.now).vertices true heads.now }
    requires few { length heads.now ≤ NAMES }
    requires places { SpellPositions space.old.places 0 heads.now }
    ensures { MatchOption result
        ((tail : List ℕ) → text.now ≢ pairs_text_by P.rules 59
        (head_pairs P.rules (G.view graph.now).lists heads.now) ++ tail)
        (λ tail. text.now ≡ pairs_text_by P.rules 59
        (head_pairs P.rules (G.view graph.now).lists heads.now) ++ tail.now) }
{
    let _vertices = graph.vertices();
    space.chunk.clear();
    space.mark = b';';
    let all = Set::from_list(heads);
    let mut compared = Compared::new(text);
    for (position, head) in heads.iter().enumerate() {
        let (row, from) = graph.ahead(*head);
        let near = row.and(&all);
        let low = position as u32;
        match put_row::<P, Differs, Compared<'_>, W>(&mut compared, &near, from, low, space) {
            Ok(()) => {}
            Err(Differs) => return None,
        }
    }
    space.chunk.strip_from(&text[compared.same..])
}
