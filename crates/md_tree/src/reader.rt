//! Reads the text of a tree.
ghost use Rattle.std.specs.Prelude.{◌≡◌, ◌≢◌, ◌≤◌, ◌*◌, codes};
ghost use Rattle.md_graph.specs.declared.TheConstants.{WORDS};
ghost use Rattle.md_tree.specs.declared.reader.TreeFault.TheVariants.{Memory as NoMemory};
ghost use Rattle.md_tree.specs.Spellings.{spelling};
ghost use Rattle.md_tree.specs.Held.{AreUseless};
ghost use Rattle.md_tree.specs.Reading.{IsTreeReading, IsTreeReadingBelow};

use crate::builder::tree_of_text;
use crate::grammar::leaves_grammar_at;
use crate::{Kind, Lettered, Pair, Paired, Tree, TreeOf};
use md_graph::{Memory, WORDS};
use std::alloc::Global;
use thiserror::Error;

/// Why a text is not read as a tree.
#[derive(Clone, Copy, Debug, PartialEq, Eq, Error)]
pub enum TreeFault {
    /// The bytes are not in the grammar of trees' texts.
    #[error("byte {place} is not one that a tree's text may have there")]
    Syntax {
        /// How many bytes at the beginning still begin a text of the grammar.
        place: u64,
    },
    /// The bytes are in the grammar, but are the text of no well-formed tree.
    #[error("the text is not that of a well-formed tree")]
    NotCanonical,
    /// Out of memory.
    #[error("out of memory")]
    Memory,
}

impl From<Memory> for TreeFault {
    ghost from_gives = { λ _ fault. fault ≡ NoMemory };

    fn from(_error: Memory) -> TreeFault {
        TreeFault::Memory
    }
}

/// The tree with this text, none for the word `empty`. A well-formed tree is built while its text
/// is read, once; where that is given up, the text is gone through by the grammar alone, of each
/// open node its kind. No call nests as deep as the tree. Errors: where the bytes leave the
/// grammar; or they are the text of no well-formed tree; or want of memory.
pub fn read_tree(alloc: Global, bytes: &[u8]) -> Result<Option<Tree>, TreeFault>
    ensures reading { IsTreeReading bytes.now result }
{
    read_tree_of::<Kind, Pair, WORDS>(alloc, bytes)
}

/// The same of trees over any kinds and pairs that are spelled, and of names below `64 * W`.
/// Condition: `W` is at most `WORDS`.
pub fn read_tree_of<K: Lettered, P: Paired, const W: usize>(
    alloc: Global,
    bytes: &[u8],
) -> Result<Option<TreeOf<K, P>>, TreeFault>
    requires limit { W ≤ WORDS }
    ensures reading { IsTreeReadingBelow (spelling K.rules P.rules) (64 * W) bytes.now result }
{
    if bytes == b"empty".as_slice() {
        return Ok(None);
    }
    if let Some(tree) = tree_of_text::<K, P, W>(alloc, bytes)? {
        return Ok(Some(tree));
    }
    refuse::<K, P, W>(alloc, bytes)
}

// Why bytes are not read that are no well-formed tree's text. Not inlined, so that the loop over a
// tree's text stays small.
#[inline(never)]
fn refuse<K: Lettered, P: Paired, const W: usize>(
    alloc: Global,
    bytes: &[u8],
) -> Result<Option<TreeOf<K, P>>, TreeFault>
    requires tree { AreUseless (spelling K.rules P.rules) (64 * W) bytes.now }
    requires word { bytes.now ≢ codes "empty" }
    ensures { IsTreeReadingBelow (spelling K.rules P.rules) (64 * W) bytes.now result }
{
    match leaves_grammar_at::<K, P>(alloc, bytes)? {
        Some(place) => Err(TreeFault::Syntax { place }),
        None => Err(TreeFault::NotCanonical),
    }
}
