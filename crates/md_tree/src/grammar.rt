//! Says where bytes leave the grammar of trees' texts. Of each open node its kind alone is held.
//! Two other machines go over the same texts: `builder` makes the tree, and md_checker's `text_fit`
//! compares a text with a graph.
ghost use Rattle.std.specs.Prelude.{◌≡◌, ◌≢◌, ◌<◌, ◌≤◌, ℕ, List, true, false, [], ◌∷◌, length, take, slice_index, IfOk, IfErr, MatchOption};
ghost use Rattle.std.specs.Char.{is_ascii_digit};
ghost use Rattle.std.specs.List.{list_all};
ghost use Rattle.md_tree.specs.Spellings.{spelling};
ghost use Rattle.md_tree.specs.Grammar.{InGrammarBy, LeavesAtBy};
ghost use Rattle.md_text.specs.Fronts.{LacksFirst};
ghost use Rattle.md_tree.specs.Languages.{IsNumberBefore, IsNoNumber, GoesOn, IsStuck, PairThen, PairsThen, PairsGoOn, Tail, TreeThen, outermost_first, IsReadingTurn, ComesNext, IsTreeText};

use crate::{Lettered, Paired};
use md_graph::Memory;
use md_text::skip_byte;
use std::alloc::Global;

// One turn of the reading: what is left, and whether it stands behind a tree; or what is left where
// the text can't go on; or the end of a tree's text.
#[derive(Clone, Copy)]
pub(crate) enum Turn<'a> {
    Onward(&'a [u8], bool),
    Blocked(&'a [u8]),
    End,
}

// Where bytes leave the grammar; none if they are a text of it. Errors: out of memory.
pub(crate) fn leaves_grammar_at<K: Lettered, P: Paired>(
    alloc: Global,
    bytes: &[u8],
) -> Result<Option<u64>, Memory>
    ensures { IfOk result (λ place. MatchOption place
        (InGrammarBy (spelling K.rules P.rules) bytes.now)
        (LeavesAtBy (spelling K.rules P.rules) bytes.now)) }
{
    if let Ok(_) = skip_byte(bytes, b'e') {
        return Ok(leaves_word_at::<K, P>(bytes));
    }
    match leaves_at::<K, P>(alloc, bytes)? {
        Some(tail) => Ok(Some((bytes.len() - tail.len()) as u64)),
        None => Ok(None),
    }
}

// The same where the bytes begin as the word `empty` does.
fn leaves_word_at<K: Lettered, P: Paired>(bytes: &[u8]) -> Option<u64>
    requires { (x : List ℕ) × (bytes.now ≡ 101 ∷ x) }
    ensures { MatchOption result (InGrammarBy (spelling K.rules P.rules) bytes.now)
        (LeavesAtBy (spelling K.rules P.rules) bytes.now) }
{
    if bytes == b"empty".as_slice() {
        return None;
    }
    Some(common_front(bytes, b"empty") as u64)
}

// How many bytes two texts have in common before the first in which they differ.
fn common_front(text: &[u8], other: &[u8]) -> usize
    ensures within { result ≤ length text.now }
    ensures within_other { result ≤ length other.now }
    ensures same { (k : ℕ) → k < result → slice_index text.now k ≡ slice_index other.now k }
    ensures stops { result < length text.now → result < length other.now
        → slice_index text.now result ≢ slice_index other.now result }
{
    let count = text.len().min(other.len());
    for place in 0..count {
        if text[place] != other[place] {
            return place;
        }
    }
    count
}

// Where bytes leave the texts of trees: what is left there; none if they are such a text.
fn leaves_at<'a, K: Lettered, P: Paired>(
    alloc: Global,
    bytes: &'a [u8],
) -> Result<Option<&'a [u8]>, Memory>
    ensures { IfOk result (λ rest. MatchOption rest
        (IsTreeText (spelling K.rules P.rules) bytes.now)
        (λ tail. IsStuck (IsTreeText (spelling K.rules P.rules)) bytes.now tail.now)) }
{
    let mut opens = Vec::new(alloc);
    let mut rest = bytes;
    let mut behind = false;
    loop {
        match take_turn::<K, P>(rest, behind, &mut opens)? {
            Turn::Onward(tail, now_behind) => {
                rest = tail;
                behind = now_behind;
            }
            Turn::Blocked(tail) => return Ok(Some(tail)),
            Turn::End => return Ok(None),
        }
    }
}

fn take_turn<'a, K: Lettered, P: Paired>(
    text: &'a [u8],
    behind: bool,
    opens: &mut Vec<K>,
) -> Result<Turn<'a>, Memory>
    ensures { IfOk result (λ turn. (ks : List K) → opens.old.items ≡ outermost_first ks
        → IsReadingTurn (spelling K.rules P.rules)
        (ComesNext (spelling K.rules P.rules) behind ks) text.now turn opens.new.items) }
{
    if behind {
        return turn_behind::<K, P>(text, opens);
    }
    turn_due::<K, P>(text, opens)
}

// Where a tree is due: a name, or the beginning of a node.
fn turn_due<'a, K: Lettered, P: Paired>(
    text: &'a [u8],
    opens: &mut Vec<K>,
) -> Result<Turn<'a>, Memory>
    ensures { IfOk result (λ turn. (ks : List K) → opens.old.items ≡ outermost_first ks
        → IsReadingTurn (spelling K.rules P.rules) (TreeThen (spelling K.rules P.rules) ks)
        text.now turn opens.new.items) }
{
    if let Some((kind, behind)) = split_letter(text) {
        return open_node::<K, P>(text, kind, behind, opens);
    }
    match skip_number(text) {
        Ok(tail) => Ok(Turn::Onward(tail, true)),
        Err(tail) => Ok(Turn::Blocked(tail)),
    }
}

fn open_node<'a, K: Lettered, P: Paired>(
    text: &'a [u8],
    kind: K,
    behind: &'a [u8],
    opens: &mut Vec<K>,
) -> Result<Turn<'a>, Memory>
    requires { text.now ≡ K.rules.letter kind ∷ behind.now }
    ensures { IfOk result (λ turn. (ks : List K) → opens.old.items ≡ outermost_first ks
        → IsReadingTurn (spelling K.rules P.rules) (TreeThen (spelling K.rules P.rules) ks)
        text.now turn opens.new.items) }
{
    match skip_byte(behind, b'(') {
        Ok(tail) => {
            opens.push(kind)?;
            Ok(Turn::Onward(tail, false))
        }
        Err(tail) => Ok(Turn::Blocked(tail)),
    }
}

// Behind a tree: a comma, or the end of the innermost open node.
fn turn_behind<'a, K: Lettered, P: Paired>(
    text: &'a [u8],
    opens: &mut Vec<K>,
) -> Result<Turn<'a>, Memory>
    ensures { IfOk result (λ turn. (ks : List K) → opens.old.items ≡ outermost_first ks
        → IsReadingTurn (spelling K.rules P.rules) (Tail (spelling K.rules P.rules) ks)
        text.now turn opens.new.items) }
{
    match opens.pop() {
        Some(kind) => turn_inside::<K, P>(text, kind, opens),
        None => {
            if text.is_empty() {
                return Ok(Turn::End);
            }
            Ok(Turn::Blocked(text))
        }
    }
}

// The same in a node, which is taken off the open ones.
fn turn_inside<'a, K: Lettered, P: Paired>(
    text: &'a [u8],
    kind: K,
    opens: &mut Vec<K>,
) -> Result<Turn<'a>, Memory>
    ensures { IfOk result (λ turn. (ks : List K) → opens.old.items ≡ outermost_first ks
        → IsReadingTurn (spelling K.rules P.rules) (Tail (spelling K.rules P.rules) (kind ∷ ks))
        text.now turn opens.new.items) }
{
    if let Ok(tail) = skip_byte(text, b',') {
        opens.push(kind)?;
        return Ok(Turn::Onward(tail, false));
    }
    match skip_end::<K, P>(text, kind) {
        Ok(tail) => Ok(Turn::Onward(tail, true)),
        Err(tail) => Ok(Turn::Blocked(tail)),
    }
}

// Past the bracket behind the children of a node, and before it the pairs if its kind lists some.
fn skip_end<'a, K: Lettered, P: Paired>(text: &'a [u8], kind: K) -> Result<&'a [u8], &'a [u8]>
    requires { LacksFirst 44 text.now }
    ensures on { IfOk result (λ tail. (ks : List K)
        → GoesOn (Tail (spelling K.rules P.rules) (kind ∷ ks)) text.now
        (Tail (spelling K.rules P.rules) ks) tail.now) }
    ensures shorter { IfOk result (λ tail. length tail.now < length text.now) }
    ensures stuck { IfErr result (λ tail. (ks : List K)
        → IsStuck (Tail (spelling K.rules P.rules) (kind ∷ ks)) text.now tail.now) }
{
    if !kind.lists() {
        return skip_byte(text, b')');
    }
    let pairs = skip_byte(text, b';')?;
    skip_pairs::<K, P>(pairs)
}

// Past the pairs of a node and the bracket behind them, where the semicolon is read.
fn skip_pairs<'a, K: Lettered, P: Paired>(text: &'a [u8]) -> Result<&'a [u8], &'a [u8]>
    ensures on { IfOk result (λ tail. (ks : List K)
        → GoesOn (PairThen (spelling K.rules P.rules) ks) text.now
        (Tail (spelling K.rules P.rules) ks) tail.now) }
    ensures shorter { IfOk result (λ tail. length tail.now < length text.now) }
    ensures stuck { IfErr result (λ tail. (ks : List K)
        → IsStuck (PairThen (spelling K.rules P.rules) ks) text.now tail.now) }
{
    let mut rest = text;
    loop {
        let (tail, more) = skip_pair::<K, P>(rest)?;
        if !more {
            return Ok(tail);
        }
        rest = tail;
    }
}

// Past a pair and the mark behind it, which says whether another pair is due.
fn skip_pair<'a, K: Lettered, P: Paired>(text: &'a [u8]) -> Result<(&'a [u8], bool), &'a [u8]>
    ensures on { IfOk result (λ p. (ks : List K)
        → GoesOn (PairThen (spelling K.rules P.rules) ks) text.now
        (PairsGoOn (spelling K.rules P.rules) p.1 ks) p.0.now) }
    ensures shorter { IfOk result (λ p. length p.0.now < length text.now) }
    ensures stuck { IfErr result (λ tail. (ks : List K)
        → IsStuck (PairThen (spelling K.rules P.rules) ks) text.now tail.now) }
{
    let hyphen = skip_number(text)?;
    let high = skip_byte(hyphen, P::between())?;
    let mark = skip_number(high)?;
    skip_mark::<K, P>(mark)
}

fn skip_mark<'a, K: Lettered, P: Paired>(text: &'a [u8]) -> Result<(&'a [u8], bool), &'a [u8]>
    ensures on { IfOk result (λ p. (ks : List K)
        → GoesOn (PairsThen (spelling K.rules P.rules) ks) text.now
        (PairsGoOn (spelling K.rules P.rules) p.1 ks) p.0.now) }
    ensures shorter { IfOk result (λ p. length p.0.now < length text.now) }
    ensures stuck { IfErr result (λ tail. (ks : List K)
        → IsStuck (PairsThen (spelling K.rules P.rules) ks) text.now tail.now) }
{
    if let Ok(tail) = skip_byte(text, b',') {
        return Ok((tail, true));
    }
    let tail = skip_byte(text, b')')?;
    Ok((tail, false))
}

/// The kind that the first byte is the letter of, and what stands behind it.
pub fn split_letter<'a, K: Lettered>(text: &'a [u8]) -> Option<(K, &'a [u8])>
    ensures split { MatchOption result ((k : K) → LacksFirst (K.rules.letter k) text.now)
        (λ p. text.now ≡ K.rules.letter p.0 ∷ p.1.now) }
{
    let (first, tail) = text.split_first()?;
    let kind = K::of_letter(*first)?;
    Some((kind, tail))
}

// Past a number.
pub(crate) fn skip_number<'a>(text: &'a [u8]) -> Result<&'a [u8], &'a [u8]>
    ensures on { IfOk result (λ tail. IsNumberBefore text.now tail.now) }
    ensures stuck { IfErr result (λ tail. IsNoNumber text.now tail.now) }
{
    let end = digits_end(text);
    if end == 0 {
        return Err(text);
    }
    if end > 1 && text[0] == b'0' {
        return Err(&text[1..]);
    }
    Ok(&text[end..])
}

// How many digits a text begins with.
fn digits_end(text: &[u8]) -> usize
    ensures within { result ≤ length text.now }
    ensures digits { list_all is_ascii_digit (take result text.now) ≡ true }
    ensures stops { result < length text.now
        → is_ascii_digit (slice_index text.now result) ≡ false }
{
    for (count, byte) in text.iter().enumerate() {
        if !byte.is_ascii_digit() {
            return count;
        }
    }
    text.len()
}
