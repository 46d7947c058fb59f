//! Words of bits: bit v % 64 of word v / 64 stands for the name v.
ghost use Rattle.std.specs.Prelude.{◌≡◌, nat_le, nat_lt, ◌&&◌, if◌then◌else◌, ◌≢◌, ◌∷◌, ℕ, length, slice_index, bit_and, bit_or, bit_xor, ◌+◌, ◌*◌, ◌^◌, ◌<◌, ◌≤◌, ◌↔◌, IsTrue, IfSome, IfNone, ◌==◌};
ghost use Rattle.std.specs.Int.{bit_at};
ghost use Rattle.std.specs.FinSet as set;
ghost use Rattle.md_graph.specs.Words.{AreBitsAmong, IsWithout, bit_of, names_below, bits_between, bit_apart};

use crate::{NAMES, WORDS};

// Words that are all 0.
pub(crate) fn no_words<const W: usize>() -> [u64; W]
    ensures size { length result ≡ W }
    ensures zeros { (k : ℕ) → slice_index result k ≡ 0 }
{
    [0; W]
}

// The first `used` words become 0. One alone, as in sets of small graphs, is no call of `memset`.
pub(crate) fn wipe(words: &mut [u64], used: usize)
    requires words_hold { used ≤ length words.old }
    ensures first { (k : ℕ) → k < used → slice_index words.new k ≡ 0 }
    ensures rest { (k : ℕ) → used ≤ k → slice_index words.new k ≡ slice_index words.old k }
{
    if used == 1 {
        words[0] = 0;
        return;
    }
    for i in 0..used {
        words[i] = 0;
    }
}

// Takes the bits of the first `used` words of `other` in.
pub(crate) fn join_in(words: &mut [u64], other: &[u64], used: usize)
    requires words_hold { used ≤ length words.old }
    requires other_hold { used ≤ length other.now }
    ensures first { (k : ℕ) → k < used
        → slice_index words.new k ≡ bit_or (slice_index words.old k) (slice_index other.now k) }
    ensures rest { (k : ℕ) → used ≤ k → slice_index words.new k ≡ slice_index words.old k }
{
    for i in 0..used {
        words[i] |= other[i];
    }
}

// Changes the bits that `other` has in its first `used` words.
pub(crate) fn flip_bits(words: &mut [u64], other: &[u64], used: usize)
    requires words_hold { used ≤ length words.old }
    requires other_hold { used ≤ length other.now }
    ensures first { (k : ℕ) → k < used
        → slice_index words.new k ≡ bit_xor (slice_index words.old k) (slice_index other.now k) }
    ensures rest { (k : ℕ) → used ≤ k → slice_index words.new k ≡ slice_index words.old k }
{
    for i in 0..used {
        words[i] ^= other[i];
    }
}

// In the first `used` words the bits that `row` has go to `to`.
pub(crate) fn move_both(words: &mut [u64], row: &[u64], to: &mut [u64], used: usize)
    requires words_hold { used ≤ length words.old }
    requires to_hold { used ≤ length to.old }
    requires row_hold { used ≤ length row.now }
    ensures first { (k : ℕ) → k < used → slice_index words.new k
        ≡ bit_xor (slice_index words.old k)
        (bit_and (slice_index words.old k) (slice_index row.now k)) }
    ensures rest { (k : ℕ) → used ≤ k → slice_index words.new k ≡ slice_index words.old k }
    ensures moved { (k : ℕ) → k < used → slice_index to.new k
        ≡ bit_or (slice_index to.old k)
        (bit_and (slice_index words.old k) (slice_index row.now k)) }
    ensures others { (k : ℕ) → used ≤ k → slice_index to.new k ≡ slice_index to.old k }
{
    for i in 0..used {
        let moved = words[i] & row[i];
        words[i] ^= moved;
        to[i] |= moved;
    }
}

// In the first `used` words the bits that `row` lacks go to `to`.
pub(crate) fn move_alone(words: &mut [u64], row: &[u64], to: &mut [u64], used: usize)
    requires words_hold { used ≤ length words.old }
    requires to_hold { used ≤ length to.old }
    requires row_hold { used ≤ length row.now }
    ensures first { (k : ℕ) → k < used → slice_index words.new k
        ≡ bit_and (slice_index words.old k) (slice_index row.now k) }
    ensures rest { (k : ℕ) → used ≤ k → slice_index words.new k ≡ slice_index words.old k }
    ensures moved { (k : ℕ) → k < used → slice_index to.new k ≡ bit_or (slice_index to.old k)
        (bit_xor (slice_index words.old k)
        (bit_and (slice_index words.old k) (slice_index row.now k))) }
    ensures others { (k : ℕ) → used ≤ k → slice_index to.new k ≡ slice_index to.old k }
{
    for i in 0..used {
        let stay = words[i] & row[i];
        to[i] |= words[i] ^ stay;
        words[i] = stay;
    }
}

// In the first `used` words the bits that exactly one of `first` and `second` has go to `to`.
pub(crate) fn move_apart(
    words: &mut [u64],
    first: &[u64],
    second: &[u64],
    to: &mut [u64],
    used: usize,
)
    requires words_hold { used ≤ length words.old }
    requires to_hold { used ≤ length to.old }
    requires first_hold { used ≤ length first.now }
    requires second_hold { used ≤ length second.now }
    ensures first { (k : ℕ) → k < used → slice_index words.new k ≡ bit_xor (slice_index words.old k)
        (bit_and (slice_index words.old k)
        (bit_xor (slice_index first.now k) (slice_index second.now k))) }
    ensures rest { (k : ℕ) → used ≤ k → slice_index words.new k ≡ slice_index words.old k }
    ensures moved { (k : ℕ) → k < used → slice_index to.new k ≡ bit_or (slice_index to.old k)
        (bit_and (slice_index words.old k)
        (bit_xor (slice_index first.now k) (slice_index second.now k))) }
    ensures others { (k : ℕ) → used ≤ k → slice_index to.new k ≡ slice_index to.old k }
{
    for i in 0..used {
        let moved = words[i] & (first[i] ^ second[i]);
        words[i] ^= moved;
        to[i] |= moved;
    }
}

// The first `used` words become the bits of `of` that neither `first` nor `second` has. The answer
// is 0 only where there are none.
pub(crate) fn keep_alone(
    words: &mut [u64],
    of: &[u64],
    first: &[u64],
    second: &[u64],
    used: usize,
) -> u64
    requires words_hold { used ≤ length words.old }
    requires of_hold { used ≤ length of.now }
    requires first_hold { used ≤ length first.now }
    requires second_hold { used ≤ length second.now }
    ensures first { (k : ℕ) → k < used → slice_index words.new k
        ≡ bit_xor (slice_index of.now k) (bit_and (slice_index of.now k)
        (bit_or (slice_index first.now k) (slice_index second.now k))) }
    ensures rest { (k : ℕ) → used ≤ k → slice_index words.new k ≡ slice_index words.old k }
    ensures none { result ≡ 0 → (k : ℕ) → k < used → slice_index words.new k ≡ 0 }
{
    let mut any = 0;
    for i in 0..used {
        let alone = of[i] ^ (of[i] & (first[i] | second[i]));
        words[i] = alone;
        any |= alone;
    }
    any
}

// How many words are in use: none where `any` is 0.
pub(crate) fn used_if(any: u64, used: usize) -> usize
    ensures none { any ≡ 0 → result ≡ 0 }
    ensures some { any ≢ 0 → result ≡ used }
    ensures few { result ≤ used }
{
    if any == 0 { 0 } else { used }
}

// The place of the lowest bit in the first `used` words that exactly one of `first` and `second`
// has.
pub(crate) fn first_apart(words: &[u64], first: &[u64], second: &[u64], used: usize) -> Option<u32>
    requires few { used ≤ WORDS }
    requires used { used ≤ length words.now }
    requires first { used ≤ length first.now }
    requires second { used ≤ length second.now }
    ensures found { IfSome result (λ least. (least < 64 * used)
        × (bit_apart words.now first.now second.now least ≡ 1)
        × ((q : ℕ) → q < least → bit_apart words.now first.now second.now q ≡ 0)) }
    ensures none { IfNone result ((q : ℕ) → q < 64 * used
        → bit_apart words.now first.now second.now q ≡ 0) }
{
    for i in 0..used {
        let apart = words[i] & (first[i] ^ second[i]);
        if apart != 0 {
            return Some(64 * i as u32 + apart.trailing_zeros());
        }
    }
    None
}

// The first `used` words become the bits that both have.
pub(crate) fn become_both(words: &mut [u64], first: &[u64], second: &[u64], used: usize)
    requires words_hold { used ≤ length words.old }
    requires first_hold { used ≤ length first.now }
    requires second_hold { used ≤ length second.now }
    ensures first { (k : ℕ) → k < used
        → slice_index words.new k ≡ bit_and (slice_index first.now k) (slice_index second.now k) }
    ensures rest { (k : ℕ) → used ≤ k → slice_index words.new k ≡ slice_index words.old k }
{
    for i in 0..used {
        words[i] = first[i] & second[i];
    }
}

// The first `used` words become the bits that either has.
pub(crate) fn become_either(words: &mut [u64], first: &[u64], second: &[u64], used: usize)
    requires words_hold { used ≤ length words.old }
    requires first_hold { used ≤ length first.now }
    requires second_hold { used ≤ length second.now }
    ensures first { (k : ℕ) → k < used
        → slice_index words.new k ≡ bit_or (slice_index first.now k) (slice_index second.now k) }
    ensures rest { (k : ℕ) → used ≤ k → slice_index words.new k ≡ slice_index words.old k }
{
    for i in 0..used {
        words[i] = first[i] | second[i];
    }
}

// The first `used` words become the bits of `first` that `second` doesn't have.
pub(crate) fn become_first_alone(words: &mut [u64], first: &[u64], second: &[u64], used: usize)
    requires words_hold { used ≤ length words.old }
    requires first_hold { used ≤ length first.now }
    requires second_hold { used ≤ length second.now }
    ensures first { (k : ℕ) → k < used
        → IsWithout (slice_index words.new k) (slice_index first.now k) (slice_index second.now k) }
    ensures rest { (k : ℕ) → used ≤ k → slice_index words.new k ≡ slice_index words.old k }
{
    for i in 0..used {
        words[i] = first[i] & !second[i];
    }
}

// The place of the lowest bit in the first `used` words that is not below `from`.
pub(crate) fn first_place(words: &[u64], from: u32, used: usize) -> Option<u32>
    requires few { used ≤ WORDS }
    requires used { used ≤ length words.now }
    ensures found { IfSome result (λ least. (least < 64 * used) × (from ≤ least)
        × (bit_of words.now least ≡ 1)
        × ((q : ℕ) → from ≤ q → q < least → bit_of words.now q ≡ 0)) }
    ensures none { IfNone result ((q : ℕ) → from ≤ q → q < 64 * used → bit_of words.now q ≡ 0) }
{
    let at = from as usize / 64;
    if used <= at {
        return None;
    }
    let begun = from_place(words[at], from % 64);
    if begun != 0 {
        return Some(64 * at as u32 + begun.trailing_zeros());
    }
    for i in at + 1..used {
        if words[i] != 0 {
            return Some(64 * i as u32 + words[i].trailing_zeros());
        }
    }
    None
}

// The place of the highest bit in the first `used` words.
pub(crate) fn last_place(words: &[u64], used: usize) -> Option<u32>
    requires few { used ≤ WORDS }
    requires used { used ≤ length words.now }
    ensures found { IfSome result (λ greatest. (greatest < 64 * used)
        × (bit_of words.now greatest ≡ 1)
        × ((q : ℕ) → greatest < q → q < 64 * used → bit_of words.now q ≡ 0)) }
    ensures none { IfNone result ((q : ℕ) → q < 64 * used → bit_of words.now q ≡ 0) }
{
    for i in (0..used).rev() {
        if words[i] != 0 {
            return Some(64 * i as u32 + highest(words[i]));
        }
    }
    None
}

// The place of the highest 1 of `bits`.
fn highest(bits: u64) -> u32
    requires { bits ≢ 0 }
    ensures place { result < 64 }
    ensures here { bit_at bits result ≡ 1 }
    ensures above { (k : ℕ) → result < k → bit_at bits k ≡ 0 }
{
    63 - bits.leading_zeros()
}

// How many bits of the first `used` words are 1.
pub(crate) fn count_bits(words: &[u64], used: usize) -> u32
    requires few { used ≤ WORDS }
    requires used { used ≤ length words.now }
    ensures { result ≡ set.len (names_below words.now (64 * used)) }
{
    let mut count = 0;
    for i in 0..used {
        count += words[i].count_ones();
    }
    count
}

// Whether the first `used` words are 0.
pub(crate) fn are_all_zero(words: &[u64], used: usize) -> bool
    requires { used ≤ length words.now }
    ensures { IsTrue result
        ↔ ((k i : ℕ) → k < used → i < 64 → bit_at (slice_index words.now k) i ≡ 0) }
{
    for i in 0..used {
        if words[i] != 0 {
            return false;
        }
    }
    true
}

// Whether the first `used` words are equal.
pub(crate) fn are_equal(first: &[u64], second: &[u64], used: usize) -> bool
    requires first { used ≤ length first.now }
    requires second { used ≤ length second.now }
    ensures { IsTrue result ↔ ((k i : ℕ) → k < used → i < 64
        → bit_at (slice_index first.now k) i ≡ bit_at (slice_index second.now k) i) }
{
    for i in 0..used {
        if first[i] != second[i] {
            return false;
        }
    }
    true
}

// Whether `second` has each bit of the first `used` words.
pub(crate) fn are_within(first: &[u64], second: &[u64], used: usize) -> bool
    requires first { used ≤ length first.now }
    requires second { used ≤ length second.now }
    ensures { IsTrue result ↔ ((k i : ℕ) → k < used → i < 64
        → bit_at (slice_index first.now k) i ≤ bit_at (slice_index second.now k) i) }
{
    for i in 0..used {
        if first[i] | second[i] != second[i] {
            return false;
        }
    }
    true
}

// Whether in the first `used` words `first` has no bit that neither `second` nor `first_known` has,
// and `second` none that neither `first` nor `second_known` has.
pub(crate) fn are_apart_as_known(
    first: &[u64],
    first_known: &[u64],
    second: &[u64],
    second_known: &[u64],
    used: usize,
) -> bool
    requires first { used ≤ length first.now }
    requires first_known { used ≤ length first_known.now }
    requires second { used ≤ length second.now }
    requires second_known { used ≤ length second_known.now }
    ensures { IsTrue result ↔ ((k : ℕ) → k < used
        → AreBitsAmong (slice_index first.now k)
        (bit_or (slice_index second.now k) (slice_index first_known.now k))
        × AreBitsAmong (slice_index second.now k)
        (bit_or (slice_index first.now k) (slice_index second_known.now k))) }
{
    let mut unknown = 0;
    for i in 0..used {
        let of_second = second[i] | first_known[i];
        let of_first = first[i] | second_known[i];
        unknown |= (first[i] | of_second) ^ of_second;
        unknown |= (second[i] | of_first) ^ of_first;
    }
    unknown == 0
}

// Which of the names `first + k`, k below 64, are from `from` on and below `to`. Condition: one of
// them is below `to`, and one isn't below `from`.
pub(crate) fn bits_of_range(first: u32, from: u32, to: u32) -> u64
    requires some { first < to }
    requires within { from < first + 64 }
    requires name { first < NAMES }
    ensures { (k : ℕ) → k < 64
        → (bit_at result k == 1) ≡ (nat_le from (first + k) && nat_lt (first + k) to) }
{
    from_place(
        below_place((to - first).min(64)),
        from.saturating_sub(first),
    )
}

// The bits below `place` alone.
fn below_place(place: u32) -> u64
    requires some { 0 < place }
    requires within { place ≤ 64 }
    ensures { (k : ℕ) → k < 64 → bit_at result k ≡ (if nat_lt k place then 1 else 0) }
{
    u64::MAX >> (64 - place)
}

// The bits of `word` from `place` on.
pub(crate) fn from_place(word: u64, place: u32) -> u64
    requires { place < 64 }
    ensures { (k : ℕ) → k < 64 → bit_at result k ≡ (if nat_le place k then bit_at word k else 0) }
{
    word >> place << place
}

/// The place of the lowest 1 of `bits`, and `bits` without it: for writers that take 64 names at
/// once by `Names::block`. Condition: there is a 1.
pub fn lowest(bits: u64) -> (u32, u64)
    requires some { bits ≢ 0 }
    ensures place { result.0 < 64 }
    ensures rest { (first : ℕ)
        → bits_between first bits 64 ≡ (first + result.0) ∷ bits_between first result.1 64 }
{
    (bits.trailing_zeros(), bits & (bits - 1))
}
