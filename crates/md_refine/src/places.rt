//! Classes in order: links from place to place in a vector.
ghost use Rattle.std.specs.Prelude.{◌≡◌, ◌≢◌, ℕ, ◌<◌, ◌≤◌, List, length, vec_len, IfOk, Some, None, IfSome, slice_index_or, ◌==◌, if◌then◌else◌};
ghost use Rattle.std.specs.List.{count_by, position_from};
ghost use Rattle.std.specs.FinSet as set;
ghost use Rattle.md_refine.specs.Slots.{IsPlaceOrder, IsPlaced, is_mark, is_mark_of, names_placed, position_of_mark};
ghost use Rattle.md_graph.specs.NameSet.{AllBelow, ascending_between};

use md_graph::{Memory, NAMES, Names, Set, copies_of};
use std::alloc::Global;

// The least number that all members of the set are below.
pub(crate) fn bound_of<const W: usize>(names: &Set<W>) -> u32
    ensures above { AllBelow names.now result }
    ensures few { result ≤ NAMES }
{
    match names.last() {
        Some(last) => last + 1,
        None => 0,
    }
}

// Where each member of the set has `Some(0)`, and each other number below `count` none.
// Errors: want of memory.
pub(crate) fn homes_of<const W: usize>(
    alloc: Global,
    count: u32,
    names: &Set<W>,
) -> Result<Vec<Option<u32>>, Memory>
    ensures len { IfOk result (λ v. length v.items ≡ count) }
    ensures homes { IfOk result (λ v. (k : ℕ) → k < count →
        slice_index_or v.items k None ≡ (if set.contains names.now k then Some 0 else None)) }
    ensures counts { IfOk result (λ v. (i : ℕ) → count_by (is_mark i) v.items
        ≡ (if i == 0 then length (ascending_between names.now 0 count) else 0)) }
{
    let mut homes = Vec::with_capacity(alloc, count as usize)?;
    for name in 0..count {
        homes.push_reserved(home_if(names.has(name)));
    }
    Ok(homes)
}

// `Some(0)` or none.
pub(crate) fn home_if(is: bool) -> Option<u32>
    ensures { result ≡ (if is then Some 0 else None) }
{
    if is { Some(0) } else { None }
}

// The mark of a name, none where it has none.
pub(crate) fn home_at(homes: &Vec<Option<u32>>, v: u32) -> Option<u32>
    ensures { result ≡ slice_index_or homes.now.items v None }
{
    if (v as usize) < homes.len() {
        homes[v as usize]
    } else {
        None
    }
}

// Takes `v` in, or not. Condition: it is a name.
pub(crate) fn insert_if(names: &mut Names, v: u32, is: bool)
    requires { v < NAMES }
    ensures { names.new ≡ (if is then set.insert names.old v else names.old) }
{
    if is {
        names.insert(v);
    }
}

// The position of a place in the order that begins at `first`, or none. Condition: the order has at
// most `count` places.
pub(crate) fn position(
    nexts: &Vec<Option<u32>>,
    first: Option<u32>,
    count: u32,
    place: u32,
) -> Option<u32>
    requires order { (order : List ℕ) × IsPlaceOrder nexts.now.items first order count }
    ensures position { (order : List ℕ) → IsPlaceOrder nexts.now.items first order count →
        result ≡ position_from (λ p. p == place) 0 order }
{
    let mut next = first;
    for index in 0..count {
        match next {
            Some(found) => {
                if found == place {
                    return Some(index);
                }
                next = nexts[found as usize];
            }
            None => return None,
        }
    }
    None
}

// The position of each place below `count` in the order that begins at `first`. Condition: the
// order has these places. Errors: want of memory.
pub(crate) fn positions_of(
    alloc: Global,
    nexts: &Vec<Option<u32>>,
    first: Option<u32>,
    count: u32,
) -> Result<Vec<u32>, Memory>
    requires order { (order : List ℕ) × IsPlaceOrder nexts.now.items first order count }
    ensures len { IfOk result (λ positions. length positions.items ≡ count) }
    ensures positions { IfOk result (λ positions. (order : List ℕ) →
        IsPlaceOrder nexts.now.items first order count → (q : ℕ) → q < count →
        position_from (λ p. p == q) 0 order ≡ Some (slice_index_or positions.items q 0)) }
{
    let mut positions = copies_of(alloc, count, 0)?;
    let mut next = first;
    for index in 0..count {
        match next {
            Some(place) => {
                positions[place as usize] = index;
                next = nexts[place as usize];
            }
            None => unreachable!(),
        }
    }
    Ok(positions)
}

// The position of the place of each mark, none where there is no mark. Condition: each mark has a
// place, and this a position. Errors: want of memory.
pub(crate) fn numbers_of(
    alloc: Global,
    homes: &Vec<Option<u32>>,
    owners: &Vec<u32>,
    positions: &Vec<u32>,
) -> Result<Vec<Option<u32>>, Memory>
    requires { (v i : ℕ) → slice_index_or homes.now.items v None ≡ Some i →
        IsPlaced owners.now.items positions.now.items i }
    ensures len { IfOk result (λ numbers. length numbers.items ≡ vec_len homes.now) }
    ensures numbers { IfOk result (λ numbers. (v : ℕ) → slice_index_or numbers.items v None
        ≡ position_of_mark owners.now.items positions.now.items
        (slice_index_or homes.now.items v None)) }
{
    let mut numbers = Vec::with_capacity(alloc, homes.len())?;
    for v in 0..homes.len() {
        numbers.push_reserved(number_at(homes[v], owners, positions));
    }
    Ok(numbers)
}

// The position of the place of a mark, or none. Condition: a mark has a place, and this a position.
fn number_at(home: Option<u32>, owners: &Vec<u32>, positions: &Vec<u32>) -> Option<u32>
    requires { IfSome home (IsPlaced owners.now.items positions.now.items) }
    ensures { result ≡ position_of_mark owners.now.items positions.now.items home }
{
    match home {
        Some(home) => Some(positions[owners[home as usize] as usize]),
        None => None,
    }
}

// The place at a position in the order that begins at `first`. Condition: the order has more than
// `index` places.
pub(crate) fn place_at(nexts: &Vec<Option<u32>>, first: Option<u32>, count: u32, index: u32) -> u32
    requires order { (order : List ℕ) × IsPlaceOrder nexts.now.items first order count }
    requires more { index < count }
    ensures place { (order : List ℕ) → IsPlaceOrder nexts.now.items first order count →
        result ≡ slice_index_or order index 0 }
{
    let mut next = first;
    for _ in 0..index {
        match next {
            Some(place) => next = nexts[place as usize],
            None => unreachable!(),
        }
    }
    next.unwrap_or(0)
}

// Whether a mark is one of a place. Condition: a mark has a place.
pub(crate) fn is_at(home: Option<u32>, owners: &Vec<u32>, place: u32) -> bool
    requires { IfSome home (λ i. i < vec_len owners.now) }
    ensures { result ≡ is_mark_of owners.now.items place home }
{
    match home {
        Some(home) => place == owners[home as usize],
        None => false,
    }
}

// The names whose mark is one of a place. Condition: each mark has a place.
pub(crate) fn names_at(homes: &Vec<Option<u32>>, owners: &Vec<u32>, place: u32) -> Names
    requires { (v i : ℕ) → slice_index_or homes.now.items v None ≡ Some i →
        i < vec_len owners.now }
    ensures { result ≡ set.from_list (names_placed homes.now.items owners.now.items NAMES place) }
{
    let mut names = Names::none();
    for v in 0..NAMES {
        insert_if(&mut names, v, is_at(home_at(homes, v), owners, place));
    }
    names
}
