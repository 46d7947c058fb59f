//! Lists in place.
ghost use Rattle.std.specs.Prelude.{◌≡◌, ◌<◌};

use md_graph::{Memory, Steps};
use md_lists::{Lists, PLACES, PlaceKind};
use std::alloc::Global;
use std::marker::Brand;
use std::mem::size_of;
use std::process::Abort;
use std::sync::ledger::{Blank, Ledger};
use std::test::Fail;

// Two children, the first of which is replaced.
fn replaces<L: Ledger, R: Abort>(rt: &R, alloc: Global, blank: Blank) -> Result<(), Memory>
    requires name { blank.name ≡ L.name }
    requires parts { blank.parts ≡ L.parts }
    requires some { 0 < blank.parts }
{
    let mut lists = Lists::new(alloc)?;
    let mut steps = Steps::<L>::new(blank);
    assert!(rt; lists.spare() > 0);
    let p = lists.make(PlaceKind::Series, &mut steps);
    assert!(rt; lists.spare() > 0);
    let a = lists.make(PlaceKind::Leaf(0), &mut steps);
    assert!(rt; lists.spare() > 0);
    let b = lists.make(PlaceKind::Leaf(1), &mut steps);
    assert!(rt; lists.spare() > 0);
    let c = lists.make(PlaceKind::Leaf(2), &mut steps);
    assert_eq!(rt; lists.spare(), 32796);
    lists.attach(p, a, &mut steps);
    lists.attach(p, b, &mut steps);
    lists.replace(a, c, &mut steps);
    assert_eq!(rt; lists.first_child(p, &mut steps), Some(c));
    assert_eq!(rt; lists.next_sibling(c, &mut steps), Some(b));
    assert_eq!(rt; lists.next_sibling(b, &mut steps), None);
    assert_eq!(rt; lists.child_count(p, &mut steps), 2);
    assert_eq!(rt; lists.parent(a, &mut steps), None);
    assert_eq!(rt; lists.parent(c, &mut steps), Some(p));
    Ok(())
}

#[test]
fn first_of_two_children_is_replaced(rt: HostRuntime) -> Result<(), Fail> {
    replaces::<Brand, HostRuntime>(&rt, rt.alloc(), Blank::new(1))?;
    Ok(())
}

// All that is kept of a place is in the nine `Vec`s; the marks, beside them, are a span as each
// place has one.
#[test]
fn a_place_takes_at_most_80_bytes(rt: HostRuntime) {
    let kind = size_of::<Option<PlaceKind>>();
    let links = 4 * size_of::<Option<u32>>();
    let numbers = 3 * size_of::<u32>();
    let vecs = 9 * size_of::<Vec<u32>>();
    assert!(rt; kind + links + numbers + size_of::<Lists>() <= 80 + vecs);
    assert_eq!(rt; PLACES, 32800);
}
