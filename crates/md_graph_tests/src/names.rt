//! Sets of names.
use md_graph::{NAMES, Names};

// The set of 63, 64, 127 and the last name: members on both sides of the borders between words.
fn borders() -> Names {
    let mut names = Names::none();
    names.insert(NAMES - 1);
    names.insert(63);
    names.insert(127);
    names.insert(64);
    names
}

#[test]
fn first_from_at_the_last_name(rt: HostRuntime) {
    let mut names = Names::none();
    names.insert(3);
    names.insert(NAMES - 1);
    assert_eq!(rt; names.first_from(4), Some(NAMES - 1));
    assert_eq!(rt; names.first_from(NAMES), None);
    assert_eq!(rt; names.last(), Some(NAMES - 1));
}

#[test]
fn members_across_words(rt: HostRuntime) {
    let mut names = borders();
    let listed = [63, 64, 127, NAMES - 1];
    let mut i = 0;
    for v in names.members() {
        assert!(rt; i < 4 && listed[i] == v, "member {v} at {i}");
        i += 1;
    }
    assert_eq!(rt; i, 4);
    assert_eq!(rt; names.count(), 4);
    assert!(rt; names.has(63) && names.has(64) && names.has(NAMES - 1));
    assert!(rt; !names.has(62) && !names.has(65) && !names.has(NAMES) && !names.has(u32::MAX));
    names.remove(64);
    assert_eq!(rt; names.first_from(64), Some(127));
    assert_eq!(rt; names.members_from(127).next(), Some(127));
    assert_eq!(rt; names.first_from(u32::MAX), None);
    names.clear();
    assert!(rt; names.is_empty());
}

#[test]
fn two_sets(rt: HostRuntime) {
    let first = borders();
    let mut second = Names::none();
    second.insert_block(64, (1 << 63) | 2);
    assert_eq!(rt; second.block(64), 0x8000_0000_0000_0002);
    assert_eq!(rt; first.block(0), 1 << 63);
    assert_eq!(rt; second.first_from(0), Some(65));
    let both = first.and(&second);
    assert!(rt; both.count() == 1 && both.has(127));
    let either = first.or(&second);
    assert!(rt; either.count() == 5 && either.has(65) && either.has(63));
    let rest = first.minus(&second);
    assert!(rt; rest.count() == 3 && !rest.has(127) && rest.has(NAMES - 1));
    let mut all = second.copy();
    all.union_with(&rest);
    assert_eq!(rt; all.count(), 5);
    assert!(rt; !all.is_empty());
}

#[test]
fn comparisons(rt: HostRuntime) {
    let mut names = borders();
    let mut more = Names::none();
    more.insert_range(63, 66);
    assert!(rt; more.count() == 66 && more.has(63) && more.has(128) && !more.has(62));
    assert!(rt; !more.has(129) && !more.is_same(&names) && !names.is_subset(&more));
    names.remove(NAMES - 1);
    assert!(rt; names.is_subset(&more) && !more.is_subset(&names) && !names.is_same(&more));
    names.insert_range(62, 67);
    names.insert_range(NAMES, 0);
    assert!(rt; !names.is_same(&more));
    names.remove(62);
    assert!(rt; names.is_same(&more) && names.is_subset(&more));
    more.insert_range(0, NAMES);
    assert_eq!(rt; more.count(), 16384);
}

#[test]
fn moves(rt: HostRuntime) {
    let mut second = Names::none();
    second.insert_block(64, (1 << 63) | 2);
    let mut names = borders();
    let mut to = Names::none();
    names.move_shared(&second, &mut to);
    assert!(rt; names.count() == 3 && !names.has(127) && to.count() == 1 && to.has(127));
    names.insert(65);
    names.move_unshared(&second, &mut to);
    assert!(rt; names.count() == 1 && names.has(65) && to.count() == 4 && to.has(NAMES - 1));
    let mut left = borders();
    assert_eq!(rt; left.first_in_symmetric_difference(&to, &to), None);
    assert_eq!(rt; left.first_in_symmetric_difference(&second, &to), Some(63));
    left.move_symmetric_difference(&second, &to, &mut names);
    assert!(rt; left.count() == 1 && left.has(127) && names.count() == 4 && names.has(64));
    assert_eq!(rt; left.first_in_symmetric_difference(&second, &to), None);
    left.symmetric_difference_with(&names);
    left.symmetric_difference_with(&second);
    assert!(rt; left.count() == 3 && left.has(64) && !left.has(65) && !left.has(127));
    names.set_to_difference(&borders(), &left, &second);
    assert!(rt; names.is_empty());
    left.remove(NAMES - 1);
    names.set_to_difference(&borders(), &left, &second);
    assert!(rt; names.count() == 1 && names.has(NAMES - 1));
}
