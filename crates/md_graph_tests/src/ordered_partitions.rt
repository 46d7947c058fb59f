//! Ordered partitions.
ghost use Rattle.std.specs.Prelude.{◌≡◌, ◌<◌};

use md_graph::{Memory, NAMES, Names, Steps};
use md_refine::Partition;
use std::alloc::Global;
use std::marker::Brand;
use std::process::Abort;
use std::sync::ledger::{Blank, Ledger};
use std::test::Fail;

// The set of these names, those that are below 4096.
fn set(list: &[u32]) -> Names {
    let mut names = Names::none();
    for v in list {
        if *v < 4096 {
            names.insert(*v);
        }
    }
    names
}

// Sees that the classes are these, each as the bits of its names.
fn sees<R: Abort>(rt: &R, partition: &Partition, classes: &[u64]) {
    assert_eq!(rt; partition.class_count() as usize, classes.len());
    for i in 0..partition.class_count() {
        let names = partition.class_names(i);
        assert_eq!(rt; names.block(0), classes[i as usize]);
        for v in names.members() {
            assert_eq!(rt; partition.class_of(v), Some(i));
        }
    }
}

// Sees that these are the numbers of the classes of the first names; no other name has one.
fn numbers_are<R: Abort>(
    rt: &R,
    alloc: Global,
    partition: &Partition,
    numbers: &[Option<u32>],
) -> Result<(), Memory> {
    let found = partition.class_numbers(alloc)?;
    assert_eq!(rt; found.len(), NAMES as usize);
    for (v, number) in found.iter().enumerate() {
        let expected = if v < numbers.len() { numbers[v] } else { None };
        assert_eq!(rt; *number, expected);
    }
    Ok(())
}

// Two cuts of the names 0 to 4, the first by a set with names outside.
fn cuts<L: Ledger, R: Abort>(rt: &R, alloc: Global, blank: Blank) -> Result<(), Memory>
    requires name { blank.name ≡ L.name }
    requires parts { blank.parts ≡ L.parts }
    requires some { 0 < blank.parts }
{
    let mut steps = Steps::<L>::new(blank);
    let none = Partition::new(alloc, &Names::none())?;
    assert!(rt; none.class_count() == 0 && none.class_of(0).is_none());
    let mut partition = Partition::new(alloc, &set(&[0, 1, 2, 3, 4]))?;
    sees(rt, &partition, &[0b11111]);
    partition.refine(&set(&[1, 3, 5, 4095]), &mut steps);
    sees(rt, &partition, &[0b01010, 0b10101]);
    partition.refine(&set(&[0, 1]), &mut steps);
    sees(rt, &partition, &[0b00010, 0b01000, 0b00001, 0b10100]);
    let numbers = [Some(2), Some(0), Some(3), Some(1), Some(3), None];
    numbers_are(rt, alloc, &partition, &numbers)?;
    assert!(rt; partition.class_of(5).is_none() && partition.class_of(4096).is_none());
    touches(rt, alloc, &mut steps)
}

// One of three names touched and cut off; and cuts that leave the class of a name as it is.
fn touches<L: Ledger, R: Abort>(rt: &R, alloc: Global, steps: &mut Steps<L>) -> Result<(), Memory> {
    let mut three = Partition::new(alloc, &set(&[2, 4, 7]))?;
    assert!(rt; three.class_of(4).is_some());
    three.touch(4, steps);
    sees(rt, &three, &[0b10010100]);
    assert!(rt; three.settle(steps));
    sees(rt, &three, &[0b00010000, 0b10000100]);
    assert!(rt; !three.settle(steps));
    three.refine_outside(7, &set(&[1, 2, 4]));
    sees(rt, &three, &[0b00010000, 0b10000100]);
    three.refine_outside(4, &set(&[2, 4]));
    sees(rt, &three, &[0b00010000, 0b00000100, 0b10000000]);
    Ok(())
}

#[test]
fn names_are_cut_twice(rt: HostRuntime) -> Result<(), Fail> {
    cuts::<Brand, HostRuntime>(&rt, rt.alloc(), Blank::new(1))?;
    Ok(())
}
