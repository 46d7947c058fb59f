//! Counters of steps.
ghost use Rattle.std.specs.Prelude.{◌≡◌, ◌<◌};

use md_graph::Steps;
use std::marker::Brand;
use std::mem::size_of;
use std::sync::ledger::{Blank, Ledger};

// Whether a counter that was made and ticked takes no bytes.
fn is_free<L: Ledger>(blank: Blank) -> bool
    requires name { blank.name ≡ L.name }
    requires parts { blank.parts ≡ L.parts }
    requires some { 0 < blank.parts }
{
    let mut steps = Steps::<L>::new(blank);
    steps.tick();
    size_of::<Steps<L>>() == 0
}

#[test]
fn takes_no_bytes(rt: HostRuntime) {
    assert!(rt; is_free::<Brand>(Blank::new(1)));
}
