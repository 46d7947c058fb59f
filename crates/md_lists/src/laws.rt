//! The laws of lists in place, each the contract of a function that does nothing.
ghost use Rattle.std.specs.Prelude.{◌≡◌};

use crate::PLACES;

/// There are 32,800 places.
pub fn number_of_places()
    ensures { PLACES ≡ 32800 }
{}
