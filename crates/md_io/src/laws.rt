//! The laws of the limit, each the contract of a function that does nothing.
ghost use Rattle.std.specs.Prelude.{◌≡◌};

use crate::LIMIT;

/// The most bytes of one file are 256 MiB.
pub fn limit_of_a_file()
    ensures { LIMIT ≡ 268435456 }
{}
