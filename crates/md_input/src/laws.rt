//! What holds of the numbers of this crate. Each function has an empty body, and its contract is
//! the law.
ghost use Rattle.std.specs.Prelude.{◌≡◌};

use crate::BROAD;

/// How many names fit into rows of sixty-four words.
pub fn names_of_broad_rows()
    ensures { BROAD ≡ 4096 }
{}
