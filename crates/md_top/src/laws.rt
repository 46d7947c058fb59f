//! The laws of valid outputs, each the contract of a function that does nothing.
ghost use Rattle.std.specs.Prelude.{◌≡◌};
ghost use Rattle.md_top.specs.Laws.{FrontsBeginAnswers, OneOutput};

use crate::big::BIGGEST;

/// How many names a session over the edits that a number gives may have.
pub fn greatest_size()
    ensures { BIGGEST ≡ 4096 }
{}

/// What may be put before a fault is exactly the beginning of a whole valid output.
pub fn fronts_begin_answers()
    ensures { FrontsBeginAnswers }
{}

/// A request over given contents gives one output at most.
pub fn one_output()
    ensures { OneOutput }
{}
