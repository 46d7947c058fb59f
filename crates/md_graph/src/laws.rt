//! The laws of names and graphs, each the contract of a function that does nothing.
ghost use Rattle.std.specs.Prelude.{◌≡◌};
ghost use Rattle.md_graph.specs.Laws.{GraphWithoutVerticesIsEmpty};

use crate::{NAMES, WORDS};

/// There are 16,384 names.
pub fn number_of_names()
    ensures number { NAMES ≡ 16384 }
{}

/// The rows of the largest graphs have 256 words.
pub fn number_of_words()
    ensures number { WORDS ≡ 256 }
{}

/// A graph without vertices is the empty graph.
pub fn graph_without_vertices_is_empty()
    ensures law { GraphWithoutVerticesIsEmpty }
{}
