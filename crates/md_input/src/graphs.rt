//! The graphs of a file, one after the other.
ghost use Rattle.std.specs.Prelude.{◌≡◌, ◌≤◌, [], ◌∷◌, None, Some, IfOk, IfErr, IsErr};
ghost use Rattle.std.specs.Bool.{OnTrue, OnFalse};
ghost use Rattle.md_graph.specs.PlainGraph.{empty_graph};
ghost use Rattle.md_input.specs.Spelling.{SpellsGraphs};
ghost use Rattle.md_input.specs.Faults.{graph_fault, IsStopAt};

use crate::fault::InputStop;
use crate::format::Format;
use crate::room::Room;
use md_graph::{Memory, NAMES};
use md_graph6::{Lines, scan};
use std::alloc::Global;
use std::marker::Model;

/// The graphs of a file that aren't handed over yet, whatever the format of the file.
#[derive(Drop)]
pub struct Graphs<'a> {
    first: Option<Room>,
    lines: Lines<'a>,
}

impl<'a> Model for Graphs<'a> {
    ghost use Rattle.std.specs.Prelude.{List, ◌++◌};
    ghost use Rattle.std.specs.Coded.{coded_list};
    ghost use Rattle.md_graph.specs.PlainGraph.{PlainGraph, graph_code};
    ghost use Rattle.md_input.specs.Graphs.{first_of};

    ghost Value = { List PlainGraph };

    ghost coded = { coded_list graph_code };

    ghost view = { λ g. first_of g.first ++ g.lines };
}

impl<'a> Graphs<'a> {
    /// The graphs of a file, which is read whole, under a limit of names; or its first fault; or
    /// want of memory. Condition: the limit is at most the number of names.
    pub fn read(
        alloc: Global,
        limit: u32,
        from: Format,
        file: &'a [u8],
    ) -> Result<Graphs<'a>, InputStop>
        requires { limit ≤ NAMES }
        ensures spells { IfOk result (SpellsGraphs from file.now) }
        ensures faultless { IfOk result (λ _. graph_fault limit from file.now ≡ None) }
        ensures stops { IfErr result (IsStopAt (graph_fault limit from file.now)) }
    {
        match from {
            Format::G6 => {
                scan(file, limit)?;
                Ok(Graphs {
                    first: None,
                    lines: Lines::new(file),
                })
            }
            Format::Dimacs => Ok(Graphs {
                first: Some(Room::of_edges(alloc, limit, file)?),
                lines: Lines::new(&[]),
            }),
        }
    }

    /// Makes the graph in the room the first of the graphs, takes that off, and answers true; a
    /// line is read into as few words a row as its graph needs. It answers false exactly where no
    /// graph is left, and the room then stays without vertices. Condition: the graph in the room
    /// has no vertices. Errors: want of memory; nothing changes then.
    pub fn next_into(&mut self, alloc: Global, room: &mut Room) -> Result<bool, Memory>
        requires { room.old ≡ empty_graph }
        ensures first { IfOk result (λ found. OnTrue found (self.old ≡ room.new ∷ self.new)) }
        ensures none { IfOk result (λ found. OnFalse found (self.old ≡ [])) }
        ensures none_left { IfOk result (λ found. OnFalse found (self.new ≡ [])) }
        ensures stays { IfOk result (λ found. OnFalse found (room.new ≡ empty_graph)) }
        ensures err { IsErr result → self.new ≡ self.old }
        ensures err_room { IsErr result → room.new ≡ empty_graph }
    {
        if self.first.is_some() && hand_over(&mut self.first, room) {
            return Ok(true);
        }
        room.fill(alloc, &mut self.lines)
    }
}

// The room whose graph is read already, if there is one, takes the place of the room; false where
// there is none. Never inlined, so that graphs of lines don't pay for the move.
#[inline(never)]
fn hand_over(first: &mut Option<Room>, room: &mut Room) -> bool
    ensures handed { OnTrue result (first.old ≡ Some room.new) }
    ensures none { OnFalse result (first.old ≡ None) }
    ensures taken { first.new ≡ None }
    ensures stays { OnFalse result (room.new ≡ room.old) }
{
    let Some(read) = first.take() else {
        return false;
    };
    *room = read;
    true
}
