//! The modes and the lines of reports.
use crate::Order;
use md_bar_tree::Class;
use md_forcing::{Arcs, Chain};
use md_graph::NAMES;
use md_modules::P4;
use md_script::EditReason;
use md_tree::Tree;

/// How many names a graph may have at most of which orientations are reported.
pub const ORIENTED: u32 = 4_096;

/// What a report is about.
#[derive(Clone, Copy, Debug, PartialEq, Eq)]
pub enum Mode {
    /// The trees of the strong modules of graphs.
    Tree,
    /// The tree of a graph, and of the graph that each edit of a script leaves.
    Edit,
    /// The tree of a cograph, and of the cograph that each edit of a script leaves.
    Cograph,
    /// Transitive orientations of graphs, or forcing chains.
    Compare,
    /// Permutation models of graphs, or forcing chains of them or of their complements.
    Permute,
    /// Which edits of a script a cograph takes, and the tree of the last cograph.
    Quiet,
}

impl Mode {
    ghost use Rattle.std.specs.Prelude.{◌≡◌};
    ghost use Rattle.md_report.specs.Lines.{as_graph_mode, as_session_mode};

    /// What such a report says of each graph of a file; none where it is of a session.
    pub fn as_graph_mode(self) -> Option<GraphMode>
        ensures value { result ≡ as_graph_mode self }
    {
        match self {
            Mode::Tree => Some(GraphMode::Tree),
            Mode::Compare => Some(GraphMode::Compare),
            Mode::Permute => Some(GraphMode::Permute),
            Mode::Edit | Mode::Cograph | Mode::Quiet => None,
        }
    }

    /// What such a report says of each state of a session; none where it is over graphs.
    pub fn as_session_mode(self) -> Option<SessionMode>
        ensures value { result ≡ as_session_mode self }
    {
        match self {
            Mode::Edit => Some(SessionMode::Edit),
            Mode::Cograph => Some(SessionMode::Cograph),
            Mode::Quiet => Some(SessionMode::Quiet),
            Mode::Tree | Mode::Compare | Mode::Permute => None,
        }
    }
}

/// What a report over the graphs of a file says of each of them.
#[derive(Clone, Copy, Debug, PartialEq, Eq)]
pub enum GraphMode {
    /// Its tree of strong modules.
    Tree,
    /// Its least-edge orientation, or a forcing chain where it has no transitive orientation.
    Compare,
    /// The same with a shortest forcing chain: a report of mode compare.
    Shortest,
    /// Two orders of its vertices that realise it, or a forcing chain of it or of its complement.
    Permute,
}

impl GraphMode {
    ghost use Rattle.std.specs.Prelude.{◌≡◌, ◌≤◌};
    ghost use Rattle.md_report.specs.Lines.{mode_of, limit_of_mode};

    /// What the whole report is about.
    pub fn mode(self) -> Mode
        ensures { result ≡ mode_of self }
    {
        match self {
            GraphMode::Tree => Mode::Tree,
            GraphMode::Compare | GraphMode::Shortest => Mode::Compare,
            GraphMode::Permute => Mode::Permute,
        }
    }

    /// The limit of names of the graphs that are reported so: trees are of all names, orientations
    /// and orders of fewer.
    pub fn limit(self) -> u32
        ensures value { result ≡ limit_of_mode self }
        ensures few { result ≤ NAMES }
    {
        match self {
            GraphMode::Tree => NAMES,
            GraphMode::Compare | GraphMode::Shortest | GraphMode::Permute => ORIENTED,
        }
    }
}

/// What a report of a session says of each state.
#[derive(Clone, Copy, Debug, PartialEq, Eq)]
pub enum SessionMode {
    /// Its tree of strong modules.
    Edit,
    /// Its tree of strong modules; no state has an induced P4, and an edit that would make one is
    /// refused.
    Cograph,
    /// Of the last state its tree of strong modules, of the others nothing; no state has an induced
    /// P4, and an edit that would make one is refused.
    Quiet,
    /// Its tree of strong modules; no state has a bar of the class, and an edit that would make one
    /// is refused.
    Of(Class),
}

/// A line of a report.
#[derive(Drop)]
pub enum Line {
    /// The first line: what the report is about.
    Head(Mode),
    /// The tree of a graph, none where the graph has no vertices.
    Tree(Option<Tree>),
    /// The edit was applied, and this is the tree of the graph that it left.
    Applied(Option<Tree>),
    /// The edit was applied.
    AppliedQuiet,
    /// The edit was refused, and the graph stays.
    Refused(EditReason),
    /// The edit was refused, since the graph after it has this induced P4, and the graph stays.
    RefusedP4(P4),
    /// A group was refused, since there is this reason against its edit with this number, counted
    /// from 1, and the graph stays.
    GroupRefused(u64, EditReason),
    /// A group was refused, since the graph after its edit with this number, counted from 1, has
    /// this induced P4, and the graph stays.
    GroupRefusedP4(u64, P4),
    /// There is nothing to undo, and the graph stays.
    NothingToUndo,
    /// The first graph of a session on cographs has this induced P4.
    NotCograph(P4),
    /// The graph has a transitive orientation: these arcs.
    Oriented(Arcs),
    /// The graph has no transitive orientation, since this chain forces an arc to its reverse.
    Forced(Chain),
    /// Two orders of the vertices realise the graph: these.
    Orders(Order, Order),
    /// No two orders realise the graph, since this chain of it forces an arc to its reverse.
    ForcedIn(Chain),
    /// No two orders realise the graph, since this chain of its complement forces an arc to its
    /// reverse, and the graph itself has none.
    ForcedInComplement(Chain),
    /// The last line.
    End,
}
