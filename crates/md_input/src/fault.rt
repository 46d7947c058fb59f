//! What may be wrong with an input, and what stops the reading of one.
ghost use Rattle.std.specs.Prelude.{◌≡◌};
ghost use Rattle.md_input.specs.declared.fault.Fault.TheVariants.{Graph6, Dimacs};
ghost use Rattle.md_input.specs.declared.fault.InputStop.TheVariants.{BadInput, Memory as NoMemory};
ghost use Rattle.md_input.specs.Faults.{stop_of_script};

use md_dimacs::DimacsFault;
use md_graph::Memory;
use md_graph6::G6Fault;
use md_script::{ScriptFault, ScriptKind};

/// What is wrong with the input, its first fault in the order of work.
#[derive(Clone, Copy, Debug, PartialEq, Eq)]
pub enum Fault {
    /// The graph6 file has a fault.
    Graph6(G6Fault),
    /// The DIMACS file has a fault.
    Dimacs(DimacsFault),
    /// The graph file has this many graphs, where one is needed.
    NotOneGraph(u64),
    /// A line of the script, counted from 1, has a fault.
    Script(ScriptKind, u64),
}

/// Why an input isn't read. `?` makes it of the faults of the readers, and of want of memory.
#[derive(Clone, Copy, Debug, PartialEq, Eq)]
pub enum InputStop {
    /// The first fault of the input.
    BadInput(Fault),
    /// Memory ran out.
    Memory,
}

impl From<Memory> for InputStop {
    ghost from_gives = { λ _ stop. stop ≡ NoMemory };

    fn from(_memory: Memory) -> InputStop {
        InputStop::Memory
    }
}

impl From<G6Fault> for InputStop {
    ghost from_gives = { λ fault stop. stop ≡ BadInput (Graph6 fault) };

    fn from(fault: G6Fault) -> InputStop {
        InputStop::BadInput(Fault::Graph6(fault))
    }
}

impl From<DimacsFault> for InputStop {
    ghost from_gives = { λ fault stop. stop ≡ BadInput (Dimacs fault) };

    fn from(fault: DimacsFault) -> InputStop {
        InputStop::BadInput(Fault::Dimacs(fault))
    }
}

impl From<ScriptFault> for InputStop {
    ghost from_gives = { λ fault stop. stop ≡ stop_of_script fault };

    fn from(fault: ScriptFault) -> InputStop {
        match fault {
            ScriptFault::Bad { kind, line } => InputStop::BadInput(Fault::Script(kind, line)),
            ScriptFault::Memory => InputStop::Memory,
        }
    }
}
