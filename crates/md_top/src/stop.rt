//! How a run ends: with a verdict, or at what stops it.
ghost use Rattle.std.specs.Prelude.{◌≡◌};
ghost use Rattle.md_top.specs.declared.stop.PutStop.TheVariants.{Memory as NoMemory};
ghost use Rattle.md_top.specs.declared.stop.Stop.TheVariants.{Memory as WantsMemory};
ghost use Rattle.md_top.specs.Status.{stop_of_fault, stop_of_load, stop_of_input, stop_of_put};

use md_graph::Memory;
use md_input::{Fault, InputStop};
use md_io::{LoadFault, PutFault};
use std::process::ExitCode;

/// What the whole output says.
#[derive(Clone, Copy, Debug, PartialEq, Eq)]
pub enum Verdict {
    /// The whole output was put, and where it is the answer of a check, the report is valid.
    Done,
    /// The whole output was put, and it says that a report isn't valid.
    Rejected,
}

impl Verdict {
    ghost use Rattle.md_top.specs.Status.{status_of_verdict};

    /// The status of a run whose whole output says so.
    pub fn status(self) -> Status
        ensures { result ≡ status_of_verdict self }
    {
        match self {
            Verdict::Done => Status::Done,
            Verdict::Rejected => Status::Rejected,
        }
    }
}

/// What ends a run before its output is whole. `?` makes it of what stops a load, an input or a
/// put.
#[derive(Clone, Copy, Debug, PartialEq, Eq)]
pub enum Stop {
    /// The words are in no form.
    Usage,
    /// The input is malformed.
    BadInput(Fault),
    /// A file could not be read.
    ReadFault,
    /// The output could not be written.
    WriteFault,
    /// Memory ran out.
    Memory,
    /// A file has more bytes than the limit.
    TooLong,
}

impl From<LoadFault> for Stop {
    ghost from_gives = { λ fault stop. stop ≡ stop_of_load fault };

    fn from(fault: LoadFault) -> Stop {
        match fault {
            LoadFault::Failed => Stop::ReadFault,
            LoadFault::TooLong => Stop::TooLong,
            LoadFault::Memory => Stop::Memory,
        }
    }
}

impl From<InputStop> for Stop {
    ghost from_gives = { λ input stop. stop ≡ stop_of_input input };

    fn from(input: InputStop) -> Stop {
        match input {
            InputStop::BadInput(fault) => Stop::BadInput(fault),
            InputStop::Memory => Stop::Memory,
        }
    }
}

impl From<PutStop> for Stop {
    ghost from_gives = { λ put stop. stop ≡ stop_of_put put };

    fn from(put: PutStop) -> Stop {
        match put {
            PutStop::WriteFault => Stop::WriteFault,
            PutStop::Memory => Stop::Memory,
        }
    }
}

impl From<Memory> for Stop {
    ghost from_gives = { λ _ stop. stop ≡ WantsMemory };

    fn from(_memory: Memory) -> Stop {
        Stop::Memory
    }
}

/// What ends the putting of an output. `?` makes it of what a sink answers, and of want of memory.
#[derive(Clone, Copy, Debug, PartialEq, Eq)]
pub enum PutStop {
    /// The output could not be written.
    WriteFault,
    /// Memory ran out.
    Memory,
}

impl From<PutFault> for PutStop {
    ghost from_gives = { λ fault stop. stop ≡ stop_of_fault fault };

    fn from(fault: PutFault) -> PutStop {
        match fault {
            PutFault::Failed => PutStop::WriteFault,
            PutFault::Memory => PutStop::Memory,
        }
    }
}

impl From<Memory> for PutStop {
    ghost from_gives = { λ _ stop. stop ≡ NoMemory };

    fn from(_memory: Memory) -> PutStop {
        PutStop::Memory
    }
}

/// How a run ended.
#[derive(Clone, Copy, Debug, PartialEq, Eq)]
pub enum Status {
    /// The whole output was put; of a check: the report is valid.
    Done = 0,
    /// The report that was to be checked isn't valid.
    Rejected = 1,
    /// The words are in no form.
    Usage = 2,
    /// The input is malformed.
    BadInput = 3,
    /// A file could not be read.
    ReadFault = 4,
    /// The output could not be written.
    WriteFault = 5,
    /// Memory ran out.
    Memory = 6,
    /// A file has more bytes than the limit.
    TooLong = 7,
}

impl Stop {
    ghost use Rattle.md_top.specs.Status.{status_of_stop};

    /// The status of a run that stopped so.
    pub fn status(self) -> Status
        ensures { result ≡ status_of_stop self }
    {
        match self {
            Stop::Usage => Status::Usage,
            Stop::BadInput(_) => Status::BadInput,
            Stop::ReadFault => Status::ReadFault,
            Stop::WriteFault => Status::WriteFault,
            Stop::Memory => Status::Memory,
            Stop::TooLong => Status::TooLong,
        }
    }
}

impl Status {
    ghost use Rattle.std.specs.Process.{exit_status};
    ghost use Rattle.md_top.specs.Status.{exit_number};

    /// The exit code of the program, as a number.
    pub fn number(self) -> u8
        ensures { result ≡ exit_number self }
    {
        self as u8
    }

    /// The exit code of the program.
    pub fn exit_code(self) -> ExitCode
        ensures { exit_status result ≡ exit_number self }
    {
        ExitCode::from(self.number())
    }
}
