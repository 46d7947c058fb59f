//! The outside of the program: where it loads files from, and where it puts its output.
//!
//! [`Files`] and [`Sink`] are all that the program knows of the outside. What is in memory tells
//! its content to contracts; a folder, standard output and standard error tell only their counts
//! and the names asked for.
#![tactic(auto)]

ghost use Rattle.std.specs.Prelude.{◌≡◌, ◌⊎◌, ℕ, ◌+◌, ◌-◌, ◌^◌, ◌<◌, ◌≤◌, List, [], ◌∷◌, ◌++◌, Bool, Option, Result, Vec, length, IsTrue, IsOk, IfOk, OnOk, OnErr, IsErrOf, IsOkUnless};
ghost use Rattle.std.specs.Io.KnownBytes.{Appends, Keeps};
ghost use Rattle.std.specs.Global.{Global};
ghost use Rattle.md_io.specs.declared.LoadFault.{LoadFault};
ghost use Rattle.md_io.specs.declared.PutFault.{PutFault};
ghost use Rattle.md_io.specs.Told.{Told, IsToldAs, IsToldLonger, IsToldFile};
ghost use Rattle.md_io.specs.Count.{count_up, Rose, RoseBy};
ghost use Rattle.md_io.specs.Front.{AppendsFront, Begins};
ghost use Rattle.md_io.specs.Gives.{LoadRelation, PutRelation, FlushRelation};

use std::alloc::Global;
use thiserror::Error;

mod asked;
mod failing;
mod gathering_sink;
pub mod laws;
mod mem_files;
mod mem_sink;
mod safe_sink;
mod system;

pub use gathering_sink::GatheringSink;
pub use mem_files::MemFiles;
pub use mem_sink::MemSink;
pub use safe_sink::SafeSink;
pub use system::{DirFiles, StdSink};

/// The most bytes of one file that the program takes: 256 MiB.
pub const LIMIT: u64 = 268_435_456;

/// Why a load gave no bytes.
#[derive(Debug, Drop, Error)]
pub enum LoadFault {
    /// The file is absent, or could not be read.
    #[error("the file could not be read")]
    Failed,
    /// The file has more bytes than the limit.
    #[error("the file is too long")]
    TooLong,
    /// Memory ran out.
    #[error("out of memory")]
    Memory,
}

/// Why a put did not take its whole piece, or a flush did not hand over all that was taken.
#[derive(Debug, Drop, Error)]
pub enum PutFault {
    /// The device refused the bytes, or took only a part of them.
    #[error("the output could not be written")]
    Failed,
    /// The sink's own memory ran out.
    #[error("out of memory")]
    Memory,
}

/// Files by name.
///
/// Every count stands still at the last value of a `u64`; there "rose" says that it rose or stands
/// at that value.
pub trait Files {
    // What is told of the file of each name.
    ghost holds: { Self → List ℕ → Told };

    // How often the outside failed: a file was absent, or could not be opened or read.
    ghost faults: { Self → ℕ };

    // How many bytes the outside handed over.
    ghost taken: { Self → ℕ };

    // How many loads took more than `LIMIT` bytes and refused the file for that.
    ghost overs: { Self → ℕ };

    // The names that were asked for, first to last.
    ghost asked: { Self → List (List ℕ) };

    // No load of a file that is told can fail from here on.
    ghost sure: { Self → Bool };

    // What else is known of a load at this type: before, the name, the limit, the answer, after.
    ghost load_gives: { LoadRelation Self } = { λ _ _ _ _ _. Unit {0} };

    /// Reads the whole file of a name, or refuses it where it has more than `limit` bytes.
    ///
    /// An absent file is a failure. Whatever the answer, what is told of the files stays as it was.
    fn load(&mut self, alloc: Global, name: &str, limit: u64) -> Result<Vec<u8>, LoadFault>
        // The bytes are the file's, and within the limit.
        ensures content { IfOk result (λ bytes. IsToldAs (holds self.old name.now) bytes.items) }
        ensures within { IfOk result (λ bytes. length bytes.items ≤ limit) }
        ensures counted { IfOk result
            (λ bytes. taken self.new ≡ count_up (taken self.old) (length bytes.items)) }

        // A fault comes only where its count rose, and `faults` counts nothing but failures.
        ensures failed { IsErrOf result LoadFault.Failed
            → Rose (faults self.old) (faults self.new) }
        ensures faults_only { ¬ IsErrOf result LoadFault.Failed
            → faults self.new ≡ faults self.old }
        ensures too_long { IsErrOf result LoadFault.TooLong
            → RoseBy (taken self.old) (taken self.new) (limit + 1) }
        ensures too_long_over { IsErrOf result LoadFault.TooLong
            → LIMIT ≤ limit → Rose (overs self.old) (overs self.new) }
        ensures too_long_told { IsErrOf result LoadFault.TooLong
            → IsToldLonger (holds self.old name.now) limit }

        // The counts never fall, and an over needs more bytes than `LIMIT`.
        ensures faults_never_fall { faults self.old ≤ faults self.new }
        ensures taken_never_falls { taken self.old ≤ taken self.new }
        ensures overs_never_fall { overs self.old ≤ overs self.new }
        ensures over { overs self.old < overs self.new
            → RoseBy (taken self.old) (taken self.new) (LIMIT + 1) }

        // The name is noted, or memory ran out before anything was counted.
        ensures asked { (asked self.new ≡ asked self.old ++ name.now ∷ [])
            ⊎ (IsErrOf result LoadFault.Memory
            × (asked self.new ≡ asked self.old) × (faults self.new ≡ faults self.old)
            × (taken self.new ≡ taken self.old) × (overs self.new ≡ overs self.old)) }

        // What is told stays, and a sure load of a file that is told brings no fault.
        ensures told { holds self.new ≡ holds self.old }
        ensures sure_faults { IsTrue (sure self.old) → IsToldFile (holds self.old name.now)
            → faults self.new ≡ faults self.old }
        ensures sure_stays { IsTrue (sure self.old) → IsToldFile (holds self.old name.now)
            → IsTrue (sure self.new) }
        ensures gives { load_gives self.old name.now limit result self.new };

    // Where no load can fail, the count of faults can still rise.
    ghost sure_below: { (files : Self) → IsTrue (sure files) → faults files < 2 ^ 64 - 1 };
}

/// Where output goes, piece by piece.
///
/// A sink may keep bytes that it took, and hand them to its device later: after a flush the device
/// has them all. Every count stands still at the last value of a `u64`; there "rose" says that it
/// rose or stands at that value.
pub trait Sink {
    // The bytes taken so far, where they are told.
    ghost holds: { Self → Option (List ℕ) };

    // The bytes that have reached the device, where they are told.
    ghost reached: { Self → Option (List ℕ) };

    // How often the device failed.
    ghost faults: { Self → ℕ };

    // How often the sink's own memory ran out.
    ghost wants: { Self → ℕ };

    // A flush failed: no byte that is put from here on is said to be taken.
    ghost broken: { Self → Bool };

    // What else is known of a put at this type: before, the piece, the answer, after.
    ghost put_gives: { PutRelation Self } = { λ _ _ _ _. Unit {0} };

    // What else is known of a flush at this type: before, the answer, after.
    ghost flush_gives: { FlushRelation Self } = { λ _ _ _. Unit {0} };

    /// Takes a whole piece, or as much of it as goes before the device fails.
    ///
    /// An empty piece is no put: it is taken, and nothing is counted. After a failed flush every
    /// other piece is refused.
    fn put(&mut self, piece: &[u8]) -> Result<(), PutFault>
        // The whole piece, a beginning of it, or nothing.
        ensures ok { OnOk result (Appends (holds self.old) (holds self.new) piece.now) }
        ensures failed_front { IsErrOf result PutFault.Failed
            → AppendsFront (holds self.old) (holds self.new) piece.now }
        ensures memory_keeps { IsErrOf result PutFault.Memory
            → Keeps (holds self.old) (holds self.new) }

        // A fault comes only where its count rose.
        ensures failed { IsErrOf result PutFault.Failed
            → Rose (faults self.old) (faults self.new) }
        ensures memory { IsErrOf result PutFault.Memory
            → Rose (wants self.old) (wants self.new) }

        // The counts never fall, and each counts nothing else.
        ensures faults_never_fall { faults self.old ≤ faults self.new }
        ensures faults_only { ¬ IsErrOf result PutFault.Failed
            → faults self.new ≡ faults self.old }
        ensures wants_never_fall { wants self.old ≤ wants self.new }
        ensures wants_only { ¬ IsErrOf result PutFault.Memory
            → wants self.new ≡ wants self.old }

        ensures empty { length piece.now ≡ 0 → IsOk result
            × (faults self.new ≡ faults self.old) × (wants self.new ≡ wants self.old) }

        // A put neither makes a failed flush good nor is one.
        ensures broken { IsTrue (broken self.old) → 0 < length piece.now → ¬ IsOk result }
        ensures broken_same { broken self.new ≡ broken self.old }
        ensures gives { put_gives self.old piece.now result self.new };

    /// Hands all that was taken to the device. It is no put.
    ///
    /// Where it fails, what has reached the device is a beginning of what was taken, and no later
    /// put or flush makes that good.
    fn flush(&mut self) -> Result<(), PutFault>
        // Nothing is taken and nothing lost, and where it succeeds the device has it all.
        ensures keeps { Keeps (holds self.old) (holds self.new) }
        ensures ok { OnOk result (reached self.new ≡ holds self.new) }

        // The device alone can fail, and a fault comes only where its count rose.
        ensures only_failed { IsOkUnless result PutFault.Failed }
        ensures failed { OnErr result (Rose (faults self.old) (faults self.new)) }
        ensures faults_never_fall { faults self.old ≤ faults self.new }
        ensures ok_faults { OnOk result (faults self.new ≡ faults self.old) }
        ensures wants { wants self.new ≡ wants self.old }

        // It fails for good, and where it succeeds no flush failed before.
        ensures broken { OnErr result (IsTrue (broken self.new)) }
        ensures broken_stays { IsTrue (broken self.old) → ¬ IsOk result }
        ensures ok_broken { OnOk result (broken self.new ≡ broken self.old) }
        ensures gives { flush_gives self.old result self.new };

    // What has reached the device is a beginning of what was taken.
    ghost begun: { (sink : Self) → Begins (reached sink) (holds sink) };
}
