//! A sink over a writer that gathers small pieces.
ghost use Rattle.std.specs.Prelude.{◌≡◌, ℕ, ◌+◌, ◌<◌, ◌≤◌, List, [], ◌++◌, Bool, false, Option, None, Some, length, IsTrue, IsOk, IfOk, OnOk, OnErr, IsErrOf, IsOkUnless};
ghost use Rattle.std.specs.Io.KnownBytes.{Appends, Keeps, append_known};
ghost use Rattle.std.specs.Io.Buffered.{writer_inner, writer_contents};
ghost use Rattle.md_io.specs.Count.{count_up};
ghost use Rattle.md_io.specs.Front.{AppendsFront, Begins};
ghost use Rattle.md_io.specs.StdSink.{IsWriterPut};

use crate::system::{end_flush, put_whole};
use crate::{PutFault, Sink};
use std::alloc::Global;
use std::io::{BufWriter, Write};

// The most bytes that a sink gathers: 32 KiB.
const MOST_KEPT: usize = 32 * 1024;

/// A sink over a writer, as standard output, that writes small pieces together: it keeps up to
/// 32 KiB until more is put or a flush comes. When it goes, what is still kept is written, and
/// nobody is told whether that went well.
///
/// It holds what its writer tells to hold and what it keeps, which is nothing that is told for
/// standard output.
#[derive(Drop)]
pub struct GatheringSink<W: Write + Drop> {
    writer: BufWriter<W>,
    faults: u64,
    broken: bool,
}

impl<W: Write + Drop> GatheringSink<W> {
    /// A sink over a writer that keeps nothing and has failed at no put yet. Errors: want of
    /// memory, told as `PutFault::Memory`.
    pub fn new(alloc: Global, writer: W) -> Result<GatheringSink<W>, PutFault>
        ensures reached { IfOk result (λ sink.
            ⟦<GatheringSink<W> as Sink>⟧.reached sink ≡ W.contents writer) }
        ensures holds { IfOk result (λ sink. ⟦<GatheringSink<W> as Sink>⟧.holds sink
            ≡ append_known (W.contents writer) []) }
        ensures faults { IfOk result (λ sink. ⟦<GatheringSink<W> as Sink>⟧.faults sink ≡ 0) }
        ensures wants { IfOk result (λ sink. ⟦<GatheringSink<W> as Sink>⟧.wants sink ≡ 0) }
        ensures broken { IfOk result (λ sink.
            ⟦<GatheringSink<W> as Sink>⟧.broken sink ≡ false) }
        ensures only_memory { IsOkUnless result PutFault.Memory }
    {
        match BufWriter::with_capacity(alloc, MOST_KEPT, writer) {
            Ok(writer) => Ok(GatheringSink {
                writer,
                faults: 0,
                broken: false,
            }),
            Err(_) => Err(PutFault::Memory),
        }
    }

    /// A sink over a writer that writes each put at once, since it keeps nothing back, and has
    /// failed at no put yet. It takes no memory.
    pub fn without_room(alloc: Global, writer: W) -> GatheringSink<W>
        ensures reached { ⟦<GatheringSink<W> as Sink>⟧.reached result ≡ W.contents writer }
        ensures holds { ⟦<GatheringSink<W> as Sink>⟧.holds result
            ≡ append_known (W.contents writer) [] }
        ensures faults { ⟦<GatheringSink<W> as Sink>⟧.faults result ≡ 0 }
        ensures wants { ⟦<GatheringSink<W> as Sink>⟧.wants result ≡ 0 }
        ensures broken { ⟦<GatheringSink<W> as Sink>⟧.broken result ≡ false }
    {
        let Ok(writer) = BufWriter::with_capacity(alloc, 0, writer) else {
            unreachable!();
        };
        GatheringSink {
            writer,
            faults: 0,
            broken: false,
        }
    }
}

impl<W: Write + Drop> Sink for GatheringSink<W> {
    ghost holds = { λ sink. writer_contents W.contents sink.writer };

    ghost reached = { λ sink. W.contents (writer_inner sink.writer) };

    ghost faults = { λ sink. sink.faults };

    ghost wants = { λ _. 0 };

    ghost broken = { λ sink. sink.broken };

    ghost put_gives = { λ old _ answer new. IsWriterPut answer old.faults new.faults };

    ghost use Rattle.md_io.specs.Front.{begins_more};
    ghost use Rattle.std.specs.Io.Buffered.{writer_buffer};

    ghost begun = { λ sink. begins_more _ (writer_buffer sink.writer) };

    fn put(&mut self, piece: &[u8]) -> Result<(), PutFault> {
        put_whole(&mut self.writer, self.broken, &mut self.faults, piece)
    }

    fn flush(&mut self) -> Result<(), PutFault> {
        let done = !self.broken && self.writer.flush().is_ok();
        end_flush(done, &mut self.broken, &mut self.faults)
    }
}
