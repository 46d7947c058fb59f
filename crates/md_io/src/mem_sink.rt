//! A sink in memory, of which some puts and flushes fail.
ghost use Rattle.std.specs.Prelude.{◌≡◌, ℕ, ◌+◌, ◌<◌, ◌≤◌, List, [], ◌++◌, Bool, false, Option, None, Some, length, take, IsTrue, IsOk, OnOk, OnErr, IsErrOf, IsOkUnless};
ghost use Rattle.std.specs.Io.KnownBytes.{Appends, Keeps};
ghost use Rattle.md_io.specs.Count.{count_up, Rose};
ghost use Rattle.md_io.specs.Front.{AppendsFront, Begins};
ghost use Rattle.md_io.specs.MemSink.{failing_puts, put_count, part_of_put, failing_flushes, flush_count, IsMemPut, IsMemFlush};

use crate::failing::next_fails;
use crate::safe_sink::append;
use crate::{PutFault, Sink};
use std::alloc::Global;

/// A sink in memory, of which some puts and flushes fail by their number. It keeps nothing back: a
/// put reaches it at once.
#[derive(Drop)]
pub struct MemSink {
    content: Vec<u8>,
    failing: Vec<u64>,
    part: u64,
    puts: u64,
    failing_flushes: Vec<u64>,
    flushes: u64,
    broken: bool,
    faults: u64,
    wants: u64,
}

// The beginning of a piece that a put takes before it fails.
fn front(piece: &[u8], most: u64) -> &[u8]
    ensures { result.now ≡ take most piece.now }
{
    let most = most as usize;
    if most < piece.len() {
        &piece[..most]
    } else {
        piece
    }
}

impl MemSink {
    /// An empty sink. The puts whose numbers, counted from 1, stand in `failing` fail, and take at
    /// most the first `part` bytes of their piece. An empty piece counts as no put. No flush fails.
    pub fn new(alloc: Global, failing: Vec<u64>, part: u64) -> MemSink
        ensures holds { ⟦<MemSink as Sink>⟧.holds result ≡ Some [] }
        ensures faults { ⟦<MemSink as Sink>⟧.faults result ≡ 0 }
        ensures wants { ⟦<MemSink as Sink>⟧.wants result ≡ 0 }
        ensures failing { failing_puts result ≡ failing.items }
        ensures puts { put_count result ≡ 0 }
        ensures part { part_of_put result ≡ part }
        ensures failing_flushes { failing_flushes result ≡ [] }
        ensures flushes { flush_count result ≡ 0 }
        ensures broken { ⟦<MemSink as Sink>⟧.broken result ≡ false }
    {
        MemSink {
            content: Vec::new(alloc),
            failing,
            part,
            puts: 0,
            failing_flushes: Vec::new(alloc),
            flushes: 0,
            broken: false,
            faults: 0,
            wants: 0,
        }
    }

    /// Lets the flushes fail whose numbers, counted from 1, stand in `failing`. No count changes.
    pub fn fail_flushes(&mut self, failing: Vec<u64>)
        ensures failing { failing_flushes self.new ≡ failing.items }
        ensures flushes { flush_count self.new ≡ flush_count self.old }
        ensures failing_puts { failing_puts self.new ≡ failing_puts self.old }
        ensures puts { put_count self.new ≡ put_count self.old }
        ensures part { part_of_put self.new ≡ part_of_put self.old }
        ensures holds { ⟦<MemSink as Sink>⟧.holds self.new ≡ ⟦<MemSink as Sink>⟧.holds self.old }
        ensures faults { ⟦<MemSink as Sink>⟧.faults self.new
            ≡ ⟦<MemSink as Sink>⟧.faults self.old }
        ensures wants { ⟦<MemSink as Sink>⟧.wants self.new ≡ ⟦<MemSink as Sink>⟧.wants self.old }
        ensures broken { ⟦<MemSink as Sink>⟧.broken self.new
            ≡ ⟦<MemSink as Sink>⟧.broken self.old }
    {
        self.failing_flushes = failing;
    }

    /// The bytes taken so far.
    pub fn bytes(&self) -> &[u8]
        ensures { ⟦<MemSink as Sink>⟧.holds self.now ≡ Some result.now }
    {
        self.content.as_slice()
    }
}

impl Sink for MemSink {
    ghost holds = { λ sink. Some sink.content.items };

    ghost reached = { λ sink. Some sink.content.items };

    ghost faults = { λ sink. sink.faults };

    ghost wants = { λ sink. sink.wants };

    ghost broken = { λ sink. sink.broken };

    ghost put_gives = { IsMemPut };

    ghost flush_gives = { IsMemFlush };

    ghost use Rattle.std.proofs.KnownBytes.{Appends-nil};

    ghost begun = { λ sink. ([], Appends-nil (Some sink.content.items)) };

    fn put(&mut self, piece: &[u8]) -> Result<(), PutFault> {
        if piece.is_empty() {
            return Ok(());
        }
        let fails = next_fails(self.failing.as_slice(), self.puts);
        self.puts = self.puts.saturating_add(1);
        if !fails && !self.broken {
            return append(&mut self.content, &mut self.wants, piece);
        }
        let part = front(piece, self.part);
        append(&mut self.content, &mut self.wants, part)?;
        self.faults = self.faults.saturating_add(1);
        Err(PutFault::Failed)
    }

    fn flush(&mut self) -> Result<(), PutFault> {
        let fails = next_fails(self.failing_flushes.as_slice(), self.flushes);
        self.flushes = self.flushes.saturating_add(1);
        if !fails && !self.broken {
            return Ok(());
        }
        self.broken = true;
        self.faults = self.faults.saturating_add(1);
        Err(PutFault::Failed)
    }
}
