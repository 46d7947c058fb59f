//! A sink whose memory runs out.
ghost use Rattle.std.specs.Prelude.{◌≡◌, ℕ, ◌<◌, ◌≤◌, List, [], ◌++◌, Bool, false, Option, None, Some, length, IsTrue, IsOk, OnOk, OnErr, IsErrOf, IsOkUnless};
ghost use Rattle.std.specs.Io.KnownBytes.{Appends, Keeps};
ghost use Rattle.md_io.specs.Count.{count_up, Rose};
ghost use Rattle.md_io.specs.Front.{AppendsFront, Begins};

use md_io::{PutFault, Sink};
use std::alloc::Global;

// A sink in memory that has room for so many pieces, and then none.
#[derive(Drop)]
pub(super) struct FullSink {
    content: Vec<u8>,
    room: u64,
    wants: u64,
}

impl FullSink {
    pub(super) fn new(alloc: Global, room: u64) -> FullSink {
        FullSink {
            content: Vec::new(alloc),
            room,
            wants: 0,
        }
    }

    // The bytes taken so far.
    pub(super) fn bytes(&self) -> &[u8] {
        self.content.as_slice()
    }
}

impl Sink for FullSink {
    ghost holds = { λ sink. Some sink.content.items };

    ghost reached = { λ sink. Some sink.content.items };

    ghost faults = { λ _. 0 };

    ghost wants = { λ sink. sink.wants };

    ghost broken = { λ _. false };

    ghost use Rattle.std.proofs.KnownBytes.{Appends-nil};

    ghost begun = { λ sink. ([], Appends-nil (Some sink.content.items)) };

    fn put(&mut self, piece: &[u8]) -> Result<(), PutFault> {
        if piece.is_empty() {
            return Ok(());
        }
        if self.room == 0 || self.content.extend_from_slice(piece).is_err() {
            self.wants = self.wants.saturating_add(1);
            return Err(PutFault::Memory);
        }
        self.room -= 1;
        Ok(())
    }

    fn flush(&mut self) -> Result<(), PutFault> {
        Ok(())
    }
}
