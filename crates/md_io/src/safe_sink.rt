//! A sink in memory that never fails.
ghost use Rattle.std.specs.Prelude.{◌≡◌, ℕ, ◌<◌, ◌≤◌, List, [], ◌++◌, Bool, false, Option, None, Some, length, IsTrue, IsOk, OnOk, OnErr, IsErrOf, IsOkUnless};
ghost use Rattle.std.specs.Io.KnownBytes.{Appends, Keeps};
ghost use Rattle.md_io.specs.Count.{count_up, Rose};
ghost use Rattle.md_io.specs.Front.{AppendsFront, Begins};
ghost use Rattle.md_io.specs.SafeSink.{IsSafePut};

use crate::{PutFault, Sink};
use std::alloc::Global;

/// A sink in memory that never fails: every put takes its whole piece, or memory runs out. It keeps
/// nothing back, so that every flush succeeds.
#[derive(Drop)]
pub struct SafeSink {
    content: Vec<u8>,
    wants: u64,
}

// Appends a piece, and counts a want of memory.
pub(crate) fn append(content: &mut Vec<u8>, wants: &mut u64, piece: &[u8]) -> Result<(), PutFault>
    ensures ok { OnOk result (content.new.items ≡ content.old.items ++ piece.now) }
    ensures ok_wants { OnOk result (wants.new ≡ wants.old) }
    ensures err { OnErr result (content.new.items ≡ content.old.items) }
    ensures err_wants { OnErr result (wants.new ≡ count_up wants.old 1) }
    ensures only_memory { IsOkUnless result PutFault.Memory }
    ensures wants_never_fall { wants.old ≤ wants.new }
{
    if content.extend_from_slice(piece).is_err() {
        *wants = wants.saturating_add(1);
        return Err(PutFault::Memory);
    }
    Ok(())
}

impl SafeSink {
    /// An empty sink.
    pub fn new(alloc: Global) -> SafeSink
        ensures holds { ⟦<SafeSink as Sink>⟧.holds result ≡ Some [] }
        ensures faults { ⟦<SafeSink as Sink>⟧.faults result ≡ 0 }
        ensures wants { ⟦<SafeSink as Sink>⟧.wants result ≡ 0 }
    {
        SafeSink {
            content: Vec::new(alloc),
            wants: 0,
        }
    }

    /// The bytes taken so far.
    pub fn bytes(&self) -> &[u8]
        ensures { ⟦<SafeSink as Sink>⟧.holds self.now ≡ Some result.now }
    {
        self.content.as_slice()
    }
}

impl Sink for SafeSink {
    ghost holds = { λ sink. Some sink.content.items };

    ghost reached = { λ sink. Some sink.content.items };

    ghost faults = { λ _. 0 };

    ghost wants = { λ sink. sink.wants };

    ghost broken = { λ _. false };

    ghost put_gives = { IsSafePut };

    ghost flush_gives = { λ _ answer _. IsOk answer };

    ghost use Rattle.std.proofs.KnownBytes.{Appends-nil};

    ghost begun = { λ sink. ([], Appends-nil (Some sink.content.items)) };

    fn put(&mut self, piece: &[u8]) -> Result<(), PutFault> {
        if piece.is_empty() {
            return Ok(());
        }
        append(&mut self.content, &mut self.wants, piece)
    }

    fn flush(&mut self) -> Result<(), PutFault> {
        Ok(())
    }
}
