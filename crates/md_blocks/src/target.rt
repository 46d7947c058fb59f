//! What gathered bytes are put behind: a text that grows, or a text with which they are compared.
ghost use Rattle.std.specs.Prelude.{◌≡◌, ◌≢◌, ℕ, ◌≤◌, List, [], ◌++◌, length, take, drop, ⊤, IfErr, OnOk, OnErr};

use md_graph::Memory;
use md_text::Chunk;

/// What takes the bytes of chunks, one behind the other. Where it takes no more, an `E` says why.
pub trait Target<E> {
    // The bytes that it has, those before the first chunk among them.
    ghost bytes: { Self → List ℕ };

    // The text with which they are compared; none, if nothing is.
    ghost text: { Self → List ℕ };

    // It may refuse these bytes for that reason.
    ghost may_refuse: { Self → List ℕ → E → Type 0 };

    /// Takes the bytes of a chunk, so that none are gathered. Where it refuses them, nothing
    /// changes.
    fn take_chunk(&mut self, chunk: &mut Chunk) -> Result<(), E>
        ensures taken { OnOk result (bytes self.new ≡ bytes self.old ++ chunk.old) }
        ensures emptied { OnOk result (chunk.new ≡ []) }
        ensures text { OnOk result (text self.new ≡ text self.old) }
        ensures refused { IfErr result (may_refuse self.old chunk.old) }
        ensures bytes_stay { OnErr result (bytes self.new ≡ bytes self.old) }
        ensures text_stays { OnErr result (text self.new ≡ text self.old) }
        ensures chunk_stays { OnErr result (chunk.new ≡ chunk.old) };
}

impl Target<Memory> for Vec<u8> {
    ghost bytes = { λ v. v.items };

    ghost text = { λ v. [] };

    ghost may_refuse = { λ v bytes reason. ⊤ };

    #[inline]
    fn take_chunk(&mut self, chunk: &mut Chunk) -> Result<(), Memory> {
        chunk.flush(self)?;
        Ok(())
    }
}

/// The bytes that came aren't those of the text.
#[derive(Clone, Copy, Debug, PartialEq, Eq)]
pub struct Differs;

/// A text with which bytes are compared, of which so many are those that came.
#[derive(Drop)]
pub struct Compared<'a> {
    pub text: &'a [u8],
    pub same: usize,
    ghost within: { same ≤ length text.now },
}

impl<'a> Compared<'a> {
    /// Before the first byte.
    pub fn new(text: &'a [u8]) -> Compared<'a>
        ensures text { result.text.now ≡ text.now }
        ensures none { result.same ≡ 0 }
    {
        Compared { text, same: 0 }
    }
}

impl<'a> Target<Differs> for Compared<'a> {
    ghost bytes = { λ c. take c.same c.text.now };

    ghost text = { λ c. c.text.now };

    // The text doesn't go on with them.
    ghost may_refuse = { λ c bytes reason. (rest : List ℕ)
        → drop c.same c.text.now ≢ bytes ++ rest };

    #[inline]
    fn take_chunk(&mut self, chunk: &mut Chunk) -> Result<(), Differs> {
        let Some(rest) = chunk.strip_from(&self.text[self.same..]) else {
            return Err(Differs);
        };
        self.same = self.text.len() - rest.len();
        Ok(())
    }
}
