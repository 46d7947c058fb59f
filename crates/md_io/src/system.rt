//! Files of the system, and a sink over a writer.
ghost use Rattle.std.specs.Prelude.{◌≡◌, ℕ, ◌+◌, ◌-◌, ◌^◌, ◌<◌, ◌≤◌, ◌↔◌, List, [], ◌++◌, Bool, false, not, Option, None, Some, length, take, drop, IsTrue, IsOk, IfOk, OnOk, OnErr, IfSome, OnSome, IfNone, IsErrOf, IsOkUnless};
ghost use Rattle.std.specs.Io.{ReadsAtMost, appended_bytes};
ghost use Rattle.std.specs.Io.KnownBytes.{Appends, Keeps, Consumes, IsAtEnd};
ghost use Rattle.md_io.specs.declared.system.TheConstants.{LONGEST_READ as longest_read};
ghost use Rattle.md_io.specs.Told.{untold};
ghost use Rattle.md_io.specs.Count.{count_up};
ghost use Rattle.md_io.specs.Front.{AppendsFront, Begins};
ghost use Rattle.md_io.specs.Asked.{names};
ghost use Rattle.md_io.specs.DirFiles.{IsSystemLoad, IsCountedRead};
ghost use Rattle.md_io.specs.StdSink.{IsWriterPut};

use crate::asked::note;
use crate::{Files, LIMIT, LoadFault, PutFault, Sink};
use std::alloc::Global;
use std::io::{ErrorKind, Read, Write};
use std::{fs, rt};

// The most bytes of a short read, and of any. The first read of a file is short; a read that filled
// its room is followed by one as long as all before it, and any other by a short one, since it was
// the last, mostly.
const SHORT_READ: usize = 8 * 1024;

const LONGEST_READ: usize = 128 * 1024;

/// Files of the system by path.
///
/// It tells the names asked for and its counts, and nothing of what the files hold.
#[derive(Drop)]
pub struct DirFiles<'a, R> {
    rt: &'a R,
    alloc: Global,
    asked: Vec<String>,
    faults: u64,
    taken: u64,
    overs: u64,
}

/// A sink over a writer, as standard error: each put is written at once.
///
/// It holds what its writer tells to hold, which is nothing for standard error.
#[derive(Drop)]
pub struct StdSink<W> {
    writer: W,
    faults: u64,
    broken: bool,
}

// One read, tried again where a signal interrupts it; none where it fails.
fn read_once<T: Read>(reader: &mut T, buffer: &mut [u8]) -> Option<usize>
    ensures within { IfSome result (λ n. n ≤ length buffer.new) }
    ensures some { IfSome result (λ n.
        Consumes (T.remaining reader.old) (T.remaining reader.new) (take n buffer.new)) }
    ensures end { IfSome result (λ n.
        n ≡ 0 → 0 < length buffer.old → IsAtEnd (T.remaining reader.new)) }
    ensures none { IfNone result (Keeps (T.remaining reader.old) (T.remaining reader.new)) }
{
    for _ in 0..u64::MAX {
        match reader.read(buffer) {
            Ok(n) => return Some(n),
            Err(error) => {
                if error.kind() != ErrorKind::Interrupted {
                    return None;
                }
            }
        }
    }
    None
}

// One read into the buffer from a place on.
fn read_at<T: Read>(reader: &mut T, buffer: &mut [u8], at: usize) -> Option<usize>
    requires { at < length buffer.old }
    ensures front { take at buffer.new ≡ take at buffer.old }
    ensures within { IfSome result (λ n. at + n ≤ length buffer.new) }
    ensures some { IfSome result (λ n.
        Consumes (T.remaining reader.old) (T.remaining reader.new) (take n (drop at buffer.new))) }
    ensures end { IfSome result (λ n. n ≡ 0 → IsAtEnd (T.remaining reader.new)) }
    ensures none { IfNone result (Keeps (T.remaining reader.old) (T.remaining reader.new)) }
{
    read_once(reader, &mut buffer[at..])
}

// Appends at most `most` bytes of one read, and at most one byte more than the limit in all. Room
// is made first, so that want of memory loses no byte.
fn read_piece<T: Read>(
    reader: &mut T,
    bytes: &mut Vec<u8>,
    most: usize,
    limit: u64,
) -> Result<usize, LoadFault>
    requires some { 0 < most }
    requires few { most ≤ longest_read }
    requires within { length bytes.old.items ≤ limit }
    ensures grows { bytes.new.items
        ≡ bytes.old.items ++ appended_bytes bytes.old.items bytes.new.items }
    ensures count { IfOk result (λ n. length bytes.new.items ≡ length bytes.old.items + n) }
    ensures err { OnErr result (bytes.new.items ≡ bytes.old.items) }
    ensures most { length bytes.new.items ≤ limit + 1 }
    ensures taken { Consumes (T.remaining reader.old) (T.remaining reader.new)
        (appended_bytes bytes.old.items bytes.new.items) }
    ensures end { IfOk result (λ n. n ≡ 0 → IsAtEnd (T.remaining reader.new)) }
    ensures not_too_long { ¬ IsErrOf result LoadFault.TooLong }
{
    let filled = bytes.len();
    let room = most.min((limit - filled as u64).saturating_add(1) as usize);
    bytes
        .resize(filled + room, 0)
        .map_err(|_| LoadFault::Memory)?;
    match read_at(reader, bytes.as_mut_slice(), filled) {
        Some(n) => {
            bytes.truncate(filled + n);
            Ok(n)
        }
        None => {
            bytes.truncate(filled);
            Err(LoadFault::Failed)
        }
    }
}

// Reads to the end, or up to one byte more than the limit.
fn read_up_to<T: Read>(reader: &mut T, bytes: &mut Vec<u8>, limit: u64) -> Result<(), LoadFault>
    requires { bytes.old.items ≡ [] }
    ensures taken { Consumes (T.remaining reader.old) (T.remaining reader.new) bytes.new.items }
    ensures most { length bytes.new.items ≤ limit + 1 }
    ensures ok { OnOk result (length bytes.new.items ≤ limit) }
    ensures end { OnOk result (IsAtEnd (T.remaining reader.new)) }
    ensures too_long { IsErrOf result LoadFault.TooLong → limit < length bytes.new.items }
{
    let mut most = SHORT_READ;
    while bytes.len() as u64 <= limit {
        let count = read_piece(reader, bytes, most, limit)?;
        if count == 0 {
            return Ok(());
        }
        most = most_behind(most, count, bytes.len());
    }
    Err(LoadFault::TooLong)
}

// The most bytes of the read behind one of `count` bytes, which had room for `most`, where so many
// are read in all.
fn most_behind(most: usize, count: usize, filled: usize) -> usize
    ensures some { 0 < result }
    ensures few { result ≤ longest_read }
{
    if count < most {
        return SHORT_READ;
    }
    filled.max(SHORT_READ).min(LONGEST_READ)
}

// Reads a whole file, or refuses it where it has more bytes than the limit. Every byte that was
// read is counted, whatever the answer.
pub(crate) fn read_whole<T: Read>(
    alloc: Global,
    reader: &mut T,
    limit: u64,
    taken: &mut u64,
) -> Result<Vec<u8>, LoadFault>
    ensures whole { IfOk result (λ bytes.
        Consumes (T.remaining reader.old) (T.remaining reader.new) bytes.items) }
    ensures end { OnOk result (IsAtEnd (T.remaining reader.new)) }
    ensures within { IfOk result (λ bytes. length bytes.items ≤ limit) }
    ensures counted { IfOk result (λ bytes. taken.new ≡ count_up taken.old (length bytes.items)) }
    ensures read { IsCountedRead (T.remaining reader.old) (T.remaining reader.new)
        taken.old taken.new }
    ensures too_long { IsErrOf result LoadFault.TooLong
        → taken.new ≡ count_up taken.old (limit + 1) }
    ensures stops { taken.new ≤ taken.old + (limit + 1) }
    ensures never_falls { taken.old ≤ taken.new }
{
    let mut bytes = Vec::new(alloc);
    let end = read_up_to(reader, &mut bytes, limit);
    *taken = taken.saturating_add(bytes.len() as u64);
    match end {
        Ok(()) => Ok(bytes),
        Err(fault) => Err(fault),
    }
}

impl<'a, R: rt::Files> DirFiles<'a, R> {
    /// Files of the system that `rt` stands for. Nothing is asked for yet.
    pub fn new(rt: &'a R, alloc: Global) -> DirFiles<'a, R>
        ensures asked { ⟦<DirFiles<'a, R> as Files>⟧.asked result ≡ [] }
        ensures faults { ⟦<DirFiles<'a, R> as Files>⟧.faults result ≡ 0 }
        ensures taken { ⟦<DirFiles<'a, R> as Files>⟧.taken result ≡ 0 }
        ensures overs { ⟦<DirFiles<'a, R> as Files>⟧.overs result ≡ 0 }
    {
        DirFiles {
            rt,
            alloc,
            asked: Vec::new(alloc),
            faults: 0,
            taken: 0,
            overs: 0,
        }
    }
}

impl<'a, R: rt::Files> Files for DirFiles<'a, R> {
    ghost holds = { λ _ _. untold };

    ghost faults = { λ files. files.faults };

    ghost taken = { λ files. files.taken };

    ghost overs = { λ files. files.overs };

    ghost asked = { λ files. names files.asked.items };

    ghost sure = { λ _. false };

    ghost load_gives = { λ old _ limit answer new.
        IsSystemLoad limit answer old.faults new.faults old.taken new.taken };

    ghost use Rattle.std.proofs.Common.{arith};

    ghost sure_below = { λ files h. Prim.grind arith };

    fn load(&mut self, alloc: Global, name: &str, limit: u64) -> Result<Vec<u8>, LoadFault> {
        note(&mut self.asked, self.alloc, name)?;
        let Ok(mut file) = fs::open(self.rt, name) else {
            self.faults = self.faults.saturating_add(1);
            return Err(LoadFault::Failed);
        };
        match read_whole(alloc, &mut file, limit, &mut self.taken) {
            Ok(bytes) => Ok(bytes),
            Err(LoadFault::Failed) => {
                self.faults = self.faults.saturating_add(1);
                Err(LoadFault::Failed)
            }
            Err(LoadFault::TooLong) => {
                if limit >= LIMIT {
                    self.overs = self.overs.saturating_add(1);
                }
                Err(LoadFault::TooLong)
            }
            Err(LoadFault::Memory) => Err(LoadFault::Memory),
        }
    }
}

// One write, tried again where a signal interrupts it; none where it fails or takes nothing.
fn write_once<W: Write>(writer: &mut W, piece: &[u8]) -> Option<usize>
    ensures within { IfSome result (λ n. n ≤ length piece.now) }
    ensures progress { IfSome result (λ n. 0 < n) }
    ensures some { IfSome result (λ n.
        Appends (W.contents writer.old) (W.contents writer.new) (take n piece.now)) }
    ensures none { IfNone result (Keeps (W.contents writer.old) (W.contents writer.new)) }
{
    for _ in 0..u64::MAX {
        match writer.write(piece) {
            Ok(0) => return None,
            Ok(n) => return Some(n),
            Err(error) => {
                if error.kind() != ErrorKind::Interrupted {
                    return None;
                }
            }
        }
    }
    None
}

// Writes a whole piece, and says whether it was written.
pub(crate) fn write_whole<W: Write>(writer: &mut W, piece: &[u8]) -> bool
    ensures whole { IsTrue result
        → Appends (W.contents writer.old) (W.contents writer.new) piece.now }
    ensures front { AppendsFront (W.contents writer.old) (W.contents writer.new) piece.now }
    ensures empty { length piece.now ≡ 0 → IsTrue result }
{
    let mut rest = piece;
    while !rest.is_empty() {
        let Some(n) = write_once(writer, rest) else {
            return false;
        };
        rest = &rest[n..];
    }
    true
}

// The answer of a put to a writer: Ok where the whole piece was taken, else a fault that is
// counted. An empty piece is no put, and after a failed flush every other piece is refused.
pub(crate) fn put_whole<W: Write>(
    writer: &mut W,
    broken: bool,
    faults: &mut u64,
    piece: &[u8],
) -> Result<(), PutFault>
    ensures ok { OnOk result (Appends (W.contents writer.old) (W.contents writer.new) piece.now) }
    ensures front { AppendsFront (W.contents writer.old) (W.contents writer.new) piece.now }
    ensures empty { length piece.now ≡ 0 → IsOk result }
    ensures refused { IsTrue broken → 0 < length piece.now → ¬ IsOk result }
    ensures counts { IsWriterPut result faults.old faults.new }
    ensures never_fall { faults.old ≤ faults.new }
{
    if piece.is_empty() {
        return Ok(());
    }
    put_end(!broken && write_whole(writer, piece), faults)
}

// The answer of a flush, given whether it was done: if it wasn't, the sink is broken from then on.
pub(crate) fn end_flush(done: bool, broken: &mut bool, faults: &mut u64) -> Result<(), PutFault>
    ensures done { IsOk result ↔ IsTrue done }
    ensures broken { broken.new ≡ not done }
    ensures counts { IsWriterPut result faults.old faults.new }
    ensures never_fall { faults.old ≤ faults.new }
{
    *broken = !done;
    put_end(done, faults)
}

// Ok where a piece was taken or a flush done, else a fault that is counted.
fn put_end(done: bool, faults: &mut u64) -> Result<(), PutFault>
    ensures done { IsOk result ↔ IsTrue done }
    ensures counts { IsWriterPut result faults.old faults.new }
    ensures never_fall { faults.old ≤ faults.new }
{
    if done {
        return Ok(());
    }
    *faults = faults.saturating_add(1);
    Err(PutFault::Failed)
}

impl<W: Write + Drop> StdSink<W> {
    /// A sink over a writer that has failed at no put yet.
    pub fn new(writer: W) -> StdSink<W>
        ensures holds { ⟦<StdSink<W> as Sink>⟧.holds result ≡ W.contents writer }
        ensures faults { ⟦<StdSink<W> as Sink>⟧.faults result ≡ 0 }
        ensures wants { ⟦<StdSink<W> as Sink>⟧.wants result ≡ 0 }
        ensures broken { ⟦<StdSink<W> as Sink>⟧.broken result ≡ false }
    {
        StdSink {
            writer,
            faults: 0,
            broken: false,
        }
    }
}

impl<W: Write + Drop> Sink for StdSink<W> {
    ghost holds = { λ sink. W.contents sink.writer };

    ghost reached = { λ sink. W.contents sink.writer };

    ghost faults = { λ sink. sink.faults };

    ghost wants = { λ _. 0 };

    ghost broken = { λ sink. sink.broken };

    ghost put_gives = { λ old _ answer new. IsWriterPut answer old.faults new.faults };

    ghost use Rattle.std.proofs.KnownBytes.{Appends-nil};

    ghost begun = { λ sink. ([], Appends-nil (W.contents sink.writer)) };

    fn put(&mut self, piece: &[u8]) -> Result<(), PutFault> {
        put_whole(&mut self.writer, self.broken, &mut self.faults, piece)
    }

    fn flush(&mut self) -> Result<(), PutFault> {
        let done = !self.broken && self.writer.flush().is_ok();
        end_flush(done, &mut self.broken, &mut self.faults)
    }
}
