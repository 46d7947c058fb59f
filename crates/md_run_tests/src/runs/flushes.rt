//! Runs over outputs that keep what was put, or that fail at a flush.
use super::*;
use md_io::GatheringSink;
use std::io::{Error, ErrorKind, Write};

// The same as a run over sinks in memory, where the load of this number fails, the put of this
// number, and the flush of this number.
fn run_flushed(
    alloc: Global,
    line: &str,
    file: &[u8],
    load: u64,
    put: u64,
    flush: u64,
) -> Result<String, Fail> {
    let words = words_of(alloc, line)?;
    let mut files = MemFiles::new(alloc, vec![in alloc; load]?);
    files.add("g", file)?;
    files.add("r", b"mdt tree\n")?;
    let mut out = MemSink::new(alloc, vec![in alloc; put]?, 1);
    out.fail_flushes(vec![in alloc; flush]?);
    let mut err = MemSink::new(alloc, Vec::new(alloc), 0);
    let status = status_of(alloc, &words, &mut files, &mut out, &mut err);
    show(alloc, status, &out, &err)
}

// Sees that such a run ends as it is to be.
fn expect_flushed(
    rt: &impl Abort,
    alloc: Global,
    line: &str,
    file: &[u8],
    faults: (u64, u64, u64),
    want: &str,
) -> Result<(), Fail> {
    let (load, put, flush) = faults;
    let shown = run_flushed(alloc, line, file, load, put, flush)?;
    assert_eq!(rt; shown.as_str(), want, "{line}, flush {flush}");
    Ok(())
}

// Commands, files, the numbers of the load, the put and the flush that fail, and what is shown.
static FLUSHES: [(&str, &[u8], (u64, u64, u64), &str); 10] = [
    // Done and Rejected become WriteFault, and all that was put stands there.
    (
        "edges g6 g",
        b"A_\n",
        (0, 0, 1),
        "5|p edge 2 1\ne 1 2\n|mdt: write fault\n",
    ),
    (
        "tree g6 g",
        b"@\n",
        (0, 0, 1),
        "5|mdt tree\nt 0\nend\n|mdt: write fault\n",
    ),
    (
        "check tree g6 g r",
        b"@\n",
        (0, 0, 1),
        "5|rejected line 2\n|mdt: write fault\n",
    ),
    ("edges g6 g", b"", (0, 0, 1), "5||mdt: write fault\n"),
    // A run flushes once.
    ("edges g6 g", b"A_\n", (0, 0, 2), "0|p edge 2 1\ne 1 2\n|"),
    (
        "check tree g6 g r",
        b"@\n",
        (0, 0, 2),
        "1|rejected line 2\n|",
    ),
    // The first cause stays.
    ("edges png g", b"A_\n", (0, 0, 1), "2||mdt: usage\n"),
    (
        "edges g6 g",
        b"A!\n",
        (0, 0, 1),
        "3||mdt: graph BadByte line 1\n",
    ),
    ("edges g6 g", b"A_\n", (1, 0, 1), "4||mdt: read fault\n"),
    ("edges g6 g", b"A_\n", (0, 1, 1), "5|p|mdt: write fault\n"),
];

#[test]
fn runs_with_failing_flushes(rt: HostRuntime) -> Result<(), Fail> {
    for (line, file, faults, want) in &FLUSHES {
        expect_flushed(&rt, rt.alloc(), line, *file, *faults, want)?;
    }
    Ok(())
}

// A writer that is full after some writes.
#[derive(Drop)]
struct FullWriter<'a> {
    written: &'a mut Vec<u8>,
    writes: u64,
}

impl Write for FullWriter<'_> {
    fn write(&mut self, piece: &[u8]) -> std::io::Result<usize> {
        if self.writes == 0 {
            return Err(Error::from(ErrorKind::StorageFull));
        }
        self.writes -= 1;
        self.written.extend_from_slice(piece)?;
        Ok(piece.len())
    }

    fn flush(&mut self) -> std::io::Result<()> {
        Ok(())
    }
}

// Sees that the bytes are those of the texts of graphs of two adjacent vertices.
fn expect_texts(rt: &impl Abort, bytes: &[u8]) {
    // The text of a graph is 17 bytes, and 1,927 of them are the most that 32 KiB hold.
    let text = b"p edge 2 1\ne 1 2\n".as_slice();
    for (i, byte) in bytes.iter().enumerate() {
        assert_eq!(rt; *byte, text[i % 17], "byte {i}");
    }
}

// The number of the status of a run over a file into a writer that takes so many writes, and what
// stands on `err`.
fn run_into(
    alloc: Global,
    file: &[u8],
    writes: u64,
    written: &mut Vec<u8>,
) -> Result<(u8, MemSink), Fail> {
    let words = words_of(alloc, "edges g6 g")?;
    let mut files = MemFiles::new(alloc, Vec::new(alloc));
    files.add("g", file)?;
    let mut out = GatheringSink::new(alloc, FullWriter { written, writes })?;
    let mut err = MemSink::new(alloc, Vec::new(alloc), 0);
    let status = status_of(alloc, &words, &mut files, &mut out, &mut err).number();
    Ok((status, err))
}

// Sees how such a run over many graphs ends.
fn expect_written(
    rt: &impl Abort,
    alloc: Global,
    writes: u64,
    code: u8,
    length: usize,
    line: &str,
) -> Result<(), Fail> {
    let mut file = Vec::new(alloc);
    for _ in 0..4_000 {
        file.extend_from_slice(b"A_\n")?;
    }
    let mut written = Vec::new(alloc);
    let (status, err) = run_into(alloc, &file, writes, &mut written)?;
    assert_eq!(rt; status, code, "{writes} writes");
    assert_eq!(rt; written.len(), length, "{writes} writes");
    assert_eq!(rt; err.bytes(), line.as_bytes(), "{writes} writes");
    expect_texts(rt, &written);
    Ok(())
}

#[test]
fn runs_into_a_full_writer(rt: HostRuntime) -> Result<(), Fail> {
    let fault = "mdt: write fault\n";
    expect_written(&rt, rt.alloc(), 0, 5, 0, fault)?;
    expect_written(&rt, rt.alloc(), 1, 5, 32_759, fault)?;
    expect_written(&rt, rt.alloc(), 2, 5, 65_518, fault)?;
    expect_written(&rt, rt.alloc(), 3, 0, 68_000, "")
}
