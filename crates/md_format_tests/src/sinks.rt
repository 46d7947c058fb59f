//! What sinks take, write and hand over, and how their puts and flushes fail.
use md_io::{GatheringSink, MemSink, SafeSink, Sink, StdSink};
use std::alloc::Global;
use std::io::{Error, ErrorKind, Write};
use std::test::Fail;

// What a put answered, as text.
fn put_shown<S: Sink>(alloc: Global, sink: &mut S, piece: &str) -> Result<String, Fail> {
    let answer = sink.put(piece.as_bytes());
    Ok(format!(in alloc; "{answer:?}")?)
}

// Puts one after the other: the piece, the answer, and what the sink holds then.
static TO_MEMORY: [(&str, &str, &str); 4] = [
    ("", "Ok(())", ""),
    ("abc", "Err(Failed)", "ab"),
    ("cd", "Ok(())", "abcd"),
    ("e", "Err(Failed)", "abcde"),
];

#[test]
fn puts_to_memory(rt: HostRuntime) -> Result<(), Fail> {
    let alloc = rt.alloc();
    let mut sink = MemSink::new(alloc, vec![in alloc; 1, 3]?, 2);
    for (piece, answer, want) in &TO_MEMORY {
        let got = put_shown(alloc, &mut sink, *piece)?;
        assert_eq!(rt; got.as_str(), *answer, "{piece}");
        assert_eq!(rt; sink.bytes(), want.as_bytes(), "{piece}");
    }
    let mut safe = SafeSink::new(alloc);
    safe.put(b"abc")?;
    safe.put(b"de")?;
    assert_eq!(rt; safe.bytes(), b"abcde".as_slice());
    Ok(())
}

// A writer that takes two bytes at a time after one interruption, and is full after five: then no
// flush is done.
#[derive(Drop)]
struct SlowWriter<'a> {
    written: &'a mut Vec<u8>,
    interrupted: bool,
}

impl Write for SlowWriter<'_> {
    fn write(&mut self, piece: &[u8]) -> std::io::Result<usize> {
        if !self.interrupted {
            self.interrupted = true;
            return Err(Error::from(ErrorKind::Interrupted));
        }
        let room = 5usize.saturating_sub(self.written.len());
        let part = &piece[..piece.len().min(room).min(2)];
        self.written.extend_from_slice(part)?;
        Ok(part.len())
    }

    fn flush(&mut self) -> std::io::Result<()> {
        if self.written.len() >= 5 {
            return Err(Error::from(ErrorKind::StorageFull));
        }
        Ok(())
    }
}

// Puts one after the other, and their answers.
static TO_A_WRITER: [(&str, &str); 4] = [
    ("abc", "Ok(())"),
    ("", "Ok(())"),
    ("def", "Err(Failed)"),
    ("g", "Err(Failed)"),
];

#[test]
fn puts_to_a_writer(rt: HostRuntime) -> Result<(), Fail> {
    let alloc = rt.alloc();
    let mut written = Vec::new(alloc);
    let slow = SlowWriter {
        written: &mut written,
        interrupted: false,
    };
    let mut sink = StdSink::new(slow);
    sink.flush()?;
    for (piece, answer) in &TO_A_WRITER {
        let got = put_shown(alloc, &mut sink, *piece)?;
        assert_eq!(rt; got.as_str(), *answer, "{piece}");
    }
    assert!(rt; sink.flush().is_err());
    drop(sink);
    assert_eq!(rt; written.as_slice(), b"abcde".as_slice());
    Ok(())
}

// A writer that notes the length of each write, and fails once it took as many as it takes.
#[derive(Drop)]
struct NotingWriter<'a> {
    written: &'a mut Vec<u8>,
    lengths: &'a mut Vec<usize>,
    most: usize,
}

impl Write for NotingWriter<'_> {
    fn write(&mut self, piece: &[u8]) -> std::io::Result<usize> {
        if self.lengths.len() >= self.most {
            return Err(Error::from(ErrorKind::StorageFull));
        }
        self.lengths.push(piece.len())?;
        self.written.extend_from_slice(piece)?;
        Ok(piece.len())
    }

    fn flush(&mut self) -> std::io::Result<()> {
        Ok(())
    }
}

// How many of so many puts of ten bytes to a gathering sink are refused, and what its flush and a
// put of one byte behind that answer, as text.
fn gather(alloc: Global, writer: NotingWriter<'_>, puts: u64) -> Result<String, Fail> {
    let mut sink = GatheringSink::new(alloc, writer)?;
    let mut refused = 0u64;
    for _ in 0..puts {
        if sink.put(b"0123456789").is_err() {
            refused = refused.saturating_add(1);
        }
    }
    let flush = sink.flush();
    let put = sink.put(b"0");
    Ok(format!(in alloc; "{refused} {flush:?} {put:?}")?)
}

// Puts, writes that the writer takes; what they answer, the lengths of the writes.
static GATHERED: [(u64, usize, &str, &[usize]); 7] = [
    (0, 9, "0 Ok(()) Ok(())", &[1]),
    (1, 9, "0 Ok(()) Ok(())", &[10, 1]),
    (3_276, 9, "0 Ok(()) Ok(())", &[32_760, 1]),
    (
        10_000,
        9,
        "0 Ok(()) Ok(())",
        &[32_760, 32_760, 32_760, 1_720, 1],
    ),
    (1, 0, "0 Err(Failed) Err(Failed)", &[]),
    (3_300, 1, "0 Err(Failed) Err(Failed)", &[32_760]),
    (6_553, 1, "1 Err(Failed) Err(Failed)", &[32_760]),
];

#[test]
fn gathers_small_puts(rt: HostRuntime) -> Result<(), Fail> {
    let alloc = rt.alloc();
    for (puts, most, answers, want) in &GATHERED {
        let mut written = Vec::new(alloc);
        let mut lengths = Vec::new(alloc);
        let writer = NotingWriter {
            written: &mut written,
            lengths: &mut lengths,
            most: *most,
        };
        let got = gather(alloc, writer, *puts)?;
        assert_eq!(rt; got.as_str(), *answers, "{puts} puts, {most} writes");
        assert_eq!(rt; lengths.as_slice(), *want, "{puts} puts, {most} writes");
        for (i, byte) in written.as_slice().iter().enumerate() {
            assert_eq!(rt;
                u64::from(*byte),
                48 + i as u64 % 10,
                "byte {i} of {puts} puts"
            );
        }
    }
    Ok(())
}

#[test]
fn passes_large_puts_through(rt: HostRuntime) -> Result<(), Fail> {
    let alloc = rt.alloc();
    let mut written = Vec::new(alloc);
    let mut lengths = Vec::new(alloc);
    let mut sink = GatheringSink::new(
        alloc,
        NotingWriter {
            written: &mut written,
            lengths: &mut lengths,
            most: 9,
        },
    )?;
    sink.put(b"ab")?;
    sink.put(&vec![in alloc; b'c'; 40_000]?)?;
    sink.put(b"d")?;
    sink.flush()?;
    drop(sink);
    assert_eq!(rt; lengths.as_slice(), [2, 40_000, 1].as_slice());
    assert_eq!(rt; written.len(), 40_003);
    assert_eq!(rt; &written[1..4], b"bcc".as_slice());
    Ok(())
}

#[test]
fn writes_each_put_at_once_without_room(rt: HostRuntime) -> Result<(), Fail> {
    let alloc = rt.alloc();
    let mut written = Vec::new(alloc);
    let mut lengths = Vec::new(alloc);
    let mut sink = GatheringSink::without_room(
        alloc,
        NotingWriter {
            written: &mut written,
            lengths: &mut lengths,
            most: 2,
        },
    );
    sink.put(b"ab")?;
    sink.put(b"")?;
    sink.put(b"c")?;
    let third = sink.put(b"d");
    drop(sink);
    let got = format!(in alloc; "{third:?} {lengths:?}")?;
    assert_eq!(rt; got.as_str(), "Err(Failed) [2, 1]");
    assert_eq!(rt; written.as_slice(), b"abc".as_slice());
    Ok(())
}

#[test]
fn flushes_fail_for_good(rt: HostRuntime) -> Result<(), Fail> {
    let alloc = rt.alloc();
    let mut sink = MemSink::new(alloc, Vec::new(alloc), 0);
    sink.fail_flushes(vec![in alloc; 2]?);
    sink.put(b"ab")?;
    sink.flush()?;
    sink.put(b"c")?;
    let second = sink.flush();
    let put = sink.put(b"d");
    let empty = sink.put(b"");
    let third = sink.flush();
    let got = format!(in alloc; "{second:?} {put:?} {empty:?} {third:?}")?;
    assert_eq!(rt; got.as_str(), "Err(Failed) Err(Failed) Ok(()) Err(Failed)");
    assert_eq!(rt; sink.bytes(), b"abc".as_slice());
    Ok(())
}
