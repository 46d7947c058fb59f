//! What loads of files answer: files in memory, of the system, and ones that are read slowly.
use crate::slow_files::SlowFiles;
use md_io::{DirFiles, Files, LoadFault, MemFiles};
use std::alloc::Global;
use std::fs;
use std::test::Fail;

// What a load answered, as text.
fn show(alloc: Global, answer: Result<Vec<u8>, LoadFault>) -> Result<String, Fail> {
    match answer {
        Ok(bytes) => {
            let mut text = String::new(alloc);
            for byte in bytes.as_slice() {
                text.push(char::from(*byte))?;
            }
            Ok(text)
        }
        Err(fault) => Ok(format!(in alloc; "{fault:?}")?),
    }
}

// Loads one after the other: the file, the limit, and the answer.
static FROM_MEMORY: [(&str, u64, &str); 6] = [
    ("a", 3, "TooLong"),
    ("a", 4, "four"),
    ("b", 0, ""),
    ("a", 4, "Failed"),
    ("c", 4, "Failed"),
    ("a", u64::MAX, "four"),
];

#[test]
fn loads_from_memory(rt: HostRuntime) -> Result<(), Fail> {
    let alloc = rt.alloc();
    let mut files = MemFiles::new(alloc, vec![in alloc; 4]?);
    files.add("a", b"old")?;
    files.add("a", b"four")?;
    files.add("b", b"")?;
    for (name, limit, want) in &FROM_MEMORY {
        let got = show(alloc, files.load(alloc, *name, *limit))?;
        assert_eq!(rt; got.as_str(), *want, "{name} within {limit}");
    }
    Ok(())
}

// The same of files of the system.
static FROM_THE_SYSTEM: [(&str, u64, &str); 5] = [
    ("/dev/null", 3, ""),
    ("/dev/zero", 300_000, "TooLong"),
    ("/dev/null/absent", 3, "Failed"),
    ("/proc/sys/kernel/ostype", 6, "Linux\n"),
    ("/proc/sys/kernel/ostype", 5, "TooLong"),
];

#[test]
fn loads_from_the_system(rt: HostRuntime) -> Result<(), Fail> {
    let alloc = rt.alloc();
    let mut files = DirFiles::new(&rt, alloc);
    for (name, limit, want) in &FROM_THE_SYSTEM {
        let got = show(alloc, files.load(alloc, *name, *limit))?;
        assert_eq!(rt; got.as_str(), *want, "{name} within {limit}");
    }
    Ok(())
}

// More than one read of the system gives at once.
const MANY: u32 = 300_000;

#[test]
fn loads_a_long_file(rt: HostRuntime) -> Result<(), Fail> {
    let alloc = rt.alloc();
    let mut bytes = Vec::new(alloc);
    for i in 0..MANY {
        bytes.push((i % 251) as u8)?;
    }
    let name = "md_io_long_file";
    fs::write(&rt, name, bytes.as_slice())?;
    let mut files = DirFiles::new(&rt, alloc);
    let whole = files.load(alloc, name, u64::from(MANY));
    let over = files.load(alloc, name, u64::from(MANY) - 1);
    fs::remove_file(&rt, name)?;
    assert_eq!(rt; whole?.as_slice(), bytes.as_slice());
    assert_eq!(rt; show(alloc, over)?.as_str(), "TooLong");
    Ok(())
}

// What a slow file holds, whether it fails behind that, the limit, and the answer.
static SLOW: [(&str, bool, u64, &str); 6] = [
    ("abcde", false, 5, "abcde"),
    ("abcde", false, 4, "TooLong"),
    ("abcde", true, 5, "Failed"),
    ("abcde", true, 3, "TooLong"),
    ("", false, 0, ""),
    ("", true, 0, "Failed"),
];

#[test]
fn loads_from_slow_files(rt: HostRuntime) -> Result<(), Fail> {
    let alloc = rt.alloc();
    for (bytes, fails, limit, want) in &SLOW {
        let slow = SlowFiles {
            bytes: bytes.as_bytes(),
            fails: *fails,
        };
        let mut files = DirFiles::new(&slow, alloc);
        let got = show(alloc, files.load(alloc, "slow", *limit))?;
        assert_eq!(rt; got.as_str(), *want, "{bytes} within {limit}");
    }
    Ok(())
}
