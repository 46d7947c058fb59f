//! A file system that gives two bytes at a time, in place of the system's.
ghost use Rattle.std.specs.Prelude.{IsOk};

use std::alloc::Allocator;
use std::fs::{Files, Metadata, OpenFile, OpenOptions};
use std::io::{Error, ErrorKind, Read, Result, Seek, SeekFrom, Write};

// Files of any name, each with these bytes, which end or fail behind them.
#[derive(Drop)]
pub(super) struct SlowFiles<'a> {
    pub(super) bytes: &'a [u8],
    pub(super) fails: bool,
}

// A reader that gives two bytes at a time after one interruption, and then ends or fails.
#[derive(Drop)]
pub(super) struct SlowReader<'a> {
    left: &'a [u8],
    interrupted: bool,
    fails: bool,
}

impl Read for SlowReader<'_> {
    fn read(&mut self, buffer: &mut [u8]) -> Result<usize> {
        if !self.interrupted {
            self.interrupted = true;
            return Err(Error::from(ErrorKind::Interrupted));
        }
        if self.fails && self.left.is_empty() {
            return Err(Error::from(ErrorKind::Other));
        }
        let n = self.left.len().min(buffer.len()).min(2);
        let (part, rest) = self.left.split_at(n);
        buffer[..n].copy_from_slice(part);
        self.left = rest;
        Ok(n)
    }
}

// What these files are not asked for.
fn refuse<T>() -> Result<T>
    ensures { ¬ IsOk result }
{
    Err(Error::from(ErrorKind::Unsupported))
}

impl Write for SlowReader<'_> {
    fn write(&mut self, _piece: &[u8]) -> Result<usize> {
        refuse()
    }

    fn flush(&mut self) -> Result<()> {
        refuse()
    }
}

impl Seek for SlowReader<'_> {
    fn seek(&mut self, _to: SeekFrom) -> Result<u64> {
        refuse()
    }
}

impl OpenFile for SlowReader<'_> {
    fn metadata(&self) -> Result<Metadata> {
        refuse()
    }

    fn set_len(&self, _size: u64) -> Result<()> {
        refuse()
    }

    fn sync_all(&self) -> Result<()> {
        refuse()
    }

    fn sync_data(&self) -> Result<()> {
        refuse()
    }
}

impl<'a> Files for SlowFiles<'a> {
    type File = SlowReader<'a>;

    type Dir = SlowReader<'a>;

    fn open_file(&self, how: &OpenOptions, _path: &str) -> Result<SlowReader<'a>> {
        how.check()?;
        Ok(SlowReader {
            left: self.bytes,
            interrupted: false,
            fails: self.fails,
        })
    }

    fn open_dir(&self, _path: &str) -> Result<SlowReader<'a>> {
        refuse()
    }

    fn metadata(&self, _path: &str) -> Result<Metadata> {
        refuse()
    }

    fn symlink_metadata(&self, _path: &str) -> Result<Metadata> {
        refuse()
    }

    fn copy(&self, _from: &str, _to: &str) -> Result<u64> {
        refuse()
    }

    fn rename(&self, _from: &str, _to: &str) -> Result<()> {
        refuse()
    }

    fn remove_file(&self, _path: &str) -> Result<()> {
        refuse()
    }

    fn create_dir(&self, _path: &str) -> Result<()> {
        refuse()
    }

    fn remove_dir(&self, _path: &str) -> Result<()> {
        refuse()
    }

    fn remove_dir_all<B: Allocator>(&self, _alloc: B, _path: &str) -> Result<()> {
        refuse()
    }
}
