//! A system in memory with two files, which give a byte a call and have room for some more. One of the calls of each
//! fails.

use std::alloc::{AllocError, Allocator, Global};
use std::fs::{Files, Metadata, OpenFile, OpenOptions};
use std::io;
use std::io::{Error, ErrorKind, Read, Seek, SeekFrom, Write};
use std::sync::Wait;
use std::sync::atomic::Ordering::SeqCst;
use std::sync::atomic::{AtomicU8, AtomicU64, AtomicUsize};
use std::thread::Threads;

/// The name of the file with evidence.
pub const EVIDENCE: &str = "club.dde";

/// The name of the file with boards.
pub const BOARDS: &str = "club.pbn";

/// A disk with one file.
#[derive(Drop)]
pub struct Disk {
    /// The bytes of the file, and its room behind them.
    bytes: Vec<AtomicU8>,
    /// How many bytes it has.
    length: AtomicUsize,
    /// How many calls there were.
    calls: AtomicU64,
    /// The call that fails, counted from 0.
    failing: u64,
}

impl Disk {
    /// A disk whose file has these bytes, and room for so many more.
    pub fn new(
        alloc: Global,
        before: &[u8],
        room: usize,
        failing: u64,
    ) -> Result<Disk, AllocError> {
        let mut bytes = Vec::new(alloc);
        for byte in before {
            bytes.push(AtomicU8::new(*byte))?;
        }
        for _ in 0..room {
            bytes.push(AtomicU8::new(0))?;
        }
        Ok(Disk {
            bytes,
            length: AtomicUsize::new(before.len()),
            calls: AtomicU64::new(0),
            failing,
        })
    }

    /// The bytes of the file.
    pub fn bytes(&self, alloc: Global) -> Result<Vec<u8>, AllocError> {
        let mut bytes = Vec::new(alloc);
        for byte in self.bytes.iter().take(self.length.load(SeqCst)) {
            bytes.push(byte.load(SeqCst))?;
        }
        Ok(bytes)
    }

    /// A call, which may be the one that fails.
    fn call(&self) -> io::Result<()> {
        if self.calls.fetch_add(1, SeqCst) == self.failing {
            return Err(Error::from(ErrorKind::Other));
        }
        Ok(())
    }
}

/// The file of a disk, open.
#[derive(Drop)]
pub struct Open<'a> {
    disk: &'a Disk,
    at: usize,
}

impl Read for Open<'_> {
    fn read(&mut self, buf: &mut [u8]) -> io::Result<usize> {
        self.disk.call()?;
        let Some(spot) = buf.first_mut() else {
            return Ok(0);
        };
        let Some(byte) = self.disk.bytes.get(self.at) else {
            return Ok(0);
        };
        if self.at >= self.disk.length.load(SeqCst) {
            return Ok(0);
        }
        *spot = byte.load(SeqCst);
        self.at = self.at.saturating_add(1);
        Ok(1)
    }
}

impl Write for Open<'_> {
    fn write(&mut self, buf: &[u8]) -> io::Result<usize> {
        self.disk.call()?;
        let length = self.disk.length.load(SeqCst);
        let count = self.disk.bytes.len().saturating_sub(length).min(buf.len());
        if count == 0 && !buf.is_empty() {
            return Err(Error::from(ErrorKind::StorageFull));
        }
        for (spot, byte) in self.disk.bytes.iter().skip(length).zip(buf) {
            spot.store(*byte, SeqCst);
        }
        self.disk.length.store(length.saturating_add(count), SeqCst);
        Ok(count)
    }

    fn flush(&mut self) -> io::Result<()> {
        Ok(())
    }
}

impl Seek for Open<'_> {
    fn seek(&mut self, to: SeekFrom) -> io::Result<u64> {
        self.disk.call()?;
        match to {
            SeekFrom::Start(at) => {
                self.at = at as usize;
                Ok(at)
            }
            _ => not_done(),
        }
    }
}

impl OpenFile for Open<'_> {
    fn metadata(&self) -> io::Result<Metadata> {
        self.disk.call()?;
        Ok(Metadata::of_file(self.disk.length.load(SeqCst) as u64))
    }

    fn set_len(&self, _size: u64) -> io::Result<()> {
        not_done()
    }

    fn sync_all(&self) -> io::Result<()> {
        not_done()
    }

    fn sync_data(&self) -> io::Result<()> {
        self.disk.call()
    }
}

/// A system with two files. An empty file isn't there for a run that makes a new one.
#[derive(Drop)]
pub struct System<'a, R> {
    pub rt: &'a R,
    pub evidence: &'a Disk,
    pub boards: &'a Disk,
}

impl<R: Threads> Threads for System<'_, R> {}

impl<R: Wait> Wait for System<'_, R> {}

/// What this system doesn't do.
fn not_done<T>() -> io::Result<T> {
    Err(Error::from(ErrorKind::Unsupported))
}

impl<'a, R> Files for System<'a, R> {
    type File = Open<'a>;

    type Dir = io::Empty;

    fn open_file(&self, how: &OpenOptions, path: &str) -> io::Result<Open<'a>> {
        how.check()?;
        let disk = match path {
            EVIDENCE => self.evidence,
            BOARDS => self.boards,
            _ => return Err(Error::from(ErrorKind::NotFound)),
        };
        disk.call()?;
        if how.asks_create_new() && disk.length.load(SeqCst) > 0 {
            return Err(Error::from(ErrorKind::AlreadyExists));
        }
        Ok(Open { disk, at: 0 })
    }

    fn open_dir(&self, _path: &str) -> io::Result<io::Empty> {
        not_done()
    }

    fn metadata(&self, _path: &str) -> io::Result<Metadata> {
        not_done()
    }

    fn symlink_metadata(&self, _path: &str) -> io::Result<Metadata> {
        not_done()
    }

    fn copy(&self, _from: &str, _to: &str) -> io::Result<u64> {
        not_done()
    }

    fn rename(&self, _from: &str, _to: &str) -> io::Result<()> {
        not_done()
    }

    fn remove_file(&self, _path: &str) -> io::Result<()> {
        not_done()
    }

    fn create_dir(&self, _path: &str) -> io::Result<()> {
        not_done()
    }

    fn remove_dir(&self, _path: &str) -> io::Result<()> {
        not_done()
    }

    fn remove_dir_all<B: Allocator>(&self, _alloc: B, _path: &str) -> io::Result<()> {
        not_done()
    }
}
