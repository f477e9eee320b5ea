//! A disk in memory with one file.

use crate::expect::expect_bytes;
use std::alloc::Allocator;
use std::fs::{Files, Metadata, OpenFile, OpenOptions};
use std::io;
use std::io::{Error, ErrorKind, Read, Seek, SeekFrom, Write};
use std::process::Abort;
use std::sync::{Mutex, Wait};

/// The name of the file.
pub const NAME: &str = "kept.dde";

/// What the disk lets be done with its file.
#[derive(Clone, Copy, Debug, PartialEq, Eq)]
pub enum Allows {
    All,
    Reading,
    Nothing,
}

/// What the disk holds, and what was done to it.
#[derive(Drop)]
pub struct Held {
    pub bytes: Vec<u8>,
    /// How many bytes there is room for.
    pub room: usize,
    /// Whether the file is a folder.
    pub is_folder: bool,
    pub allows: Allows,
    /// Whether syncs fail.
    pub syncs_fail: bool,
    pub writes: u64,
    pub syncs: u64,
}

/// A disk with one file.
#[derive(Drop)]
pub struct Disk<'a, R> {
    rt: &'a R,
    pub held: Mutex<Held>,
}

impl<'a, R: Wait> Disk<'a, R> {
    /// A disk whose file has these bytes, and which has room for so many.
    pub fn new(rt: &'a R, bytes: Vec<u8>, room: usize) -> Disk<'a, R> {
        Disk {
            rt,
            held: Mutex::new(Held {
                bytes,
                room,
                is_folder: false,
                allows: Allows::All,
                syncs_fail: false,
                writes: 0,
                syncs: 0,
            }),
        }
    }

    /// From now on the file is a folder or not, and this may be done with it.
    pub fn becomes(&self, is_folder: bool, allows: Allows) {
        let mut held = self.held.lock(self.rt);
        held.is_folder = is_folder;
        held.allows = allows;
    }

    /// From now on syncs fail.
    pub fn fails_syncs(&self) {
        self.held.lock(self.rt).syncs_fail = true;
    }

    /// How many writes and syncs there were.
    pub fn calls(&self) -> (u64, u64) {
        let held = self.held.lock(self.rt);
        (held.writes, held.syncs)
    }
}

impl<'a, R: Wait + Abort> Disk<'a, R> {
    /// The file has these bytes.
    pub fn expect_bytes(&self, wanted: &[u8]) {
        let held = self.held.lock(self.rt);
        expect_bytes(self.rt, held.bytes.as_slice(), wanted);
    }
}

/// The file of a disk, open.
#[derive(Drop)]
pub struct Open<'a, R> {
    disk: &'a Disk<'a, R>,
    at: usize,
    /// Whether each write goes to the end of the file.
    appends: bool,
    /// Whether it was opened to be written.
    writes: bool,
}

impl<R: Wait> Read for Open<'_, R> {
    fn read(&mut self, buf: &mut [u8]) -> io::Result<usize> {
        let mut held = self.disk.held.lock(self.disk.rt);
        let all = held.bytes.as_slice();
        let start = self.at.min(all.len());
        let rest = &all[start..];
        let count = rest.len().min(buf.len());
        buf[..count].copy_from_slice(&rest[..count]);
        self.at = start + count;
        Ok(count)
    }
}

impl<R: Wait> Write for Open<'_, R> {
    /// Takes as many bytes as there is room for, and writes them over those at its place if it isn't at the end.
    fn write(&mut self, buf: &[u8]) -> io::Result<usize> {
        let mut held = self.disk.held.lock(self.disk.rt);
        held.writes = held.writes.saturating_add(1);
        if !self.writes {
            return Err(Error::from(ErrorKind::Other));
        }
        let length = held.bytes.len();
        let start = if self.appends {
            length
        } else {
            self.at.min(length)
        };
        let count = held.room.saturating_sub(start).min(buf.len());
        if count == 0 && !buf.is_empty() {
            return Err(Error::from(ErrorKind::StorageFull));
        }
        let over = count.min(length - start);
        held.bytes[start..start + over].copy_from_slice(&buf[..over]);
        held.bytes.extend_from_slice(&buf[over..count])?;
        self.at = start.saturating_add(count);
        Ok(count)
    }

    fn flush(&mut self) -> io::Result<()> {
        Ok(())
    }
}

impl<R: Wait> Seek for Open<'_, R> {
    fn seek(&mut self, to: SeekFrom) -> io::Result<u64> {
        match to {
            SeekFrom::Start(at) => {
                self.at = at as usize;
                Ok(at)
            }
            _ => not_done(),
        }
    }
}

impl<R: Wait> OpenFile for Open<'_, R> {
    fn metadata(&self) -> io::Result<Metadata> {
        let held = self.disk.held.lock(self.disk.rt);
        if held.is_folder {
            return Ok(Metadata::of_dir());
        }
        Ok(Metadata::of_file(held.bytes.len() as u64))
    }

    fn set_len(&self, _size: u64) -> io::Result<()> {
        not_done()
    }

    fn sync_all(&self) -> io::Result<()> {
        not_done()
    }

    fn sync_data(&self) -> io::Result<()> {
        let mut held = self.disk.held.lock(self.disk.rt);
        held.syncs = held.syncs.saturating_add(1);
        if held.syncs_fail {
            return Err(Error::from(ErrorKind::Other));
        }
        Ok(())
    }
}

/// What this system doesn't do.
fn not_done<T>() -> io::Result<T> {
    Err(Error::from(ErrorKind::Unsupported))
}

/// A system whose one file is that of a disk, by its name.
#[derive(Drop)]
pub struct System<'a, R>(pub &'a Disk<'a, R>);

impl<'a, R: Wait> Files for System<'a, R> {
    type File = Open<'a, R>;

    type Dir = io::Empty;

    fn open_file(&self, how: &OpenOptions, path: &str) -> io::Result<Open<'a, R>> {
        how.check()?;
        if path != NAME {
            return Err(Error::from(ErrorKind::NotFound));
        }
        let writes = how.asks_append() || how.asks_write();
        let allows = self.0.held.lock(self.0.rt).allows;
        if allows == Allows::Nothing || (writes && allows == Allows::Reading) {
            return Err(Error::from(ErrorKind::PermissionDenied));
        }
        if how.asks_truncate() {
            self.0.held.lock(self.0.rt).bytes.clear();
        }
        Ok(Open {
            disk: self.0,
            at: 0,
            appends: how.asks_append(),
            writes,
        })
    }

    fn open_dir(&self, _path: &str) -> io::Result<io::Empty> {
        not_done()
    }

    fn metadata(&self, _path: &str) -> io::Result<Metadata> {
        not_done()
    }

    fn symlink_metadata(&self, _path: &str) -> io::Result<Metadata> {
        not_done()
    }

    fn copy(&self, _from: &str, _to: &str) -> io::Result<u64> {
        not_done()
    }

    fn rename(&self, _from: &str, _to: &str) -> io::Result<()> {
        not_done()
    }

    fn remove_file(&self, _path: &str) -> io::Result<()> {
        not_done()
    }

    fn create_dir(&self, _path: &str) -> io::Result<()> {
        not_done()
    }

    fn remove_dir(&self, _path: &str) -> io::Result<()> {
        not_done()
    }

    fn remove_dir_all<B: Allocator>(&self, _alloc: B, _path: &str) -> io::Result<()> {
        not_done()
    }
}
