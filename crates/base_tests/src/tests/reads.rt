//! Reads of real files, and of a file that falters.
ghost use Rattle.std.specs.Prelude.{◌≤◌};

use ak_io::{FileShelf, ReadEnd, ReadFault, Shelf};
use std::alloc::Allocator;
use std::fs::{Metadata, OpenFile, OpenOptions};
use std::io::{ErrorKind, Read, Seek, SeekFrom, Write};
use std::process::Abort;
use std::rt::Files;
use std::test::Fail;
use std::{env, fs, io, process};

/// What a read of that name into so many bytes answers, and leaves in a buffer of four dashes.
type ReadRow<'a> = (&'a str, usize, Result<ReadEnd, ReadFault>, &'a str);

/// What a read into the front of a buffer of four dashes answers, and leaves there.
fn read_over_dashes<S: Shelf>(
    shelf: &mut S,
    name: &str,
    room: usize,
) -> (Result<ReadEnd, ReadFault>, [u8; 4])
    requires { room ≤ 4 }
{
    let mut buffer = [b'-'; 4];
    let end = shelf.read(name, &mut buffer[..room]);
    (end, buffer)
}

/// Reads each row in order.
fn check_reads<S: Shelf>(rt: &impl Abort, shelf: &mut S, rows: &[ReadRow<'_>]) {
    for (name, room, end, left) in rows {
        assert!(rt; *room <= 4);
        let read = read_over_dashes(shelf, name, *room);
        assert_eq!(rt;
            (read.0, read.1.as_slice()),
            (*end, left.as_bytes()),
            "{name}"
        );
    }
}

#[test]
fn real_files(rt: HostRuntime) -> Result<(), Fail> {
    let folder = env::temp_dir(&rt)?;
    let name = format!(in rt.alloc(); "ak_io_{}", process::id(rt.process()))?;
    let path = folder.join(rt.alloc(), name.as_str())?;
    let path = path.as_path().to_string_lossy();
    fs::write(&rt, path, "abc")?;
    let rows = [
        (path, 4, Ok(ReadEnd::Whole(3)), "abc-"),
        (path, 3, Ok(ReadEnd::Whole(3)), "abc-"),
        (path, 2, Ok(ReadEnd::TooLong), "ab--"),
        ("/", 4, Err(ReadFault), "----"),
        ("/missing/file", 4, Err(ReadFault), "----"),
    ];
    check_reads(&rt, &mut FileShelf::new(&rt), &rows);
    fs::remove_file(&rt, path)?;
    Ok(())
}

/// A file that is interrupted before each read and gives one byte a read, three in all; or it fails in place of the last.
#[derive(Drop)]
struct Faltering {
    left: u8,
    ready: bool,
    fails: bool,
}

impl Read for Faltering {
    fn read(&mut self, buf: &mut [u8]) -> io::Result<usize> {
        self.ready = !self.ready;
        if self.ready {
            return Err(io::Error::from(ErrorKind::Interrupted));
        }
        if self.fails && self.left == 1 {
            return Err(io::Error::from(ErrorKind::Other));
        }
        if self.left == 0 || buf.is_empty() {
            return Ok(0);
        }
        self.left -= 1;
        buf[0] = b'a';
        Ok(1)
    }
}

/// The error of what a shelf doesn't call.
fn unsupported() -> io::Error {
    io::Error::from(ErrorKind::Unsupported)
}

impl Write for Faltering {
    fn write(&mut self, _buf: &[u8]) -> io::Result<usize> {
        Err(unsupported())
    }

    fn flush(&mut self) -> io::Result<()> {
        Err(unsupported())
    }
}

impl Seek for Faltering {
    fn seek(&mut self, _to: SeekFrom) -> io::Result<u64> {
        Err(unsupported())
    }
}

impl OpenFile for Faltering {
    fn metadata(&self) -> io::Result<Metadata> {
        Err(unsupported())
    }

    fn set_len(&self, _size: u64) -> io::Result<()> {
        Err(unsupported())
    }

    fn sync_all(&self) -> io::Result<()> {
        Err(unsupported())
    }

    fn sync_data(&self) -> io::Result<()> {
        Err(unsupported())
    }
}

/// Files that falter, of which those that are named broken fail.
#[derive(Drop)]
struct FalteringFiles;

impl Files for FalteringFiles {
    type File = Faltering;

    type Dir = Faltering;

    fn open_file(&self, _how: &OpenOptions, path: &str) -> io::Result<Faltering> {
        Ok(Faltering {
            left: 3,
            ready: false,
            fails: path == "broken",
        })
    }

    fn open_dir(&self, _path: &str) -> io::Result<Faltering> {
        Err(unsupported())
    }

    fn metadata(&self, _path: &str) -> io::Result<Metadata> {
        Err(unsupported())
    }

    fn symlink_metadata(&self, _path: &str) -> io::Result<Metadata> {
        Err(unsupported())
    }

    fn copy(&self, _from: &str, _to: &str) -> io::Result<u64> {
        Err(unsupported())
    }

    fn rename(&self, _from: &str, _to: &str) -> io::Result<()> {
        Err(unsupported())
    }

    fn remove_file(&self, _path: &str) -> io::Result<()> {
        Err(unsupported())
    }

    fn create_dir(&self, _path: &str) -> io::Result<()> {
        Err(unsupported())
    }

    fn remove_dir(&self, _path: &str) -> io::Result<()> {
        Err(unsupported())
    }

    fn remove_dir_all<B: Allocator>(&self, _alloc: B, _path: &str) -> io::Result<()> {
        Err(unsupported())
    }
}

#[test]
fn broken_reads(rt: HostRuntime) {
    let rows = [
        ("whole", 4, Ok(ReadEnd::Whole(3)), "aaa-"),
        ("whole", 3, Ok(ReadEnd::Whole(3)), "aaa-"),
        ("whole", 2, Ok(ReadEnd::TooLong), "aa--"),
        ("broken", 4, Err(ReadFault), "aa--"),
        ("broken", 2, Err(ReadFault), "aa--"),
    ];
    check_reads(&rt, &mut FileShelf::new(FalteringFiles), &rows);
}
