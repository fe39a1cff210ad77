// Files of which the first sync fails, and which count what they are asked for, each apart.
use branch_disk::LockFile;
use std::alloc::Allocator;
use std::cell::Cell;
use std::fs::{Metadata, OpenFile, OpenOptions};
use std::io;
use std::io::{ErrorKind, Read, Seek, SeekFrom, Write};
use std::rt::Files;

// How often each of the two files and their folder was asked for a sync, and how long each of them is.
#[derive(Drop)]
pub struct Shaky {
    objects: Cell<u64>,
    heads: Cell<u64>,
    folder: Cell<u64>,
    length: u64,
}

impl Shaky {
    pub fn new(length: u64) -> Shaky {
        Shaky {
            objects: Cell::new(0),
            heads: Cell::new(0),
            folder: Cell::new(0),
            length,
        }
    }

    // How often each was asked for a sync: the objects, the heads, and the folder.
    pub fn syncs(&self) -> (u64, u64, u64) {
        (self.objects.get(), self.heads.get(), self.folder.get())
    }

    fn syncs_of(&self, path: &str) -> &Cell<u64> {
        if path.ends_with(".objects") {
            &self.objects
        } else if path.ends_with(".heads") {
            &self.heads
        } else {
            &self.folder
        }
    }
}

// One of them. It takes each byte and gives none.
#[derive(Drop)]
pub struct ShakyFile<'a> {
    length: u64,
    syncs: &'a Cell<u64>,
}

fn refused<T>() -> io::Result<T> {
    Err(io::Error::from(ErrorKind::Unsupported))
}

impl<'a> Read for ShakyFile<'a> {
    fn read(&mut self, _buf: &mut [u8]) -> io::Result<usize> {
        Ok(0)
    }
}

impl<'a> Write for ShakyFile<'a> {
    fn write(&mut self, buf: &[u8]) -> io::Result<usize> {
        Ok(buf.len())
    }

    fn flush(&mut self) -> io::Result<()> {
        Ok(())
    }
}

impl<'a> Seek for ShakyFile<'a> {
    fn seek(&mut self, _to: SeekFrom) -> io::Result<u64> {
        Ok(self.length)
    }
}

impl<'a> OpenFile for ShakyFile<'a> {
    fn metadata(&self) -> io::Result<Metadata> {
        refused()
    }

    fn set_len(&self, _size: u64) -> io::Result<()> {
        refused()
    }

    fn sync_all(&self) -> io::Result<()> {
        let before = self.syncs.get();
        self.syncs.set(before.saturating_add(1));
        if before == 0 { refused() } else { Ok(()) }
    }

    fn sync_data(&self) -> io::Result<()> {
        refused()
    }
}

impl<'a> LockFile for ShakyFile<'a> {
    fn take_lock(&self) -> io::Result<()> {
        Ok(())
    }
}

impl<'a> Files for &'a Shaky {
    type File = ShakyFile<'a>;

    type Dir = ShakyFile<'a>;

    fn open_file(&self, _how: &OpenOptions, path: &str) -> io::Result<ShakyFile<'a>> {
        Ok(ShakyFile {
            length: self.length,
            syncs: self.syncs_of(path),
        })
    }

    fn open_dir(&self, _path: &str) -> io::Result<ShakyFile<'a>> {
        refused()
    }

    fn metadata(&self, _path: &str) -> io::Result<Metadata> {
        refused()
    }

    fn symlink_metadata(&self, _path: &str) -> io::Result<Metadata> {
        refused()
    }

    fn copy(&self, _from: &str, _to: &str) -> io::Result<u64> {
        refused()
    }

    fn rename(&self, _from: &str, _to: &str) -> io::Result<()> {
        refused()
    }

    fn remove_file(&self, _path: &str) -> io::Result<()> {
        refused()
    }

    fn create_dir(&self, _path: &str) -> io::Result<()> {
        refused()
    }

    fn remove_dir(&self, _path: &str) -> io::Result<()> {
        refused()
    }

    fn remove_dir_all<B: Allocator>(&self, _alloc: B, _path: &str) -> io::Result<()> {
        refused()
    }
}
