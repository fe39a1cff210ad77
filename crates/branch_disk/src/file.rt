// A disk over two files: the edge where nothing is known but the count of faults.
ghost use Rattle.std.specs.Prelude.{◌≡◌, ◌-◌, ◌+◌, None, Some, Ok, Err, IsErr, IsSome, IfSome, IfOk, OnOk, length};
ghost use Rattle.std.specs.Io.KnownBytes.{Consumes, Appends};
ghost use Rattle.branch_io.specs.Causes.{HasCause};
ghost use Rattle.branch_disk.specs.Edge.{FromPlace, OnFile};

use crate::{Disk, DiskFailed, Part};
use std::fs::{File, OpenFile, OpenOptions};
use std::io;
use std::io::{Read, Seek, SeekFrom, Write};
use std::path::Path;
use std::rt::Files;

/// A file of which one open at a time can have the lock.
pub trait LockFile {
    /// Takes the lock, for as long as the file is open, and waits for nobody. It fails where another open of the
    /// file has the lock, in this program or in another one.
    fn take_lock(&self) -> io::Result<()>;
}

impl LockFile for File {
    fn take_lock(&self) -> io::Result<()> {
        self.try_lock()?;
        Ok(())
    }
}

/// A disk over the files PATH`.objects` and PATH`.heads`. Both are opened, or made empty, at its first call. It
/// counts each error, a write that takes nothing and a file that ends early among them.
///
/// One disk at a time can have the files: the first call opens the heads and takes their lock, before it makes the
/// objects and before anything is read or written, and the lock is kept until the disk is dropped. While another
/// disk has it, also one of another program, each call fails and leaves both files as they are.
///
/// A sync is the system's `fsync` of that file. Where a file is empty at the first call, it may just have been made:
/// then the folder of both is synced first, so that their names are there after a crash.
#[derive(Drop)]
pub struct FileDisk<R: Files + Drop> {
    rt: R,
    path: String,
    files: Option<Opened<R::File>>,
    faults: u64,
}

// Both files.
#[derive(Drop)]
struct Opened<F> {
    objects: F,
    heads: F,
}

// How long a file is.
fn length_of<F: Seek>(file: &mut F) -> io::Result<u64>
    ensures { IfSome (F.stream_position file.old) (λ _.
        IfSome (F.stream_bytes file.old) (λ xs. IfOk result (λ n. n ≡ length xs))) }
{
    file.seek(SeekFrom::End(0))
}

// Fills the buffer from a place on.
fn read_at<F: Seek + Read>(file: &mut F, at: u64, buf: &mut [u8]) -> io::Result<()>
    ensures { OnOk result (FromPlace F.stream_position at (λ old new.
        Consumes (F.remaining old) (F.remaining new) buf.new) file.old file.new) }
{
    file.seek(SeekFrom::Start(at))?;
    file.read_exact(buf)
}

// Writes all these bytes from a place on.
fn put_at<F: Seek + Write>(file: &mut F, at: u64, bytes: &[u8]) -> io::Result<()>
    ensures { OnOk result (FromPlace F.stream_position at (λ old new.
        Appends (F.contents old) (F.contents new) bytes.now) file.old file.new) }
{
    file.seek(SeekFrom::Start(at))?;
    file.write_all(bytes)
}

impl<F: Read + Write + Seek + OpenFile> Opened<F> {
    fn length(&mut self, part: Part) -> io::Result<u64>
        ensures { OnFile part (λ old new.
            IfSome (F.stream_position old) (λ _.
            IfSome (F.stream_bytes old) (λ xs. IfOk result (λ n. n ≡ length xs)))) self.old
            self.new }
    {
        match part {
            Part::Objects => length_of(&mut self.objects),
            Part::Heads => length_of(&mut self.heads),
        }
    }

    fn read(&mut self, part: Part, at: u64, buf: &mut [u8]) -> io::Result<()>
        ensures { OnFile part (λ old new.
            OnOk result (FromPlace F.stream_position at (λ mid end.
            Consumes (F.remaining mid) (F.remaining end) buf.new) old new)) self.old self.new }
    {
        match part {
            Part::Objects => read_at(&mut self.objects, at, buf),
            Part::Heads => read_at(&mut self.heads, at, buf),
        }
    }

    fn write(&mut self, part: Part, at: u64, bytes: &[u8]) -> io::Result<()>
        ensures { OnFile part (λ old new.
            OnOk result (FromPlace F.stream_position at (λ mid end.
            Appends (F.contents mid) (F.contents end) bytes.now) old new)) self.old self.new }
    {
        match part {
            Part::Objects => put_at(&mut self.objects, at, bytes),
            Part::Heads => put_at(&mut self.heads, at, bytes),
        }
    }

    fn sync(&mut self, part: Part) -> io::Result<()>
        ensures { self.new ≡ self.old }
    {
        match part {
            Part::Objects => self.objects.sync_all(),
            Part::Heads => self.heads.sync_all(),
        }
    }
}

// The name of one of the files.
fn name_of(path: &String, ending: &str) -> io::Result<String> {
    let mut name = path.clone()?;
    name.push_str(ending)?;
    Ok(name)
}

// Opens one of the files, or makes it.
fn open<R: Files>(rt: &R, name: &str) -> io::Result<R::File> {
    let mut how = OpenOptions::new();
    how.read(true);
    how.write(true);
    how.create(true);
    how.open(rt, name)
}

// Syncs the folder in which a file of this name lies.
fn sync_folder<R: Files>(rt: &R, name: &str) -> io::Result<()> {
    let folder = match Path::new(name).parent() {
        Some(folder) if !folder.as_str().is_empty() => folder.as_str(),
        _ => ".",
    };
    let mut how = OpenOptions::new();
    how.read(true);
    how.open(rt, folder)?.sync_all()
}

// Opens the heads and takes their lock, and then opens the objects. Syncs the folder of both where one of them is
// empty, as a new one is.
fn open_both<R: Files>(rt: &R, path: &String) -> io::Result<Opened<R::File>>
where
    R::File: LockFile,
{
    let name = name_of(path, ".heads")?;
    let heads = open(rt, name.as_str())?;
    heads.take_lock()?;
    let mut files = Opened {
        objects: open(rt, name_of(path, ".objects")?.as_str())?,
        heads,
    };
    if length_of(&mut files.objects)? == 0 || length_of(&mut files.heads)? == 0 {
        sync_folder(rt, name.as_str())?;
    }
    Ok(files)
}

// Opens both files where they are not open yet.
fn ready<R: Files>(rt: &R, path: &String, files: &mut Option<Opened<R::File>>) -> io::Result<()>
where
    R::File: LockFile,
    ensures open { OnOk result (IsSome files.new) }
    ensures same { IsSome files.old → files.new ≡ files.old }
{
    if files.is_none() {
        *files = Some(open_both(rt, path)?);
    }
    Ok(())
}

impl<R: Files + Drop> FileDisk<R>
where
    R::File: LockFile,
{
    /// The disk over the files with this path and the endings `.objects` and `.heads`: `FileDisk::new(rt,
    /// String::from("notes"))` is that over `notes.objects` and `notes.heads`. No file is opened or made before the disk's
    /// first call, and no fault is counted yet.
    pub fn new(rt: R, path: String) -> FileDisk<R>
        ensures { ⟦<FileDisk<R> as Disk>⟧.faults result ≡ 0 }
    {
        FileDisk {
            rt,
            path,
            files: None,
            faults: 0,
        }
    }
}

// Counts an error.
fn counted<T: Drop>(faults: &mut u64, done: io::Result<T>) -> Result<T, DiskFailed>
    ensures cause { HasCause faults.old faults.new result }
    ensures value { IfOk done (λ value. result ≡ Ok value) }
    ensures failed { IsErr done → IsErr result }
{
    match done {
        Ok(value) => Ok(value),
        Err(_) => {
            *faults = faults.saturating_add(1);
            Err(DiskFailed)
        }
    }
}

impl<R: Files + Drop> Disk for FileDisk<R>
where
    R::File: LockFile,
{
    ghost contents = { λ _. None };

    ghost may_leave = { λ _ _. ⊥ };

    ghost moment = { λ _. 0 };

    ghost left_since = { λ _ _ _. ⊥ };

    ghost faults = { λ d. d.faults };

    ghost counts_now = { λ d t c le now. now };

    ghost only_now = { λ d c left. left };

    ghost reads_image = { λ d f is. Prim.cc };

    ghost told = { λ d c now. absurd now };

    ghost all_tell = { λ d e f is. absurd (Prim.cc is) };

    fn length(&mut self, part: Part) -> Result<u64, DiskFailed> {
        counted(
            &mut self.faults,
            ready(&self.rt, &self.path, &mut self.files),
        )?;
        match &mut self.files {
            Some(files) => counted(&mut self.faults, files.length(part)),
            None => unreachable!(),
        }
    }

    fn read(&mut self, part: Part, at: u64, buf: &mut [u8]) -> Result<(), DiskFailed> {
        counted(
            &mut self.faults,
            ready(&self.rt, &self.path, &mut self.files),
        )?;
        match &mut self.files {
            Some(files) => counted(&mut self.faults, files.read(part, at, buf)),
            None => unreachable!(),
        }
    }

    fn write_at(&mut self, part: Part, at: u64, bytes: &[u8]) -> Result<(), DiskFailed> {
        counted(
            &mut self.faults,
            ready(&self.rt, &self.path, &mut self.files),
        )?;
        match &mut self.files {
            Some(files) => counted(&mut self.faults, files.write(part, at, bytes)),
            None => unreachable!(),
        }
    }

    fn sync(&mut self, part: Part) -> Result<(), DiskFailed> {
        counted(
            &mut self.faults,
            ready(&self.rt, &self.path, &mut self.files),
        )?;
        match &mut self.files {
            Some(files) => counted(&mut self.faults, files.sync(part)),
            None => unreachable!(),
        }
    }
}
