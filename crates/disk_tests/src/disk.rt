// The order in which a disk is settled, and a disk over two files.
use crate::shaky::Shaky;
use branch_disk::{
    Disk, DiskFailed, FileDisk, Fill, LockFile, MemoryDisk, Part, ReadRefused, read_whole, settle,
};
use std::fs;
use std::rt::Files;
use std::test::Fail;

#[test]
fn the_objects_are_settled_first(rt: HostRuntime) -> Result<(), Fail> {
    let mut disk = MemoryDisk::new(vec![in rt.alloc(); 4]?);
    assert_eq!(rt; disk.write_at(Part::Objects, 0, b"ob"), Ok(()));
    assert_eq!(rt; disk.write_at(Part::Heads, 0, b"he"), Ok(()));
    assert_eq!(rt; settle(&mut disk), Err(DiskFailed));
    let mut left = disk.image(4, Fill::Old).map_err(|_| ReadRefused::Memory)?;
    assert!(rt; read_whole(rt.alloc(), &mut left, Part::Objects)?.as_slice() == b"ob".as_slice());
    assert_eq!(rt; left.length(Part::Heads), Ok(0));
    Ok(())
}

fn crosses_threads<T: Send + Sync>(_value: &T) {}

// Writes to both parts of a disk that tells nothing, and syncs them.
fn store<R: Files + Drop>(disk: &mut FileDisk<R>) -> Result<(), DiskFailed>
where
    R::File: LockFile,
{
    disk.write_at(Part::Objects, 0, b"objects")?;
    disk.write_at(Part::Heads, 0, b"heads")?;
    disk.write_at(Part::Heads, 4, b"ing")?;
    settle(disk)
}

#[test]
fn files_hold_what_was_written(rt: HostRuntime) -> Result<(), Fail> {
    let folder = "disk_tests_files";
    let _ = fs::remove_dir_all(&rt, folder);
    fs::create_dir(&rt, folder)?;
    let path = "disk_tests_files/store".to_string(rt.alloc())?;
    let mut disk = FileDisk::new(&rt, path.clone()?);
    assert_eq!(rt; disk.length(Part::Heads), Ok(0));
    assert_eq!(rt; store(&mut disk), Ok(()));
    let files = [
        ("disk_tests_files/store.objects", b"objects".as_slice()),
        ("disk_tests_files/store.heads", b"heading".as_slice()),
    ];
    for (name, bytes) in &files {
        assert!(rt; fs::read(&rt, *name)?.as_slice() == *bytes, "{}", name);
    }
    crosses_threads(&disk);
    drop(disk);
    let mut again = FileDisk::new(&rt, path);
    assert_eq!(rt; again.length(Part::Heads), Ok(7));
    let mut middle = [0; 4];
    assert_eq!(rt; again.read(Part::Heads, 2, &mut middle), Ok(()));
    assert_eq!(rt; middle, *b"adin");
    assert_eq!(rt; again.read(Part::Heads, 5, &mut middle), Err(DiskFailed));
    let mut nowhere = FileDisk::new(&rt, "disk_tests_files/none/store".to_string(rt.alloc())?);
    assert_eq!(rt; nowhere.sync(Part::Objects), Err(DiskFailed));
    fs::remove_dir_all(&rt, folder)?;
    Ok(())
}

// Whether each kind of call fails.
fn fails_throughout<R: Files + Drop>(disk: &mut FileDisk<R>) -> bool
where
    R::File: LockFile,
{
    let length = disk.length(Part::Objects);
    let read = disk.read(Part::Heads, 0, &mut [0; 2]);
    let written = disk.write_at(Part::Heads, 0, b"other");
    let synced = disk.sync(Part::Objects);
    length.is_err() && read.is_err() && written.is_err() && synced.is_err()
}

#[test]
fn one_disk_at_a_time_has_the_files(rt: HostRuntime) -> Result<(), Fail> {
    let folder = "disk_tests_lock";
    let _ = fs::remove_dir_all(&rt, folder);
    fs::create_dir(&rt, folder)?;
    let path = "disk_tests_lock/store".to_string(rt.alloc())?;
    let mut first = FileDisk::new(&rt, path.clone()?);
    let mut second = FileDisk::new(&rt, path);
    assert_eq!(rt; store(&mut first), Ok(()));
    assert!(rt; fails_throughout(&mut second));
    assert!(rt; fs::read(&rt, "disk_tests_lock/store.heads")?.as_slice() == b"heading".as_slice());
    // The second makes no file either.
    fs::remove_file(&rt, "disk_tests_lock/store.objects")?;
    assert!(rt; fails_throughout(&mut second));
    assert!(rt; fs::read(&rt, "disk_tests_lock/store.objects").is_err());
    assert_eq!(rt; first.length(Part::Heads), Ok(7));
    drop(first);
    assert_eq!(rt; second.length(Part::Heads), Ok(7));
    fs::remove_dir_all(&rt, folder)?;
    Ok(())
}

#[test]
fn a_sync_reaches_its_file_once(rt: HostRuntime) -> Result<(), Fail> {
    let files = Shaky::new(1);
    let mut disk = FileDisk::new(&files, "store".to_string(rt.alloc())?);
    assert_eq!(rt; disk.sync(Part::Objects), Err(DiskFailed));
    assert_eq!(rt; files.syncs(), (1, 0, 0));
    assert_eq!(rt; disk.sync(Part::Objects), Ok(()));
    assert_eq!(rt; files.syncs(), (2, 0, 0));
    assert_eq!(rt; disk.sync(Part::Heads), Err(DiskFailed));
    assert_eq!(rt; files.syncs(), (2, 1, 0));
    assert_eq!(rt; disk.sync(Part::Heads), Ok(()));
    assert_eq!(rt; files.syncs(), (2, 2, 0));
    Ok(())
}

#[test]
fn the_folder_of_empty_files_is_synced(rt: HostRuntime) -> Result<(), Fail> {
    let files = Shaky::new(0);
    let mut disk = FileDisk::new(&files, "folder/store".to_string(rt.alloc())?);
    assert_eq!(rt; disk.length(Part::Heads), Err(DiskFailed));
    assert_eq!(rt; files.syncs(), (0, 0, 1));
    assert_eq!(rt; disk.length(Part::Heads), Ok(0));
    assert_eq!(rt; disk.length(Part::Objects), Ok(0));
    assert_eq!(rt; files.syncs(), (0, 0, 2));
    Ok(())
}
