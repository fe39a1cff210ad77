// Stores over a disk in memory: a list of objects that is written, and a file that is read.
ghost use Rattle.std.specs.Prelude.{◌≡◌, [], IfOk};
ghost use Rattle.object_store.specs.Images.{AllBegin};
ghost use Rattle.branch_wire.specs.StoredObjects.{file_of};
ghost use Rattle.object_store.specs.Stored.{IsFile};

use branch_address::{Address, Sha256Address, WeakAddress};
use branch_disk::{Disk, MemoryDisk, Part, read_whole};
use branch_objects_codec::{Action, Object};
use mrdt_model::{Bytes, Listing, Memory};
use object_store::{Objects, PutRefused};
use std::alloc::Global;

const HEADER: &[u8] = b"MRDTOBJS\x00\x00\x00\x02\x00\x00\x00\x00";

fn spelled(alloc: Global, object: &Object) -> Result<Vec<u8>, Memory> {
    let mut out = Vec::new(alloc);
    object.put(&mut out)?;
    Ok(out)
}

fn weak(last: u8) -> [u8; 32] {
    let mut address = [0; 32];
    address[31] = last;
    address
}

// A store of the root commit, and of its value where one is kept; and the address of that commit.
fn started(
    alloc: Global,
    disk: &mut MemoryDisk,
    value: Option<&[u8]>,
) -> Result<(Objects<Sha256Address>, [u8; 32]), PutRefused>
    ensures stored { IfOk result (λ made.
        AllBegin (file_of made.0.stored) (⟦<MemoryDisk as Disk>⟧.may_leave disk.new)) }
    ensures staged { IfOk result (λ made. made.0.staged ≡ []) }
{
    let (objects, root) = Objects::<Sha256Address>::fresh(alloc, value)?;
    objects.create_in(disk)?;
    Ok((objects, root))
}

// A value of 140 bytes, and a commit of an operation of 21 that replied one.
fn region(alloc: Global) -> Result<[Object; 2], Memory> {
    let value = Object::Value(Bytes::from_vec(vec![in alloc; 3; 140]?));
    let commit = Object::Commit {
        parents: Listing::from_vec(Vec::from_slice(alloc, &[[b'p'; 32]])?),
        branch: 0,
        clock: 1,
        value: Some([b'v'; 32]),
        action: Action::Operation {
            op: Bytes::from_slice(alloc, &[1; 21])?,
            reply: Bytes::from_slice(alloc, b"\x01")?,
        },
    };
    Ok([value, commit])
}

#[test]
fn a_region_is_written_behind_the_root(rt: HostRuntime) {
    let alloc = rt.alloc();
    let mut disk = MemoryDisk::new(Vec::new(alloc));
    let value = [0; 104];
    let (mut objects, _) = started(alloc, &mut disk, Some(&value)).expect(&rt, "objects");
    let list = region(alloc).expect(&rt, "a region");
    assert!(rt; objects.end() == 191);
    let addresses = objects.put_all(&mut disk, &list).expect(&rt, "addresses");
    assert!(rt; objects.end() == 472);
    let text = spelled(alloc, &list[0]).expect(&rt, "bytes");
    assert!(rt; addresses.as_slice()[0] == Sha256Address::of(&text));
    let file = read_whole(alloc, &mut disk, Part::Objects).expect(&rt, "a file");
    assert!(rt; file.len() == 472 && &file[..16] == HEADER && &file[191..340] == text.as_slice());
}

// An operation of 21 bytes that replied one.
fn operation(alloc: Global) -> Result<Action, Memory> {
    let op = Bytes::from_slice(alloc, &[1; 21])?;
    let reply = Bytes::from_slice(alloc, b"\x01")?;
    Ok(Action::Operation { op, reply })
}

#[test]
fn commits_alone_are_written_behind_the_root(rt: HostRuntime) {
    let alloc = rt.alloc();
    let mut disk = MemoryDisk::new(Vec::new(alloc));
    let (mut objects, root) = started(alloc, &mut disk, None).expect(&rt, "objects");
    assert!(rt; objects.end() == 46);
    let parents = Listing::from_vec(Vec::from_slice(alloc, &[root]).expect(&rt, "parents"));
    let action = operation(alloc).expect(&rt, "an operation");
    let address = objects
        .stage(None, None, parents, 0, 1, action)
        .expect(&rt, "an address");
    assert!(rt; objects.end() == 146);
    objects.write(&mut disk).expect(&rt, "a region");
    let file = read_whole(alloc, &mut disk, Part::Objects).expect(&rt, "a file");
    assert!(rt; file.len() == 146 && file[16] == 3 && file[46] == 3);
    assert!(rt;
        root == Sha256Address::of(&file[16..46]) && address == Sha256Address::of(&file[46..])
    );
}

// A file of one value.
fn file_of_value(alloc: Global, text: &[u8]) -> Result<Vec<u8>, Memory>
    ensures { IfOk result (λ file. IsFile file.items) }
{
    let mut file = Vec::from_slice(alloc, HEADER)?;
    Object::Value(Bytes::from_slice(alloc, text)?).put(&mut file)?;
    Ok(file)
}

// How many bytes the object with an address has, of those in a file of the value `ab`.
fn length_in_file(alloc: Global, address: [u8; 32]) -> Result<Option<usize>, Memory> {
    let file = file_of_value(alloc, b"ab")?;
    let objects: Objects<WeakAddress> = Objects::of(alloc, &file)?;
    match objects.get(&address) {
        Some(bytes) => Ok(Some(bytes.len())),
        None => Ok(None),
    }
}

#[test]
fn a_file_is_read(rt: HostRuntime) {
    assert!(rt; length_in_file(rt.alloc(), weak(11)) == Ok(Some(11)));
    assert!(rt; length_in_file(rt.alloc(), weak(27)) == Ok(None));
}
