// A journal over a disk in memory: its bytes, written and read again.
use branch_disk::{MemoryDisk, Part, read_whole};
use branch_names::{Layout, Limits, Name, Terms};
use heads_journal::{Joined, Journal, Record, kind, read_all};
use std::process::Abort;
use std::test::Fail;

// A file of the kind 1, whose first origin is as great as the default limit of branches lets it be: two commits joined, a
// commit received, a branch placed at a commit, and a branch dropped.
const FILE: &[u8] = b"\
\x01MRDTHEAD\0\0\0\x02\xff\xff\xff\xff\xff\xff\xff\xff\x01\0\0\0\0\x01\0\0\0\0\0\0\x01\0\0\0\0\0\x01\0\0\0\0\0\
\x01\xff\xff\0\0\0\0\0\0\0\0\0\0\0\0\0\0\0\0\
\x01\x05\0\0\0\x01\0\0\0\x02\0\0\0\0\0\0\x05\x12\0\0\0\x03\0\0\x01\x03\
\0\0\0\0\0\0\0\0\0\0\0\0\0\0\0\0\0\0\0\0\0\0\0\0\0\0\0\0\0\0\0\0\0\0\0\0\0\0\
\x01\x06\0\0\0\0\0\0\0\0\0\0\0\0\0\0\x06\x12\
\x07\x07\x07\x07\x07\x07\x07\x07\x07\x07\x07\x07\x07\x07\x07\x07\x07\x07\x07\x07\x07\x07\x07\x07\x07\x07\x07\x07\x07\x07\x07\x07\
\0\0\0\0\0\0\0\0\0\0\0\0\0\0\
\x01\x07\0\0\0\x02\0\0\0\x04\0\0\0\0\0\0\x06\x12here\
\0\0\0\0\0\0\0\0\0\0\0\0\0\0\0\0\0\0\0\0\0\0\0\0\0\0\0\0\0\0\0\0\0\0\0\0\0\0\0\0\0\0\
\x01\x08\0\0\0\x02\0\0\0\0\0\0\0\0\0\0\x06\x12\
\0\0\0\0\0\0\0\0\0\0\0\0\0\0\0\0\0\0\0\0\0\0\0\0\0\0\0\0\0\0\0\0\0\0\0\0\0\0\0\0\0\0\0\0\0\0\
\0";

fn records_of_four_kinds(rt: &impl Abort) -> [Record; 4] {
    [
        Record::Join {
            branch: 1,
            joined: Joined::new(&[3, 259]).expect(rt, "two numbers"),
            end: 1298,
        },
        Record::Received {
            address: [7; 32],
            end: 1554,
        },
        Record::Place {
            number: 2,
            commit: 4,
            name: Name::read(b"here").expect(rt, "a name"),
            end: 1554,
        },
        Record::Drop {
            branch: 2,
            end: 1554,
        },
    ]
}

#[test]
fn records_are_written_and_read(rt: HostRuntime) -> Result<(), Fail> {
    let terms = Terms::new(Limits::default(), 0xffff_0000, 1, Layout::Whole).expect(&rt, "terms");
    let mut disk = MemoryDisk::new(vec![in rt.alloc()]?);
    let mut journal = Journal::create(&mut disk, &terms)?;
    let records = records_of_four_kinds(&rt);
    assert!(rt; journal.append_all(&mut disk, &records) == Ok(()));
    assert!(rt; kind(&mut disk) == Ok(1));
    assert!(rt; read_whole(rt.alloc(), &mut disk, Part::Heads)?.as_slice() == FILE);
    let (_, read, found, stop) = read_all(rt.alloc(), &mut disk, 2, 1)?;
    assert!(rt; read == terms && found.as_slice() == records.as_slice());
    assert!(rt; stop == None);
    Ok(())
}
