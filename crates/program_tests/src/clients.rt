// Clients side by side: what `clients` writes and leaves, whatever the order in which their steps come.
use crate::runs::ran;
use branch_address::Sha256Address;
use branch_disk::{FileDisk, MemoryDisk};
use branch_shell::Status;
use std::alloc::Global;
use std::process::Abort;
use std::test::Fail;
use std::{fs, str};

// The number behind the front of a line, up to a space.
fn number_behind(line: &str, front: &str) -> Option<u64> {
    line.strip_prefix(front)?
        .split(' ')
        .next()?
        .parse::<u64>()
        .ok()
}

// The lines of clients at the head of a text, added up, and the report behind them.
fn summed<'a>(
    rt: &impl Abort,
    alloc: Global,
    text: &'a [u8],
    count: u64,
) -> Result<(u64, &'a str), Fail> {
    let Ok(mut rest) = str::from_utf8(text) else {
        panic!(rt; "no text")
    };
    let mut sum: u64 = 0;
    for client in 0..count {
        let front = format!(in alloc; "client {client} done ")?;
        let Some((line, behind)) = rest.split_once('\n') else {
            panic!(rt; "no line of client {client}")
        };
        let Some(moves) = number_behind(line, &front) else {
            panic!(rt; "no number of client {client}")
        };
        sum = sum.saturating_add(moves);
        rest = behind;
    }
    Ok((sum, rest))
}

// The report behind the lines of clients of a store that had no moves: all its moves are those that the lines tell.
fn reported<'a>(
    rt: &impl Abort,
    alloc: Global,
    text: &'a [u8],
    count: u64,
) -> Result<&'a str, Fail> {
    let (sum, report) = summed(rt, alloc, text, count)?;
    let Some(totals) = report.lines().last() else {
        panic!(rt; "no report")
    };
    assert_eq!(rt; number_behind(totals, "moves "), Some(sum));
    assert!(rt; sum >= count);
    Ok(report)
}

// A disk in memory without bytes.
fn none(alloc: Global) -> MemoryDisk {
    MemoryDisk::new(Vec::new(alloc))
}

// All moves are the clients', in whatever order their steps come, ten times.
#[test]
fn eight_clients(rt: HostRuntime) -> Result<(), Fail> {
    let alloc = rt.alloc();
    for _ in 0..10 {
        let (made, _, disk) = ran::<Sha256Address, _, _>(
            &rt,
            alloc,
            "init",
            none(alloc),
            none(alloc),
        )?;
        let (status, text, _) = ran::<Sha256Address, _, _>(
            &rt,
            alloc,
            "clients 8 200 7",
            disk,
            none(alloc),
        )?;
        assert_eq!(rt; (made, status), (Status::Done, Status::Done));
        let _report = reported(&rt, alloc, &text, 8)?;
    }
    Ok(())
}

// So it is over files, where the report stays. No second store is made.
#[test]
fn clients_over_files(rt: HostRuntime) -> Result<(), Fail> {
    let alloc = rt.alloc();
    let folder = "program_tests_clients";
    let _ = fs::remove_dir_all(&rt, folder);
    fs::create_dir(&rt, folder)?;
    let path = "program_tests_clients/store".to_string(alloc)?;
    let other = "program_tests_clients/store.second".to_string(alloc)?;
    let disk = FileDisk::new(&rt, path.clone()?);
    let second = FileDisk::new(&rt, other.clone()?);
    let (made, _, _) = ran::<Sha256Address, _, _>(&rt, alloc, "init", disk, second)?;
    let disk = FileDisk::new(&rt, path.clone()?);
    let second = FileDisk::new(&rt, other.clone()?);
    let (status, text, _) = ran::<Sha256Address, _, _>(&rt, alloc, "clients 4 20 7", disk, second)?;
    let disk = FileDisk::new(&rt, path);
    let second = FileDisk::new(&rt, other);
    let (checked, report, _) = ran::<Sha256Address, _, _>(&rt, alloc, "check", disk, second)?;
    assert_eq!(rt;
        (made, status, checked),
        (Status::Done, Status::Done, Status::Done)
    );
    assert_eq!(rt;
        reported(&rt, alloc, &text, 4)?.as_bytes(),
        report.as_slice()
    );
    let heads = fs::read(&rt, "program_tests_clients/store.second.heads")?;
    let objects = fs::read(&rt, "program_tests_clients/store.second.objects")?;
    assert!(rt; heads.is_empty() && objects.is_empty());
    fs::remove_dir_all(&rt, folder)?;
    Ok(())
}
