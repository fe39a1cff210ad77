// Runs of the program over any disk.
use branch_address::Address;
use branch_disk::{Disk, MemoryDisk};
use branch_io::{MemorySink, MemorySource};
use branch_program::run_words;
use branch_progress::NoListener;
use branch_shell::{Status, run_alone};
use std::alloc::{AllocError, Global};
use std::process::Abort;
use std::sync::Wait;
use std::test::Fail;
use std::thread::Threads;

// The words of a text, with a space between two.
fn words_of(alloc: Global, text: &str) -> Result<Vec<String>, AllocError> {
    let mut words = Vec::new(alloc);
    for word in text.split(' ') {
        words.push(String::from_str(alloc, word)?)?;
    }
    Ok(words)
}

// Runs a command that starts no thread, with addresses of a kind, which ends so and writes this. Gives the disk that it
// left. The second disk is empty.
pub fn says<A: Address>(
    rt: &impl Abort,
    alloc: Global,
    command: &str,
    input: &[u8],
    disk: MemoryDisk,
    wanted: (Status, &[u8]),
) -> Result<MemoryDisk, Fail> {
    let words = words_of(alloc, command)?;
    let mut source = MemorySource::new(input.to_vec(alloc)?, 16, Vec::new(alloc));
    let mut sink = MemorySink::new(Vec::new(alloc));
    let second = MemoryDisk::new(Vec::new(alloc));
    let (status, disk, _) = run_alone::<_, _, _, A, _>(
        alloc,
        &words,
        &mut source,
        &mut sink,
        disk,
        second,
        &mut NoListener,
    );
    assert_eq!(rt; (status, sink.bytes()), wanted);
    Ok(disk)
}

// Runs a command that may start threads, over no input and any disks. Gives its status, what it wrote and the first
// disk.
pub fn ran<A: Address + Send, D: Disk + Drop + Send, R: Threads + Wait + Sync>(
    rt: &R,
    alloc: Global,
    command: &str,
    disk: D,
    second: D,
) -> Result<(Status, Vec<u8>, D), Fail> {
    let words = words_of(alloc, command)?;
    let mut source = MemorySource::new(Vec::new(alloc), 16, Vec::new(alloc));
    let mut sink = MemorySink::new(Vec::new(alloc));
    let (ended, disk, _) = run_words::<_, _, _, A, R, _>(
        rt,
        alloc,
        &words,
        &mut source,
        &mut sink,
        disk,
        second,
        &mut NoListener,
    );
    let text = sink.bytes().to_vec(alloc)?;
    Ok((ended.status, text, disk))
}
