// Playing a case: its steps in order, over files in memory.
use crate::compare::{compare_bytes, compare_number, compare_sum, difference};
use crate::disks::{Pair, disk_of, pair_of, stopped};
use crate::ended::{Ended, Used, run_over};
use crate::failure::Failure;
use crate::folder::Folder;
use crate::step::{Input, Output, Run, Step, Sum, What};
use crate::words::malformed;
use branch_disk::{Fill, MemoryDisk};
use std::alloc::{AllocError, Global};
use std::collections::BTreeMap;
use std::sync::Wait;
use std::thread::Threads;

// The names of both files of a store.
#[derive(Drop)]
struct Names {
    objects: String,
    heads: String,
}

impl Names {
    // Those of a store.
    fn of(alloc: Global, store: &str) -> Result<Names, AllocError> {
        Ok(Names {
            objects: format!(in alloc; "{store}.objects")?,
            heads: format!(in alloc; "{store}.heads")?,
        })
    }
}

// A case that is played: its files, the streams that are kept, the disk of each store's last run, and the files that
// were looked at.
#[derive(Drop)]
struct Player {
    alloc: Global,
    folder: Folder,
    kept: BTreeMap<String, Vec<u8>>,
    disks: BTreeMap<String, Used>,
    looked_at: Vec<String>,
}

// The store of the second disk of a run over a store.
fn second_of(alloc: Global, store: &str) -> Result<String, AllocError> {
    format!(in alloc; "{store}.second")
}

/// Plays the steps of a case, up to the first that is not as it wants.
pub(crate) fn play<R: Threads + Wait + Sync>(
    rt: &R,
    alloc: Global,
    steps: &[Step],
) -> Result<(), Failure> {
    let mut player = Player {
        alloc,
        folder: Folder::new(alloc),
        kept: BTreeMap::new(alloc),
        disks: BTreeMap::new(alloc),
        looked_at: Vec::new(alloc),
    };
    let mut last = 0;
    for step in steps {
        player.step(rt, step.line, &step.what)?;
        last = step.line;
    }
    player.no_others(last)
}

impl Player {
    // One step.
    fn step<R: Threads + Wait + Sync>(
        &mut self,
        rt: &R,
        line: usize,
        what: &What,
    ) -> Result<(), Failure> {
        match what {
            What::Run(of) => self.run(rt, line, of),
            What::Holds { file, sum } => self.look_at(line, file.as_str(), sum),
            What::Stop {
                store,
                calls,
                fill,
                to,
            } => self.stop(line, store.as_str(), *calls, *fill, to.as_str()),
            What::Copy { from, to } => self.copy(from.as_str(), to.as_str()),
            What::Put { file, bytes } => Ok(
                self.folder
                    .put(file.as_str(), bytes.as_slice().to_vec(self.alloc)?)?,
            ),
            What::Append { file, bytes } => Ok(self.folder.append(file.as_str(), bytes)?),
            What::Cut { file, length } => self.folder.cut(line, file.as_str(), *length),
            What::Change { file, place, bytes } => self
                .folder
                .change(line, file.as_str(), *place, bytes),
        }
    }

    // The files of a store become what a disk holds.
    fn put_pair(&mut self, store: &str, pair: Pair) -> Result<(), AllocError> {
        let names = Names::of(self.alloc, store)?;
        self.folder.put(names.objects.as_str(), pair.objects)?;
        self.folder.put(names.heads.as_str(), pair.heads)
    }

    // The files of a store become those of another one.
    fn copy(&mut self, from: &str, to: &str) -> Result<(), Failure> {
        let (from, to) = (Names::of(self.alloc, from)?, Names::of(self.alloc, to)?);
        self.folder
            .copy(from.objects.as_str(), to.objects.as_str())?;
        Ok(self.folder.copy(from.heads.as_str(), to.heads.as_str())?)
    }

    // The files of a store become what a stop leaves of another one's last run.
    fn stop(
        &mut self,
        line: usize,
        store: &str,
        calls: u64,
        fill: Fill,
        to: &str,
    ) -> Result<(), Failure> {
        let image = match self.disks.get(store) {
            None => return Err(malformed(line, "no run of this store comes before")),
            Some(used) if used.calls < calls => {
                return Err(malformed(line, "the last run made fewer calls"));
            }
            Some(used) => stopped(&used.disk, calls, fill)?,
        };
        let mut image = image;
        let pair = pair_of(self.alloc, &mut image)?;
        Ok(self.put_pair(to, pair)?)
    }

    // A file has so many bytes, of this hash.
    fn look_at(&mut self, line: usize, file: &str, wanted: &Sum) -> Result<(), Failure> {
        let name = String::from_str(self.alloc, file)?;
        self.looked_at.push(name)?;
        compare_sum(self.alloc, line, file, self.folder.bytes(file), wanted)
    }

    // Where files were looked at, no other file has any bytes.
    fn no_others(&self, line: usize) -> Result<(), Failure> {
        match self.folder.other_than(&self.looked_at) {
            Some(file) if !self.looked_at.is_empty() => {
                let how = format!(in self.alloc;
                    "{file} is there too, and the case does not list it"
                )?;
                Err(difference(line, how))
            }
            _ => Ok(()),
        }
    }

    // The bytes that a run reads.
    fn input(&self, input: &Input) -> Result<Vec<u8>, AllocError> {
        match input {
            Input::Bytes(bytes) => bytes.as_slice().to_vec(self.alloc),
            Input::Kept(name) => match self.kept.get(name.as_str()) {
                Some(bytes) => bytes.as_slice().to_vec(self.alloc),
                None => self.folder.bytes(name.as_str()).to_vec(self.alloc),
            },
        }
    }

    // A run of the program, and what it wrote and left.
    fn run<R: Threads + Wait + Sync>(
        &mut self,
        rt: &R,
        line: usize,
        of: &Run,
    ) -> Result<(), Failure> {
        let second = second_of(self.alloc, of.store.as_str())?;
        let input = self.input(&of.input)?;
        let ended = run_over(
            rt,
            self.alloc,
            of,
            input,
            self.disk_of(of.store.as_str(), &of.failing.disk)?,
            self.disk_of(second.as_str(), &of.failing.second)?,
        )?;
        self.compare(line, of, &ended)?;
        self.keep(of, ended)
    }

    // A disk with the files of a store, of which these calls fail.
    fn disk_of(&self, store: &str, failing: &[u64]) -> Result<MemoryDisk, Failure> {
        let names = Names::of(self.alloc, store)?;
        disk_of(
            self.alloc,
            self.folder.bytes(names.objects.as_str()),
            self.folder.bytes(names.heads.as_str()),
            failing,
        )
    }

    // What a run did is what is wanted.
    fn compare(&self, line: usize, of: &Run, ended: &Ended) -> Result<(), Failure> {
        let alloc = self.alloc;
        match &of.output {
            Output::Bytes(wanted) => compare_bytes(alloc, line, &ended.text, wanted)?,
            Output::Kept { name: _, sum: None } => {}
            Output::Kept {
                name,
                sum: Some(sum),
            } => {
                compare_sum(alloc, line, name.as_str(), &ended.text, sum)?;
            }
        }
        if let Some(status) = of.status {
            compare_number(alloc, line, "the status", ended.status as u64, status)?;
        }
        self.compare_calls(line, &ended.first, of.calls, &of.failing.disk)?;
        self.compare_calls(line, &ended.second, of.second_calls, &of.failing.second)
    }

    // A run made as many calls of a disk as are wanted, and those that were to fail.
    fn compare_calls(
        &self,
        line: usize,
        used: &Used,
        wanted: Option<u64>,
        failing: &[u64],
    ) -> Result<(), Failure> {
        if let Some(calls) = wanted {
            compare_number(
                self.alloc,
                line,
                "the number of calls of the disk",
                used.calls,
                calls,
            )?;
        }
        match failing.iter().max() {
            Some(last) if used.calls < *last => Err(malformed(line, "the run makes fewer calls")),
            _ => Ok(()),
        }
    }

    // The files, the disks and the stream that a run left are kept.
    fn keep(&mut self, of: &Run, ended: Ended) -> Result<(), Failure> {
        let Ended {
            status: _,
            text,
            first,
            second,
        } = ended;
        if let Output::Kept { name, sum: _ } = &of.output {
            self.kept.insert(name.clone()?, text)?;
        }
        self.keep_disk(of.store.clone()?, first)?;
        let store = second_of(self.alloc, of.store.as_str())?;
        self.keep_disk(store, second)
    }

    // The files of a store become what a disk holds, which is kept.
    fn keep_disk(&mut self, store: String, used: Used) -> Result<(), Failure> {
        let mut used = used;
        let pair = pair_of(self.alloc, &mut used.disk)?;
        self.put_pair(store.as_str(), pair)?;
        self.disks.insert(store, used)?;
        Ok(())
    }
}
