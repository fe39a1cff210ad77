// The files of a case, from step to step.
use crate::failure::Failure;
use crate::words::malformed;
use std::alloc::{AllocError, Global};
use std::collections::BTreeMap;

/// Files by their names. One that is not there is as one of no bytes.
#[derive(Drop)]
pub struct Folder {
    alloc: Global,
    files: BTreeMap<String, Vec<u8>>,
}

impl Folder {
    /// No files.
    pub(crate) fn new(alloc: Global) -> Folder {
        Folder {
            alloc,
            files: BTreeMap::new(alloc),
        }
    }

    /// The bytes of a file.
    pub(crate) fn bytes(&self, file: &str) -> &[u8] {
        match self.files.get(file) {
            Some(bytes) => bytes.as_slice(),
            None => &[],
        }
    }

    /// A file gets these bytes.
    pub(crate) fn put(&mut self, file: &str, bytes: Vec<u8>) -> Result<(), AllocError> {
        let name = String::from_str(self.alloc, file)?;
        self.files.insert(name, bytes)?;
        Ok(())
    }

    /// From a place on some bytes of a file become these.
    pub(crate) fn change(
        &mut self,
        line: usize,
        file: &str,
        place: u64,
        new: &[u8],
    ) -> Result<(), Failure> {
        let mut bytes = self.bytes(file).to_vec(self.alloc)?;
        let room = (bytes.len() as u64).saturating_sub(place);
        if room < new.len() as u64 {
            return Err(malformed(line, "the file ends before that"));
        }
        for (old, byte) in bytes.iter_mut().skip(place as usize).zip(new.iter()) {
            *old = *byte;
        }
        Ok(self.put(file, bytes)?)
    }

    /// A file keeps so many bytes.
    pub(crate) fn cut(&mut self, line: usize, file: &str, length: u64) -> Result<(), Failure> {
        let mut bytes = self.bytes(file).to_vec(self.alloc)?;
        if (bytes.len() as u64) < length {
            return Err(malformed(line, "the file is shorter than that"));
        }
        bytes.truncate(length as usize);
        Ok(self.put(file, bytes)?)
    }

    /// Bytes come behind a file.
    pub(crate) fn append(&mut self, file: &str, more: &[u8]) -> Result<(), AllocError> {
        let mut bytes = self.bytes(file).to_vec(self.alloc)?;
        bytes.extend_from_slice(more)?;
        self.put(file, bytes)
    }

    /// A file gets the bytes of another one.
    pub(crate) fn copy(&mut self, from: &str, to: &str) -> Result<(), AllocError> {
        let bytes = self.bytes(from).to_vec(self.alloc)?;
        self.put(to, bytes)
    }

    /// The first file with some bytes that is not among these, if there is one.
    pub(crate) fn other_than(&self, names: &[String]) -> Option<&str> {
        for (name, bytes) in self.files.iter() {
            if !bytes.is_empty() && !names.contains(name) {
                return Some(name.as_str());
            }
        }
        None
    }
}
