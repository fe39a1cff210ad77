// What a case says, step by step.
use branch_disk::Fill;
use std::alloc::Global;

/// A step of a case, with its line.
#[derive(Drop)]
pub struct Step {
    pub line: usize,
    pub what: What,
}

/// What a step does.
#[derive(Drop)]
pub enum What {
    /// A file gets these bytes.
    Put {
        file: String,
        bytes: Vec<u8>,
    },
    /// From a place on some bytes of a file become these.
    Change {
        file: String,
        place: u64,
        bytes: Vec<u8>,
    },
    /// A file keeps so many bytes.
    Cut {
        file: String,
        length: u64,
    },
    /// Bytes come behind a file.
    Append {
        file: String,
        bytes: Vec<u8>,
    },
    /// Both files of a store become those of another one.
    Copy {
        from: String,
        to: String,
    },
    /// What a stop leaves of a store's last run becomes the files of another store.
    Stop {
        store: String,
        calls: u64,
        fill: Fill,
        to: String,
    },
    /// The program runs.
    Run(Run),
    /// A file has so many bytes, of this hash.
    Holds {
        file: String,
        sum: Sum,
    },
}

/// The length of some bytes and their hash.
#[derive(Clone, Copy, Debug, PartialEq, Eq)]
pub struct Sum {
    pub length: u64,
    pub hash: [u8; 32],
}

/// A run of the program.
#[derive(Drop)]
pub struct Run {
    pub store: String,
    pub words: Vec<String>,
    pub input: Input,
    pub failing: Failing,
    pub status: Option<u64>,
    pub output: Output,
    pub calls: Option<u64>,
    pub second_calls: Option<u64>,
}

impl Run {
    /// A run over no input, which writes nothing, and of which no call fails. Its status is yet to be told.
    pub(crate) fn new(alloc: Global, store: String, words: Vec<String>) -> Run {
        Run {
            store,
            words,
            input: Input::Bytes(Vec::new(alloc)),
            failing: Failing::new(alloc),
            status: None,
            output: Output::Bytes(Vec::new(alloc)),
            calls: None,
            second_calls: None,
        }
    }
}

/// The calls of a run that fail, by their numbers from 1.
#[derive(Drop)]
pub struct Failing {
    pub disk: Vec<u64>,
    pub second: Vec<u64>,
    pub source: Vec<u64>,
    pub sink: Vec<u64>,
}

impl Failing {
    /// None.
    pub(crate) fn new(alloc: Global) -> Failing {
        Failing {
            disk: Vec::new(alloc),
            second: Vec::new(alloc),
            source: Vec::new(alloc),
            sink: Vec::new(alloc),
        }
    }
}

/// What a run reads.
#[derive(Drop)]
pub enum Input {
    /// These bytes.
    Bytes(Vec<u8>),
    /// The bytes that are kept under a name, or else those of the file of that name.
    Kept(String),
}

/// What a run is to write.
#[derive(Drop)]
pub enum Output {
    /// These bytes.
    Bytes(Vec<u8>),
    /// Bytes of this length and hash, or any; they are kept under the name.
    Kept { name: String, sum: Option<Sum> },
}
