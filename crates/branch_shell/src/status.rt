// How a run ends.
use mrdt_model::Memory;

/// How a run ends; the program's exit status is `number`.
#[derive(Clone, Copy, Debug, PartialEq, Eq)]
pub enum Status {
    /// The job was done; of a script, the source was read to its end. 0.
    Done,
    /// The command does not take the words. 1.
    Usage,
    /// The files are no store, or a store was to be made of files that are not empty. 2.
    StoreRefused,
    /// The disk failed. 3.
    DiskFault,
    /// The source failed. 4.
    ReadFault,
    /// The sink failed. 5.
    WriteFault,
    /// The next 4,096 bytes of a script hold no line end. 6.
    LineTooLong,
    /// A script has 4,294,967,296 bytes or more. 7.
    InputTooLong,
    /// Want of memory. 8.
    Memory,
}

impl Status {
    ghost use Rattle.std.specs.Prelude.{◌≡◌};
    ghost use Rattle.branch_shell.specs.StatusNumbers.{status_number};

    /// The number that a program ends with.
    pub fn number(self) -> u8
        ensures { result ≡ status_number self }
    {
        match self {
            Status::Done => 0,
            Status::Usage => 1,
            Status::StoreRefused => 2,
            Status::DiskFault => 3,
            Status::ReadFault => 4,
            Status::WriteFault => 5,
            Status::LineTooLong => 6,
            Status::InputTooLong => 7,
            Status::Memory => 8,
        }
    }
}

impl From<Memory> for Status {
    ghost use Rattle.std.specs.Prelude.{◌≡◌};
    ghost use Rattle.branch_shell.specs.declared.status.Status.TheVariants as status;

    ghost from_gives = { λ _ ended. ended ≡ status.Memory };

    fn from(_: Memory) -> Status {
        Status::Memory
    }
}
