// The laws of reading files of the form that is written today. Each stands on a function with an empty body, whose
// contract is the law.
ghost use Rattle.branch_files.specs.Laws.{ReadsInOneWay, ReadsAll, ReadsWhatStands, StandsForWhatIsRead, HasGates, AppendsRecords, GoesOn, TellsOperations, TellsReceived};

use mrdt_model::Mrdt;

/// Files read as one answer at most, where addresses have 32 bytes and the objects are shorter than 2^64 bytes.
pub fn reads_in_one_way<T: Mrdt>()
    ensures { ReadsInOneWay T.meaning }
{}

/// No files are without an answer.
pub fn reads_all<T: Mrdt>()
    ensures { ReadsAll T.meaning }
{}

/// Files read as the valid history that they stand for.
pub fn reads_what_stands<T: Mrdt>()
    ensures { ReadsWhatStands T.meaning }
{}

/// A history that files read as is valid, and they stand for it.
pub fn stands_for_what_is_read<T: Mrdt>()
    ensures { StandsForWhatIsRead T.meaning }
{}

/// The gates of a valid history stand 64 bytes apart, where addresses have 32 bytes.
pub fn has_gates<T: Mrdt>()
    ensures { HasGates T.meaning }
{}

/// A move appends its record.
pub fn appends_records<T: Mrdt>()
    ensures { AppendsRecords T.meaning }
{}

/// Reading goes on behind a record and the objects of a move that the machine makes, and behind each record that
/// may come next of a move without a commit.
pub fn goes_on<T: Mrdt>()
    ensures { GoesOn T.meaning }
{}

/// The objects behind a history spell the operation and the reply of the move that stands there, where addresses
/// have 32 bytes and the objects are shorter than 2^64 bytes.
pub fn tells_operations<T: Mrdt>()
    ensures { TellsOperations T.meaning }
{}

/// The objects behind a history spell the parents, the origin, the clock and the action of the commit that was
/// received there, where addresses have 32 bytes and the objects are shorter than 2^64 bytes.
pub fn tells_received<T: Mrdt>()
    ensures { TellsReceived T.meaning }
{}
