// The laws of reading files of any form. Each stands on a function with an empty body, whose contract is the
// law.
ghost use Rattle.branch_machine.specs.Fixed.{Form};
ghost use Rattle.branch_files.specs.Forms.{ReadsInOneWay, ReadsAll, ReadsWhatStands, StandsForWhatIsRead, ReadsAsToday, ReadsOfAKindInOneWay, ReadsAllOfAKind, ReadsForItsKind, ReadsAllForItsKind, IsNoneOfOthers, IsNoneOfAny, ReadsOldAsFirstKind, HasGates, AppendsRecords, GoesOn, TellsOperations, TellsReceived};

use mrdt_model::Mrdt;

/// Files of a form read as one answer at most, where addresses have 32 bytes and the objects are shorter than 2^64
/// bytes.
pub fn reads_in_one_way<T: Mrdt>()
    ensures { (form : Form) → ReadsInOneWay form T.meaning }
{}

/// No files are without an answer, in any form.
pub fn reads_all<T: Mrdt>()
    ensures { (form : Form) → ReadsAll form T.meaning }
{}

/// Files of a form read as the valid history that they stand for, where its terms are those of a header.
pub fn reads_what_stands<T: Mrdt>()
    ensures { (form : Form) → ReadsWhatStands form T.meaning }
{}

/// A history that files of a form read as is valid, they stand for it, and its terms are those of a header.
pub fn stands_for_what_is_read<T: Mrdt>()
    ensures { (form : Form) → StandsForWhatIsRead form T.meaning }
{}

/// To read files of the form that is written today is to read files.
pub fn reads_as_today<T: Mrdt>()
    ensures { ReadsAsToday T.meaning }
{}

/// Files of a form read as one answer at most for one that asks for a kind of values, where addresses have 32 bytes and
/// the objects are shorter than 2^64 bytes.
pub fn reads_of_a_kind_in_one_way<T: Mrdt>()
    ensures { (form : Form) → ReadsOfAKindInOneWay form T.meaning }
{}

/// No files are without an answer for one that asks for a kind of values.
pub fn reads_all_of_a_kind<T: Mrdt>()
    ensures { (form : Form) → ReadsAllOfAKind form T.meaning }
{}

/// Files read as a history for one that asks for the kind of its terms, and as all that they read as; for one that asks
/// for another they read as no store, and as no history. Files that read as no store are none for one that asks for any kind.
pub fn reads_for_its_kind<T: Mrdt>()
    ensures own { (form : Form) → ReadsForItsKind form T.meaning }
    ensures all { (form : Form) → ReadsAllForItsKind form T.meaning }
    ensures others { (form : Form) → IsNoneOfOthers form T.meaning }
    ensures none { (form : Form) → IsNoneOfAny form T.meaning }
{}

/// Files of version 1 have values of the kind 0: they read as they do for one that asks for this kind.
pub fn reads_old_as_first_kind<T: Mrdt>()
    ensures { (form : Form) → ReadsOldAsFirstKind form T.meaning }
{}

/// The gates of a valid history stand 64 bytes apart, where addresses have 32 bytes.
pub fn has_gates<T: Mrdt>()
    ensures { (form : Form) → HasGates form T.meaning }
{}

/// A move appends its record.
pub fn appends_records<T: Mrdt>()
    ensures { (form : Form) → AppendsRecords form T.meaning }
{}

/// Reading goes on behind a record and the objects of a move that the machine makes, and behind each record that may
/// come next of a move without a commit.
pub fn goes_on<T: Mrdt>()
    ensures { (form : Form) → GoesOn form T.meaning }
{}

/// The objects behind a history spell the operation and the reply of the move that stands there, where addresses
/// have 32 bytes and the objects are shorter than 2^64 bytes.
pub fn tells_operations<T: Mrdt>()
    ensures { (form : Form) → TellsOperations form T.meaning }
{}

/// The objects behind a history spell the parents, the origin, the clock and the action of the commit that was
/// received there, where addresses have 32 bytes and the objects are shorter than 2^64 bytes.
pub fn tells_received<T: Mrdt>()
    ensures { (form : Form) → TellsReceived form T.meaning }
{}
