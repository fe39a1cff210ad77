// What replayed records and objects say of files. Each law stands on a function with an empty body.
ghost use Rattle.commit_replay.specs.Laws.{ReadsAsReplayed, ReadsAsNoStore, ReadsAsNoneOfKind, ReadsAsStore};

use mrdt_model::Mrdt;

/// What the records of the heads and the objects of files are replayed to, the files read as, in each form, for one that
/// asks for the kind of values that their header has.
pub fn reads_as_replayed<T: Mrdt>()
    ensures { ReadsAsReplayed T.meaning }
{}

/// Files whose heads have no header of a form read as no store in that form.
pub fn reads_as_no_store<T: Mrdt>()
    ensures { ReadsAsNoStore T.meaning }
{}

/// Files whose heads have no header of a form with a kind of values read as no store in that form for one that asks for
/// this kind.
pub fn reads_as_none_of_kind<T: Mrdt>()
    ensures { ReadsAsNoneOfKind T.meaning }
{}

/// Files whose heads have a header of a form and a byte behind it read as no store in that form exactly where the
/// objects do not begin with those of a new store.
pub fn reads_as_store<T: Mrdt>()
    ensures { ReadsAsStore T.meaning }
{}
