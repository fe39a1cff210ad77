// Laws of the bytes of a store. Each stands on a function with an empty body, whose contract is the law.
ghost use Rattle.store_core.specs.Laws.{CoversFirstParts, HasLengths};

use mrdt_model::Mrdt;

/// The files of a longer history, written over those of its first part, are its files written over what stood first.
pub fn covers_first_parts<T: Mrdt>()
    ensures { CoversFirstParts T.meaning }
{}

/// How long the files of a valid history are, where addresses have 32 bytes: its objects, and 64 bytes for the header
/// and each record and one more, or what stood there before, where that was longer.
pub fn has_lengths<T: Mrdt>()
    ensures { HasLengths T.meaning }
{}
