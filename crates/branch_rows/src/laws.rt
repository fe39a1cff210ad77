// The worked rows. Each stands on a function with an empty body, whose contract is the row.
ghost use Rattle.branch_rows.specs.Rows.{WritesFreshStore, WritesFreshChanges, WritesOneChange, WritesOneOperation, WritesReceived, RefusesTwoValues, RefusesTwoCommits, WritesMaps, WritesJoin};
ghost use Rattle.branch_rows.specs.Turns.{JoinsBranches, ReceivesOperations, RefusesOwnOrigins, DropsBranches};

/// A fresh store of documents has 191 bytes of objects and 64 of heads before the gate, and these they are.
pub fn writes_fresh_store()
    ensures { WritesFreshStore }
{}

/// One that keeps no values has 46 bytes of objects, and these they are.
pub fn writes_fresh_changes()
    ensures { WritesFreshChanges }
{}

/// After an operation that adds 5 to the counter `hits`, a store that keeps no values, whose first origin is 100, has
/// 146 bytes of objects and 128 of heads before the gate, and these they are.
pub fn writes_one_change()
    ensures { WritesOneChange }
{}

/// After an operation that adds 5 to the counter `hits`, the store has 484 bytes of objects and 128 of heads before
/// the gate, and these they are.
pub fn writes_one_operation()
    ensures { WritesOneOperation }
{}

/// A store whose first origin is 100 has these bytes after an operation that was received, a branch that was placed there
/// and its drop.
pub fn writes_received()
    ensures { WritesReceived }
{}

/// Where only the length of bytes decides their address, a second value of as many bytes is refused.
pub fn refuses_two_values()
    ensures { RefusesTwoValues }
{}

/// There a second commit of as many bytes is refused too, though its value is longer.
pub fn refuses_two_commits()
    ensures { RefusesTwoCommits }
{}

/// A store of a map of counters has 95 bytes of objects when it is fresh, and 290 after an operation that adds 5 to
/// `hits`.
pub fn writes_maps()
    ensures { WritesMaps }
{}

/// It has these bytes after two operations that were received and joined.
pub fn writes_join()
    ensures { WritesJoin }
{}

/// Three branches are joined into `main` at once.
pub fn joins_branches()
    ensures { JoinsBranches }
{}

/// Operations of another store are received once, get a branch, and are merged.
pub fn receives_operations()
    ensures { ReceivesOperations }
{}

/// Nothing of an origin of this store is received.
pub fn refuses_own_origins()
    ensures { RefusesOwnOrigins }
{}

/// A branch that was dropped does not move and is not found, its name is free and its number is not, and `main` is kept.
pub fn drops_branches()
    ensures { DropsBranches }
{}
