//! Documents of each kind may go to other threads, and be shared with them: who meets one cites `proofs/Crosses` for it.
#![tactic(auto)]

use mrdt_doc::Doc;
use mrdt_old_doc::Doc1;
use mrdt_wide::Wide;

// Asks whether values may cross.
fn may_cross<T: Send + Sync>() {}

/// Documents of today's, those with sequences, and those of version 1 may cross.
pub fn documents_cross() {
    may_cross::<Doc>();
    may_cross::<Wide>();
    may_cross::<Doc1>();
}
