//! The half of a store that lives in memory: a history of head moves with the value of each of its commits, over
//! any mergeable replicated data type, what one sees of it, and what is ready to land.
//!
//! Each call is one step of the machine of `branch_history`: it answers what the machine answers, and its
//! history is the machine's. What is ready to land can be written before it lands, and what landed can be undone.
#![tactic(auto)]

pub mod answers;
pub mod arrival;
pub mod group;
mod move_list;
pub mod pair;
pub mod pairing;
pub mod past;
pub mod placing;
pub mod prepared;
pub mod receiving;
pub mod seen;
mod shared;
mod spelled;
pub mod versions;

pub use answers::{
    DropRefused, ForkRefused, Forked, Kind, LandRefused, Landed, LookRefused, PairPrepareRefused,
    PairRefused, PlaceRefused, PrepareRefused, ReceiveRefused, Received, RemakeRefused,
};
pub use arrival::{Arrival, WrittenArrival};
pub use group::Group;
pub use pair::{Pair, PairStep};
pub use prepared::{Prepared, Written};
pub use seen::Seen;
pub use versions::Versions;
