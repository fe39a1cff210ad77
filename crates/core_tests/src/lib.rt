//! Tests of a store on a disk: its sizes in either layout and its device calls, batches that land at once, are stopped in
//! each of their calls, or fail with their disk; batches of unlike jobs, objects that collide by their address, commits
//! that another store sent, and files that are opened again. They are generic, and meet a type of values and an address
//! in the last call alone, since a proof over a concrete type is handed all that its traits say of it.
#![tactic(auto)]

#[cfg(test)]
mod batches;
#[cfg(test)]
mod files;
#[cfg(test)]
mod mixed;
#[cfg(test)]
mod received;
#[cfg(test)]
mod single;
#[cfg(test)]
mod stores;
#[cfg(test)]
mod told;
