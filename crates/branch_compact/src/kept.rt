// Which commits are kept, and what becomes of moves by it.
ghost use Rattle.std.specs.Prelude.{◌≡◌, ◌+◌, ◌^◌, ◌<◌, ◌∷◌, ◌++◌, [], true, false, map, length, IfOk, OnOk};
ghost use Rattle.branch_history.specs.declared.moves.Move.TheVariants as move;
ghost use Rattle.branch_compact.specs.Compact.{new_number, commits_made as commits_made_by, stays, renumbered, kept_moves};
ghost use Rattle.branch_compact.specs.Marks.{is_marked, all_made};

use crate::marks::number_marked;
use branch_history::Move;
use branch_names::Name;
use mrdt_model::{Listing, Memory};
use std::alloc::Global;
use std::marker::Model;

// Which commits are kept, and the new number of each commit. Contracts see the marks of those that are kept.
#[derive(Drop)]
pub(crate) struct Kept {
    marks: Vec<bool>,
    numbers: Vec<u32>,
}

impl Model for Kept {
    ghost use Rattle.std.specs.Prelude.{Bool, List};
    ghost use Rattle.branch_compact.specs.Marks.{AreNumbered};

    ghost Value = { List Bool };

    ghost view = { λ k. k.marks.items };

    ghost invariant = { λ k. AreNumbered k.marks.items k.numbers.items };
}

impl Kept {
    // The commits that are marked.
    pub(crate) fn new(alloc: Global, marks: Vec<bool>) -> Result<Kept, Memory>
        requires { length marks.items < 2 ^ 32 }
        ensures { IfOk result (λ kept. kept ≡ marks.items) }
    {
        let numbers = number_marked(alloc, &marks)?;
        Ok(Kept { marks, numbers })
    }

    // Whether a commit is kept.
    fn has(&self, number: u32) -> bool
        ensures { result ≡ is_marked self.now number }
    {
        match self.marks.get(number as usize) {
            Some(is_kept) => *is_kept,
            None => false,
        }
    }

    // The new number of a commit: how many commits before it are kept.
    fn number(&self, number: u32) -> u32
        ensures { result ≡ new_number (is_marked self.now) number }
    {
        let last = self.marks.len();
        self.numbers[last.min(number as usize)]
    }

    // Puts the new number in the place of each.
    fn number_all(&self, commits: &mut [u32])
        ensures { commits.new ≡ map (new_number (is_marked self.now)) commits.old }
    {
        for commit in commits.iter_mut() {
            *commit = self.number(*commit);
        }
    }

    // The new numbers of commits.
    fn numbers(&self, commits: Listing<u32>) -> Listing<u32>
        ensures { result ≡ map (new_number (is_marked self.now)) commits }
    {
        let mut commits = commits.into_vec();
        self.number_all(&mut commits);
        Listing::from_vec(commits)
    }

    // Whether a move stays, given the number of commits before it.
    fn stays<O, R>(&self, before: u32, made: &Move<O, R>) -> bool
        ensures { result ≡ stays (is_marked self.now) before made.now }
    {
        match made {
            Move::Operation { .. } => self.has(before),
            Move::Merge { .. } => self.has(before),
            Move::Join { .. } => self.has(before),
            Move::Received { .. } => self.has(before),
            Move::Forward { commit, .. } => self.has(*commit),
            Move::Fork { .. } => true,
            Move::Place { .. } => true,
            Move::Drop { .. } => true,
        }
    }

    // A branch placed at a commit, by its new number, or forked from `main` where it is gone.
    fn placed<O, R>(&self, name: Name, number: u32, commit: u32) -> Move<O, R>
        ensures { result ≡ renumbered (is_marked self.now) (move.Place name number commit) }
    {
        if self.has(commit) {
            let commit = self.number(commit);
            Move::Place {
                name,
                number,
                commit,
            }
        } else {
            Move::Fork {
                name,
                number,
                from: 0,
            }
        }
    }

    // The move by the new numbers of the commits that it names.
    fn renumbered<O, R>(&self, made: Move<O, R>) -> Move<O, R>
        ensures { result ≡ renumbered (is_marked self.now) made }
    {
        match made {
            Move::Merge { branch, commit } => Move::Merge {
                branch,
                commit: self.number(commit),
            },
            Move::Join { branch, commits } => Move::Join {
                branch,
                commits: self.numbers(commits),
            },
            Move::Forward { branch, commit } => Move::Forward {
                branch,
                commit: self.number(commit),
            },
            Move::Received {
                parents,
                origin,
                clock,
                act,
            } => Move::Received {
                parents: self.numbers(parents),
                origin,
                clock,
                act,
            },
            Move::Place {
                name,
                number,
                commit,
            } => self.placed(name, number, commit),
            Move::Fork { name, number, from } => Move::Fork { name, number, from },
            Move::Operation { branch, op, reply } => Move::Operation { branch, op, reply },
            Move::Drop { branch } => Move::Drop { branch },
        }
    }
}

/// How many commits a move makes: one or none.
pub fn commits_made<O, R>(made: &Move<O, R>) -> u32
    ensures { result ≡ commits_made_by made.now }
{
    match made {
        Move::Operation { .. } => 1,
        Move::Merge { .. } => 1,
        Move::Join { .. } => 1,
        Move::Received { .. } => 1,
        Move::Fork { .. } => 0,
        Move::Forward { .. } => 0,
        Move::Place { .. } => 0,
        Move::Drop { .. } => 0,
    }
}

// Puts a move behind others where it stays, given the number of commits before it.
fn keep_move<O: Drop, R: Drop>(
    kept: &Kept,
    before: u32,
    made: Move<O, R>,
    fewer: &mut Vec<Move<O, R>>,
) -> Result<(), Memory>
    ensures stays { OnOk result (stays (is_marked kept.now) before made ≡ true
        → fewer.new.items ≡ fewer.old.items ++ renumbered (is_marked kept.now) made ∷ []) }
    ensures goes { OnOk result (stays (is_marked kept.now) before made ≡ false
        → fewer.new.items ≡ fewer.old.items) }
{
    if kept.stays(before, &made) {
        fewer.push(kept.renumbered(made))?;
    }
    Ok(())
}

// The moves that stay, by the new numbers.
pub(crate) fn keep_moves<O: Drop, R: Drop>(
    alloc: Global,
    kept: &Kept,
    moves: Listing<Move<O, R>>,
) -> Result<Listing<Move<O, R>>, Memory>
    requires { 1 + all_made moves < 2 ^ 32 }
    ensures { IfOk result (λ fewer. fewer ≡ kept_moves (is_marked kept.now) moves) }
{
    let mut fewer = Vec::new(alloc);
    let mut before: u32 = 1;
    for made in moves.into_vec() {
        let more = commits_made(&made);
        keep_move(kept, before, made, &mut fewer)?;
        before += more;
    }
    Ok(Listing::from_vec(fewer))
}
