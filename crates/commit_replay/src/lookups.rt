// What a recorded history without a pending move has.
ghost use Rattle.std.specs.Prelude.{◌≡◌, ◌<◌, ◌↔◌, [], length, IfOk, IsTrue, Some, None};
ghost use Rattle.branch_history.specs.History.{store_of};
ghost use Rattle.branch_machine.specs.Fixed.{fix};
ghost use Rattle.branch_files.specs.Next.{HasBranch};
ghost use Rattle.branch_names.specs.Heads.{branch_named, head_of};
ghost use Rattle.commit_replay.specs.Walk.{IsStanding};

use branch_address::Address;
use branch_names::{Name, Terms};
use mrdt_model::{Memory, Mrdt};
use recorded_history::{LookRefused, Recorded, Seen};

// How many moves, commits and branches there are, the terms, and where the objects end.
#[derive(Clone, Copy)]
pub struct Standing {
    pub moves: u64,
    pub commits: u32,
    pub branches: u32,
    pub terms: Terms,
    pub end: u64,
}

// How a history stands.
pub fn standing_of<T: Mrdt, A: Address>(recorded: &Recorded<T, A>) -> Standing
    requires { recorded.now.pending ≡ [] }
    ensures { IsStanding (fix T.meaning recorded.now.terms A.address) recorded.now.written result }
{
    Standing {
        moves: recorded.moves(),
        commits: recorded.commits(),
        branches: recorded.branches(),
        terms: recorded.terms(),
        end: recorded.end(),
    }
}

// Whether a branch is there, and was not dropped.
pub fn has_branch<T: Mrdt, A: Address>(recorded: &Recorded<T, A>, number: u32) -> bool
    requires { recorded.now.pending ≡ [] }
    ensures { IsTrue result
        ↔ HasBranch (store_of recorded.now.terms.origin recorded.now.written) number }
{
    number < recorded.branches() && !recorded.is_dropped(number)
}

// The name and the head of a branch that was not dropped.
pub fn branch_at<T: Mrdt, A: Address>(recorded: &Recorded<T, A>, number: u32) -> (Name, u32)
    requires settled { recorded.now.pending ≡ [] }
    requires there { HasBranch (store_of recorded.now.terms.origin recorded.now.written) number }
    ensures named { branch_named (store_of recorded.now.terms.origin recorded.now.written).branches
        result.0 ≡ Some number }
    ensures head { result.1
        ≡ head_of (store_of recorded.now.terms.origin recorded.now.written).branches number }
    ensures commit { result.1
        < length (store_of recorded.now.terms.origin recorded.now.written).commits }
{
    let _moves = recorded.moves();
    match recorded.branch(number) {
        Some(found) => found,
        None => unreachable!(),
    }
}

// A look at a branch.
pub fn look_at<T: Mrdt, A: Address>(
    recorded: &Recorded<T, A>,
    branch: u32,
) -> Result<Seen<T>, Memory>
    requires settled { recorded.now.pending ≡ [] }
    requires there { HasBranch (store_of recorded.now.terms.origin recorded.now.written) branch }
    ensures { IfOk result (λ seen. seen ≡ record {
      history = recorded.now.written;
      terms = recorded.now.terms;
      branch = branch;
      head = head_of (store_of recorded.now.terms.origin recorded.now.written).branches
          branch;
    }) }
{
    let (name, _head) = branch_at(recorded, branch);
    match recorded.look(&name) {
        Ok(seen) => Ok(seen),
        Err(LookRefused::Memory) => Err(Memory),
        Err(LookRefused::UnknownBranch { .. }) => unreachable!(),
    }
}

// Whether no branch has the name.
pub fn is_free<T: Mrdt, A: Address>(recorded: &Recorded<T, A>, name: &Name) -> Result<bool, Memory>
    requires { recorded.now.pending ≡ [] }
    ensures { IfOk result (λ free. IsTrue free
        ↔ (branch_named (store_of recorded.now.terms.origin recorded.now.written).branches name.now
        ≡ None)) }
{
    match recorded.look(name) {
        Ok(_) => Ok(false),
        Err(LookRefused::UnknownBranch { .. }) => Ok(true),
        Err(LookRefused::Memory) => Err(Memory),
    }
}
