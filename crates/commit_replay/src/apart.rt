// Which of several commits a merge brings.
ghost use Rattle.std.specs.Prelude.{◌≡◌, ◌↔◌, ◌<◌, [], All, length, IfOk, IsTrue};
ghost use Rattle.branch_history.specs.Commits.{graph_of};
ghost use Rattle.branch_history.specs.History.{store_of};
ghost use Rattle.branch_history.specs.Merging as merging;
ghost use Rattle.commit_replay.specs.Apart.{IsBroughtAt};

use branch_address::Address;
use mrdt_model::{Memory, Mrdt};
use recorded_history::Recorded;

// Whether a merge into a commit brings all of some commits as they are.
pub fn are_brought<T: Mrdt, A: Address>(
    recorded: &Recorded<T, A>,
    head: u32,
    commits: &[u32],
) -> Result<bool, Memory>
    requires settled { recorded.now.pending ≡ [] }
    requires head { head
        < length (store_of recorded.now.terms.origin recorded.now.written).commits }
    requires there { All (λ n.
        n < length (store_of recorded.now.terms.origin recorded.now.written).commits) commits.now }
    ensures { IfOk result (λ all. IsTrue all
        ↔ (merging.brought
        (graph_of (store_of recorded.now.terms.origin recorded.now.written).commits) head
        commits.now ≡ commits.now)) }
{
    for place in 0..commits.len() {
        if !is_brought(recorded, head, commits, place)? {
            return Ok(false);
        }
    }
    Ok(true)
}

// Whether it brings the one at a place, and there.
fn is_brought<T: Mrdt, A: Address>(
    recorded: &Recorded<T, A>,
    head: u32,
    commits: &[u32],
    place: usize,
) -> Result<bool, Memory>
    requires settled { recorded.now.pending ≡ [] }
    requires head { head
        < length (store_of recorded.now.terms.origin recorded.now.written).commits }
    requires there { All (λ n.
        n < length (store_of recorded.now.terms.origin recorded.now.written).commits) commits.now }
    requires place { place < length commits.now }
    ensures { IfOk result (λ is. IsTrue is
        ↔ IsBroughtAt (graph_of (store_of recorded.now.terms.origin recorded.now.written).commits)
        head commits.now place) }
{
    let commit = commits[place];
    if commits[..place].contains(&commit) || recorded.reaches(head, commit)? {
        return Ok(false);
    }
    Ok(!is_below(recorded, commits, commit)?)
}

// Whether a commit lies below another one of some commits.
fn is_below<T: Mrdt, A: Address>(
    recorded: &Recorded<T, A>,
    commits: &[u32],
    commit: u32,
) -> Result<bool, Memory>
    requires settled { recorded.now.pending ≡ [] }
    requires there { All (λ n.
        n < length (store_of recorded.now.terms.origin recorded.now.written).commits) commits.now }
    requires stands { commit
        < length (store_of recorded.now.terms.origin recorded.now.written).commits }
    ensures { IfOk result (λ below.
        below ≡ merging.is_below
        (graph_of (store_of recorded.now.terms.origin recorded.now.written).commits) commits.now
        commit) }
{
    for other in commits {
        if *other != commit && recorded.reaches(*other, commit)? {
            return Ok(true);
        }
    }
    Ok(false)
}
