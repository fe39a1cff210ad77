// Which records may come behind a history.
ghost use Rattle.std.specs.Prelude.{◌≡◌, ◌<◌, ◌↔◌, [], List, ℕ, IfOk, IsTrue};
ghost use Rattle.std.specs.List.{AllByRecursion};
ghost use Rattle.branch_machine.specs.Fixed.{fix};
ghost use Rattle.branch_files.specs.Next.{Suits};
ghost use Rattle.heads_journal.specs.declared.record.Record.TheVariants as entry;
ghost use Rattle.commit_replay.specs.Follows.{MayCome};

use crate::apart::are_brought;
use crate::lookups::{branch_at, has_branch, is_free, look_at, standing_of};
use branch_address::Address;
use branch_names::Name;
use heads_journal::{Joined, Record};
use mrdt_model::{Memory, Mrdt};
use recorded_history::Recorded;

// Whether the history allows a record behind it.
pub fn may_come<T: Mrdt, A: Address>(
    recorded: &Recorded<T, A>,
    next: &Record,
) -> Result<bool, Memory>
    requires { recorded.now.pending ≡ [] }
    ensures { IfOk result (λ may. IsTrue may
        ↔ MayCome (fix T.meaning recorded.now.terms A.address) recorded.now.written next.now) }
{
    let now = standing_of(recorded);
    if now.moves >= now.terms.limits.moves {
        return Ok(false);
    }
    match next {
        Record::Fork {
            number,
            from,
            name,
            end,
        } => may_fork(recorded, *number, *from, name, *end),
        Record::Operation { branch, end, .. } => may_operate(recorded, *branch, *end),
        Record::Merge {
            branch,
            from,
            end,
            ..
        } => may_merge(recorded, *branch, *from, *end),
        Record::Forward { branch, to, end } => may_go_forward(recorded, *branch, *to, *end),
        Record::Join {
            branch,
            joined,
            end,
        } => may_join(recorded, *branch, joined, *end),
        Record::Received { end, .. } => Ok(*end > now.end),
        Record::Place {
            number,
            commit,
            name,
            end,
        } => may_place(recorded, *number, *commit, name, *end),
        Record::Drop { branch, end } => Ok(may_drop(recorded, *branch, *end)),
    }
}

// Whether a new branch may have this number and this name, at the head of that branch.
fn may_fork<T: Mrdt, A: Address>(
    recorded: &Recorded<T, A>,
    number: u32,
    from: u32,
    name: &Name,
    end: u64,
) -> Result<bool, Memory>
    requires { recorded.now.pending ≡ [] }
    ensures { IfOk result (λ may. IsTrue may
        ↔ Suits (fix T.meaning recorded.now.terms A.address) recorded.now.written
        (entry.Fork number from name.now end)) }
{
    let now = standing_of(recorded);
    if number != now.branches || number >= now.terms.limits.branches {
        return Ok(false);
    }
    if !has_branch(recorded, from) || end != now.end {
        return Ok(false);
    }
    is_free(recorded, name)
}

// Whether an operation may be made on a branch, whose objects end there.
fn may_operate<T: Mrdt, A: Address>(
    recorded: &Recorded<T, A>,
    branch: u32,
    end: u64,
) -> Result<bool, Memory>
    requires { recorded.now.pending ≡ [] }
    ensures { IfOk result (λ may. (address : List ℕ) → IsTrue may
        ↔ Suits (fix T.meaning recorded.now.terms A.address) recorded.now.written
        (entry.Operation branch address end)) }
{
    let now = standing_of(recorded);
    if !has_branch(recorded, branch) || end <= now.end || now.commits >= now.terms.limits.commits {
        return Ok(false);
    }
    let seen = look_at(recorded, branch)?;
    Ok(seen.clock() < now.terms.limits.clock)
}

// Whether a commit may be merged into a branch, so that the objects end there.
fn may_merge<T: Mrdt, A: Address>(
    recorded: &Recorded<T, A>,
    branch: u32,
    from: u32,
    end: u64,
) -> Result<bool, Memory>
    requires { recorded.now.pending ≡ [] }
    ensures { IfOk result (λ may. (address : List ℕ) → IsTrue may
        ↔ Suits (fix T.meaning recorded.now.terms A.address) recorded.now.written
        (entry.Merge branch from address end)) }
{
    let now = standing_of(recorded);
    if !has_branch(recorded, branch) || from >= now.commits {
        return Ok(false);
    }
    if end <= now.end || now.commits >= now.terms.limits.commits {
        return Ok(false);
    }
    let (_name, head) = branch_at(recorded, branch);
    if recorded.reaches(head, from)? {
        return Ok(false);
    }
    Ok(!recorded.reaches(from, head)?)
}

// Whether a branch may go forward to a commit.
fn may_go_forward<T: Mrdt, A: Address>(
    recorded: &Recorded<T, A>,
    branch: u32,
    to: u32,
    end: u64,
) -> Result<bool, Memory>
    requires { recorded.now.pending ≡ [] }
    ensures { IfOk result (λ may. IsTrue may
        ↔ Suits (fix T.meaning recorded.now.terms A.address) recorded.now.written
        (entry.Forward branch to end)) }
{
    let now = standing_of(recorded);
    if !has_branch(recorded, branch) || to >= now.commits || end != now.end {
        return Ok(false);
    }
    let (_name, head) = branch_at(recorded, branch);
    if recorded.reaches(head, to)? {
        return Ok(false);
    }
    recorded.reaches(to, head)
}

// Whether several commits may be joined to the head of a branch, so that the objects end there.
fn may_join<T: Mrdt, A: Address>(
    recorded: &Recorded<T, A>,
    branch: u32,
    joined: &Joined,
    end: u64,
) -> Result<bool, Memory>
    requires { recorded.now.pending ≡ [] }
    ensures { IfOk result (λ may. IsTrue may
        ↔ Suits (fix T.meaning recorded.now.terms A.address) recorded.now.written
        (entry.Join branch joined.now end)) }
{
    let now = standing_of(recorded);
    let commits = joined.as_slice();
    if !has_branch(recorded, branch) || !are_commits(commits, now.commits) {
        return Ok(false);
    }
    if end <= now.end || now.commits >= now.terms.limits.commits {
        return Ok(false);
    }
    let (_name, head) = branch_at(recorded, branch);
    are_brought(recorded, head, commits)
}

// Whether all the numbers are of the first so many commits.
fn are_commits(commits: &[u32], count: u32) -> bool
    ensures { IsTrue result ↔ AllByRecursion (λ n. n < count) commits.now }
{
    commits.iter().all(|commit| *commit < count)
}

// Whether a new branch may have this number and this name, at that commit.
fn may_place<T: Mrdt, A: Address>(
    recorded: &Recorded<T, A>,
    number: u32,
    commit: u32,
    name: &Name,
    end: u64,
) -> Result<bool, Memory>
    requires { recorded.now.pending ≡ [] }
    ensures { IfOk result (λ may. IsTrue may
        ↔ Suits (fix T.meaning recorded.now.terms A.address) recorded.now.written
        (entry.Place number commit name.now end)) }
{
    let now = standing_of(recorded);
    if number != now.branches || number >= now.terms.limits.branches {
        return Ok(false);
    }
    if commit >= now.commits || end != now.end {
        return Ok(false);
    }
    is_free(recorded, name)
}

// Whether a branch may be dropped, which the first may not.
fn may_drop<T: Mrdt, A: Address>(recorded: &Recorded<T, A>, branch: u32, end: u64) -> bool
    requires { recorded.now.pending ≡ [] }
    ensures { IsTrue result
        ↔ Suits (fix T.meaning recorded.now.terms A.address) recorded.now.written
        (entry.Drop branch end) }
{
    let now = standing_of(recorded);
    has_branch(recorded, branch) && branch != 0 && end == now.end
}
