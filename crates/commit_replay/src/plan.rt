// What is to be done for a record.
ghost use Rattle.std.specs.Prelude.{◌≡◌, ℕ, List, IfOk, OnOk, IsErrOf};
ghost use Rattle.branch_names.specs.declared.terms.Terms.{Terms as SpecTerms};
ghost use Rattle.branch_machine.specs.Fixed.{fix};
ghost use Rattle.branch_files.specs.Next.{Does};
ghost use Rattle.commit_replay.specs.Plans.{IsPlanned};

use branch_objects_codec::Action;
use heads_journal::{Joined, Record};
use mrdt_model::{Bytes, Mrdt, Unread};
use std::alloc::Global;

// An operation on a branch, a commit to merge into one, or several to join to its head.
#[derive(Drop)]
pub enum Plan<O> {
    Operation { branch: u32, op: O },
    Merge { branch: u32, commit: u32 },
    Join { branch: u32, commits: Joined },
}

// The only operation that has this spelling, whose reply has that one. `NotCanonical` comes exactly where one of them is
// no spelling of the type.
fn operation_of<T: Mrdt>(alloc: Global, op: &Bytes, reply: &Bytes) -> Result<T::Op, Unread>
    ensures one { IfOk result (λ own. T.meaning.is_op own × ((other : T.Op) → T.meaning.is_op other
        → T.meaning.op_spelling other ≡ op.now → own ≡ other)) }
    ensures spelled { OnOk result
        (T.meaning.is_op_spelling op.now × T.meaning.is_reply_spelling reply.now) }
    ensures none { IsErrOf result Unread.NotCanonical → T.meaning.is_op_spelling op.now
        → T.meaning.is_reply_spelling reply.now → ⊥ }
{
    let own = match T::get_op(alloc, op.as_slice()) {
        Ok(own) => own,
        Err(refused) => return Err(refused),
    };
    match T::get_reply(alloc, reply.as_slice()) {
        Ok(_) => Ok(own),
        Err(refused) => Err(refused),
    }
}

// What a record and its commit say is to be done on a branch; nothing where the record is of a commit that was received.
// `NotCanonical` comes exactly where the commit does not do what the record says, by spellings of the type.
pub fn planned<T: Mrdt>(
    alloc: Global,
    next: &Record,
    action: &Action,
) -> Result<Option<Plan<T::Op>>, Unread>
    ensures plan { IfOk result (IsPlanned T.meaning next.now action.now) }
    ensures does { OnOk result ((terms : SpecTerms) (address : List ℕ → List ℕ)
        → Does (fix T.meaning terms address) next.now action.now) }
    ensures other { IsErrOf result Unread.NotCanonical
        → (terms : SpecTerms) (address : List ℕ → List ℕ)
        → Does (fix T.meaning terms address) next.now action.now → ⊥ }
{
    match next {
        Record::Operation { branch, .. } => match action {
            Action::Operation { op, reply } => match operation_of::<T>(alloc, op, reply) {
                Ok(op) => Ok(Some(Plan::Operation {
                    branch: *branch,
                    op,
                })),
                Err(refused) => Err(refused),
            },
            Action::Root => Err(Unread::NotCanonical),
            Action::Merge => Err(Unread::NotCanonical),
        },
        Record::Merge { branch, from, .. } => match action {
            Action::Merge => Ok(Some(Plan::Merge {
                branch: *branch,
                commit: *from,
            })),
            Action::Root => Err(Unread::NotCanonical),
            Action::Operation { .. } => Err(Unread::NotCanonical),
        },
        Record::Join { branch, joined, .. } => match action {
            Action::Merge => Ok(Some(Plan::Join {
                branch: *branch,
                commits: *joined,
            })),
            Action::Root => Err(Unread::NotCanonical),
            Action::Operation { .. } => Err(Unread::NotCanonical),
        },
        Record::Fork { .. } => Err(Unread::NotCanonical),
        Record::Forward { .. } => Err(Unread::NotCanonical),
        Record::Place { .. } => Err(Unread::NotCanonical),
        Record::Drop { .. } => Err(Unread::NotCanonical),
        Record::Received { .. } => match action {
            Action::Operation { op, reply } => match operation_of::<T>(alloc, op, reply) {
                Ok(_) => Ok(None),
                Err(refused) => Err(refused),
            },
            Action::Merge => Ok(None),
            Action::Root => Err(Unread::NotCanonical),
        },
    }
}
