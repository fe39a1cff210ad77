// The engine of a script: a core on a disk, and what each session sees.
ghost use Rattle.std.specs.Prelude.{◌≡◌, ◌<◌, ◌≤◌, ◌++◌, [], length, nat_lt, Ok, Err, IsErr, OnOk, OnErr, true, false};
ghost use mathlib.Core.List.{IsPrefix};
ghost use Rattle.branch_names.specs.Heads.{name_of, IsKeptBranch};
ghost use Rattle.branch_history.specs.History.{store_of};
ghost use Rattle.branch_history.specs.Steps.{Stale};
ghost use Rattle.store_seen.specs.Turns.{step_of};
ghost use Rattle.store_core.specs.Views.{held};
ghost use Rattle.branch_print.specs.Texts.{refusal_text, line_end};
ghost use Rattle.mrdt_model.specs.Spelled.{AppendsPart};
ghost use Rattle.branch_machine.specs.Fixed.{fix};
ghost use Rattle.store_core.specs.Answers.{had_failed, drop_answer, place_answer};
ghost use Rattle.branch_engine.specs.Engines.{IsAt, Does, Puts, KeepsLooks, SeesHead, kind_text, ungrouped_text, RepliesAs};
ghost use Rattle.branch_engine.specs.Play.{begins, turn_told, step_told, form_told, line_told};
ghost use Rattle.branch_script.specs.declared.step.Line.TheVariants as form;
ghost use Rattle.branch_script.specs.declared.step.Step.TheVariants as step;
ghost use Rattle.store_seen.specs.declared.answers.PairRefused.TheVariants as pair_refusal;

use crate::refused::TellRefused;
use branch_address::Address;
use branch_disk::Disk;
use branch_doc::{Forms, PlainOp, PlainQuery};
use branch_files::laws::reads_what_stands;
use branch_names::Name;
use branch_print::refusals::{
    put_collision, put_dropped, put_exhausted, put_full_branches, put_full_commits, put_full_moves,
    put_keeps_main, put_line_refusal, put_no_sequences, put_stale, put_taken, put_too_large,
    put_unknown, put_unknown_commit, put_unseen,
};
use branch_print::replies::{
    put_answer, put_dropped_branch, put_forked, put_forward, put_joined, put_landed, put_merged,
    put_same, put_sees, takes_item,
};
use branch_script::{Line, LineRefused, Step, read_line};
use mrdt_model::Memory;
use std::alloc::Global;
use std::collections::BTreeMap;
use std::marker::Model;
use store_core::{
    Core, DropRefused, ForkRefused, Forked, Kind, LandRefused, LookRefused, PairPrepareRefused,
    PairRefused, PairStep, PlaceRefused, PrepareRefused, Prepared, Seen,
};

/// A core on a disk, and what each session sees, for values of a type with plain forms. Contracts see an `EngineView`: the
/// core's view, and that of each session's look.
#[derive(Drop)]
pub struct Engine<T: Forms, D: Disk + Drop, A: Address> {
    alloc: Global,
    core: Core<T, D, A>,
    sessions: BTreeMap<Name, Seen<T>>,
}

impl<T: Forms, D: Disk + Drop, A: Address> Model for Engine<T, D, A> {
    ghost use Rattle.store_core.specs.Views.{held};
    ghost use Rattle.branch_engine.specs.Engines.{EngineView, AreLooksAt};

    ghost Value = { EngineView T.Op T.Reply D };

    ghost view = { λ e. record { core = e.core; sessions = e.sessions.entries } };

    ghost invariant = { λ e. AreLooksAt (held e.core) e.sessions.entries };
}

// A session sees this from now on.
fn set_session<S: Drop>(
    sessions: &mut BTreeMap<Name, S>,
    session: &Name,
    seen: S,
) -> Result<(), Memory>
    ensures put { OnOk result (Puts sessions.old.entries sessions.new.entries session.now seen) }
    ensures kept { OnErr result (KeepsLooks sessions.old.entries sessions.new.entries) }
{
    match sessions.insert(*session, seen) {
        Ok(_) => Ok(()),
        Err(_) => Err(Memory),
    }
}

// What landed, and of an operation whether it takes an item out of a sequence.
fn put_kind<T: Forms>(out: &mut Vec<u8>, takes: bool, kind: Kind<T::Reply>) -> Result<(), Memory>
    ensures ok { OnOk result (out.new.items
        ≡ out.old.items ++ (kind_text T.forms.reply takes kind ++ line_end)) }
    ensures err { OnErr result
        (AppendsPart out.old.items out.new.items (kind_text T.forms.reply takes kind ++ line_end)) }
{
    match kind {
        Kind::Operation {
            commit,
            time,
            reply,
        } => put_landed(out, commit, time, takes, &T::reply(reply)),
        Kind::Merged { commit } => put_merged(out, commit),
        Kind::Joined { commit } => put_joined(out, commit),
        Kind::Forward { commit } => put_forward(out, commit),
    }
}

// A look was not grouped with branches: the name that no branch has.
fn put_ungrouped(out: &mut Vec<u8>, refused: PairRefused) -> Result<(), Memory>
    ensures ok { OnOk result (out.new.items ≡ out.old.items ++ ungrouped_text refused) }
    ensures err { OnErr result (AppendsPart out.old.items out.new.items (ungrouped_text refused)) }
    ensures memory { refused ≡ pair_refusal.Memory → (out.new.items ≡ out.old.items)
        × IsErr result }
{
    match refused {
        PairRefused::UnknownBranch { name } => put_unknown(out, &name),
        PairRefused::Memory => Err(Memory),
    }
}

// The name of the branch of this number; of a dropped one the name that it had.
fn name_at<T: Forms, D: Disk + Drop, A: Address>(core: &Core<T, D, A>, branch: u32) -> Name
    requires within { branch < length (store_of core.now.terms.origin core.now.history).branches }
    ensures { result ≡ name_of (store_of core.now.terms.origin core.now.history).branches branch }
{
    let (name, _) = core.branch(branch).unwrap();
    name
}

// Whether the store has a commit of this number.
fn has_commit<T: Forms, D: Disk + Drop, A: Address>(core: &Core<T, D, A>, commit: u32) -> bool
    ensures is { result ≡ nat_lt commit
        (length (store_of core.now.terms.origin core.now.history).commits) }
    ensures there { result ≡ true
        → commit < length (store_of core.now.terms.origin core.now.history).commits }
{
    commit < core.commits()
}

// Replies what the core answered to a drop of what was seen, on the branch with this name.
fn put_drop<T: Forms>(
    out: &mut Vec<u8>,
    name: &Name,
    seen: &Seen<T>,
    answer: Result<u64, DropRefused>,
) -> Result<(), TellRefused>
    requires worked { had_failed {A = T.Answer} {R = T.Reply} (drop_answer seen.now answer)
        ≡ false }
    ensures { RepliesAs T.forms name.now (drop_answer seen.now answer) out.old.items out.new.items
        result }
{
    match answer {
        Ok(_) => replied(put_dropped_branch(out, name, seen.head())),
        Err(DropRefused::Dropped { branch }) => replied(put_dropped(out, branch)),
        Err(DropRefused::KeepsMain) => replied(put_keeps_main(out)),
        Err(DropRefused::Stale { newest }) => replied(put_stale(out, name, newest)),
        Err(DropRefused::FullMoves { count }) => replied(put_full_moves(out, count)),
        Err(DropRefused::DiskFault) => Err(TellRefused::DiskFault),
        Err(DropRefused::Failed { .. }) => unreachable!(),
        Err(DropRefused::Memory) => Err(TellRefused::Memory),
    }
}

// Replies what the core answered to a branch of this name that was placed at a commit.
fn put_placed<T: Forms>(
    out: &mut Vec<u8>,
    new: &Name,
    answer: Result<Forked, PlaceRefused>,
) -> Result<(), TellRefused>
    requires worked { had_failed {A = T.Answer} {R = T.Reply} (place_answer answer) ≡ false }
    ensures { RepliesAs T.forms new.now (place_answer answer) out.old.items out.new.items result }
{
    match answer {
        Ok(forked) => replied(put_forked(out, new, forked.number, forked.head)),
        Err(PlaceRefused::NameTaken { number }) => replied(put_taken(out, number)),
        Err(PlaceRefused::FullBranches { count }) => replied(put_full_branches(out, count)),
        Err(PlaceRefused::FullMoves { count }) => replied(put_full_moves(out, count)),
        Err(PlaceRefused::DiskFault) => Err(TellRefused::DiskFault),
        Err(PlaceRefused::Failed { .. }) => unreachable!(),
        Err(PlaceRefused::Memory) => Err(TellRefused::Memory),
    }
}

// The answer of a call that wrote a reply, or was short of memory.
fn replied(written: Result<(), Memory>) -> Result<(), TellRefused>
    ensures ok { OnOk written (result ≡ Ok tt) }
    ensures err { OnErr written (result ≡ Err TellRefused.Memory) }
{
    Ok(written?)
}

impl<T: Forms, D: Disk + Drop, A: Address> Engine<T, D, A> {
    /// An engine over a core, of which no session has looked.
    pub fn new(alloc: Global, core: Core<T, D, A>) -> Engine<T, D, A>
        ensures core { result.core ≡ core }
        ensures begins { core.failed ≡ false
            → IsAt D.may_leave (fix T.meaning core.terms A.address) result (begins core.history) }
    {
        reads_what_stands::<T>();
        let _ = core.moves();
        Engine {
            alloc,
            core,
            sessions: BTreeMap::new(alloc),
        }
    }

    // The session sees this from now on.
    fn sees(&mut self, session: &Name, seen: Seen<T>) -> Result<(), Memory>
        requires history { IsPrefix seen.history self.old.core.history }
        requires terms { seen.terms ≡ self.old.core.terms }
        ensures core { self.new.core ≡ self.old.core }
        ensures put { OnOk result (Puts self.old.sessions self.new.sessions session.now seen) }
        ensures kept { OnErr result (KeepsLooks self.old.sessions self.new.sessions) }
    {
        set_session(&mut self.sessions, session, seen)
    }

    // The session sees the head of the branch of this number, which was not dropped, from now on.
    fn sees_head(&mut self, session: &Name, branch: u32) -> Result<(), Memory>
        requires kept { IsKeptBranch
            (store_of self.old.core.terms.origin self.old.core.history).branches branch }
        ensures core { self.new.core ≡ self.old.core }
        ensures sees { OnOk result (SeesHead self.old self.new session.now branch) }
        ensures kept { OnErr result (KeepsLooks self.old.sessions self.new.sessions) }
    {
        let (name, _) = self.core.branch(branch).unwrap();
        match self.core.look(&name) {
            Ok(seen) => self.sees(session, seen),
            Err(LookRefused::UnknownBranch { .. }) => unreachable!(),
            Err(LookRefused::Memory) => Err(Memory),
        }
    }

    // A session looks at a branch.
    fn look(&mut self, out: &mut Vec<u8>, session: &Name, branch: &Name) -> Result<(), TellRefused>
        requires { self.old.core.failed ≡ false }
        ensures { Does D.may_leave D.moment D.left_since D.faults T.meaning A.address (λ fixed p.
            step_told T.forms fixed p (step.Look session.now branch.now)) self.old self.new
            out.old.items
            out.new.items result }
    {
        match self.core.look(branch) {
            Ok(seen) => {
                put_sees(out, session, branch, seen.head())?;
                replied(self.sees(session, seen))
            }
            Err(LookRefused::UnknownBranch { .. }) => replied(put_unknown(out, branch)),
            Err(LookRefused::Memory) => Err(TellRefused::Memory),
        }
    }

    // A branch is forked from another.
    fn fork(&mut self, out: &mut Vec<u8>, new: &Name, from: &Name) -> Result<(), TellRefused>
        requires { self.old.core.failed ≡ false }
        ensures { Does D.may_leave D.moment D.left_since D.faults T.meaning A.address (λ fixed p.
            step_told T.forms fixed p (step.Fork new.now from.now)) self.old self.new out.old.items
            out.new.items result }
    {
        reads_what_stands::<T>();
        let _ = self.core.moves();
        let forked = match self.core.fork(*new, from) {
            Ok(forked) => forked,
            Err(ForkRefused::UnknownBranch { .. }) => return replied(put_unknown(out, from)),
            Err(ForkRefused::NameTaken { number }) => return replied(put_taken(out, number)),
            Err(ForkRefused::FullBranches { count }) => return replied(put_full_branches(
                out, count,
            )),
            Err(ForkRefused::FullMoves { count }) => return replied(put_full_moves(out, count)),
            Err(ForkRefused::DiskFault) => return Err(TellRefused::DiskFault),
            Err(ForkRefused::Failed { .. }) => unreachable!(),
            Err(ForkRefused::Memory) => return Err(TellRefused::Memory),
        };
        let _ = self.core.moves();
        replied(put_forked(out, new, forked.number, forked.head))
    }

    // A query is asked at the head of a branch.
    fn ask(&self, out: &mut Vec<u8>, branch: &Name, query: &PlainQuery) -> Result<(), TellRefused>
        requires { self.now.core.failed ≡ false }
        ensures { Does D.may_leave D.moment D.left_since D.faults T.meaning A.address (λ fixed p.
            step_told T.forms fixed p (step.Ask branch.now query.now)) self.now self.now
            out.old.items
            out.new.items result }
    {
        let seen = match self.core.look(branch) {
            Ok(seen) => seen,
            Err(LookRefused::UnknownBranch { .. }) => return replied(put_unknown(out, branch)),
            Err(LookRefused::Memory) => return Err(TellRefused::Memory),
        };
        let query = T::query(query)?;
        let Some(query) = query else {
            return replied(put_no_sequences(out));
        };
        let answer = seen.ask(&query)?;
        replied(put_answer(out, &<T as Forms>::answer(answer)))
    }

    // A query is asked at the commit of a number.
    fn ask_at(&self, out: &mut Vec<u8>, commit: u32, query: &PlainQuery) -> Result<(), TellRefused>
        requires { self.now.core.failed ≡ false }
        ensures { Does D.may_leave D.moment D.left_since D.faults T.meaning A.address (λ fixed p.
            form_told T.forms fixed p (form.AskAt commit query.now)) self.now self.now out.old.items
            out.new.items result }
    {
        if !has_commit(&self.core, commit) {
            return replied(put_unknown_commit(out, commit));
        }
        let query = T::query(query)?;
        let Some(query) = query else {
            return replied(put_no_sequences(out));
        };
        let answer = self.core.ask_at(commit, &query)?;
        replied(put_answer(out, &<T as Forms>::answer(answer)))
    }

    // A branch is placed at the commit of a number.
    fn fork_at(&mut self, out: &mut Vec<u8>, new: &Name, commit: u32) -> Result<(), TellRefused>
        requires { self.old.core.failed ≡ false }
        ensures { Does D.may_leave D.moment D.left_since D.faults T.meaning A.address (λ fixed p.
            form_told T.forms fixed p (form.ForkAt new.now commit)) self.old self.new out.old.items
            out.new.items result }
    {
        reads_what_stands::<T>();
        let _ = self.core.moves();
        if !has_commit(&self.core, commit) {
            return replied(put_unknown_commit(out, commit));
        }
        let answer = self.core.place(*new, commit);
        let _ = self.core.moves();
        put_placed::<T>(out, new, answer)
    }

    // A session lands an operation on the branch that it sees.
    fn land(&mut self, out: &mut Vec<u8>, session: &Name, op: &PlainOp) -> Result<(), TellRefused>
        requires { self.old.core.failed ≡ false }
        ensures { Does D.may_leave D.moment D.left_since D.faults T.meaning A.address (λ fixed p.
            step_told T.forms fixed p (step.Do session.now op.now)) self.old self.new out.old.items
            out.new.items result }
    {
        let Some(seen) = self.sessions.get(session) else {
            return replied(put_unseen(out, session));
        };
        let takes = takes_item(op);
        let op = T::op(op)?;
        let Some(op) = op else {
            return replied(put_no_sequences(out));
        };
        let branch = seen.branch();
        match seen.prepare(op) {
            Ok(prepared) => self.move_on(out, session, branch, takes, prepared),
            Err(PrepareRefused::Exhausted { clock }) => replied(put_exhausted(out, clock)),
            Err(PrepareRefused::ValueTooLarge { length }) => replied(put_too_large(out, length)),
            Err(PrepareRefused::Memory) => Err(TellRefused::Memory),
        }
    }

    // The head of a branch is merged into the branch that a session sees.
    fn merge(&mut self, out: &mut Vec<u8>, session: &Name, from: &Name) -> Result<(), TellRefused>
        requires { self.old.core.failed ≡ false }
        ensures { Does D.may_leave D.moment D.left_since D.faults T.meaning A.address (λ fixed p.
            step_told T.forms fixed p (step.Merge session.now from.now)) self.old self.new
            out.old.items
            out.new.items result }
    {
        let Some(seen) = self.sessions.get(session) else {
            return replied(put_unseen(out, session));
        };
        let branch = seen.branch();
        let pair = match self.core.pair(seen, from) {
            Ok(pair) => pair,
            Err(PairRefused::UnknownBranch { .. }) => return replied(put_unknown(out, from)),
            Err(PairRefused::Memory) => return Err(TellRefused::Memory),
        };
        match pair.prepare() {
            Ok(PairStep::Same) => replied(put_same(out)),
            Ok(PairStep::Land(prepared)) => {
                // The core lands in place where no pair shares its nodes.
                drop(pair);
                self.move_on(out, session, branch, false, prepared)
            }
            Err(PairPrepareRefused::ValueTooLarge { length }) => replied(put_too_large(
                out, length,
            )),
            Err(PairPrepareRefused::Memory) => Err(TellRefused::Memory),
        }
    }

    // The heads of several branches are merged at once into the branch that a session sees.
    fn join(&mut self, out: &mut Vec<u8>, session: &Name, from: &[Name]) -> Result<(), TellRefused>
        requires working { self.old.core.failed ≡ false }
        requires some { 1 ≤ length from.now }
        requires few { length from.now ≤ 8 }
        ensures { Does D.may_leave D.moment D.left_since D.faults T.meaning A.address (λ fixed p.
            step_told T.forms fixed p (step.Join session.now from.now)) self.old self.new
            out.old.items
            out.new.items result }
    {
        let Some(seen) = self.sessions.get(session) else {
            return replied(put_unseen(out, session));
        };
        let branch = seen.branch();
        let group = match self.core.group(seen, from) {
            Ok(group) => group,
            Err(refused) => return replied(put_ungrouped(out, refused)),
        };
        match self.core.prepare_group(&group) {
            Ok(PairStep::Same) => replied(put_same(out)),
            Ok(PairStep::Land(prepared)) => {
                // The core lands in place where no group shares its nodes.
                drop(group);
                self.move_on(out, session, branch, false, prepared)
            }
            Err(PairPrepareRefused::ValueTooLarge { length }) => replied(put_too_large(
                out, length,
            )),
            Err(PairPrepareRefused::Memory) => Err(TellRefused::Memory),
        }
    }

    // The branch that a session sees is dropped, from the head that it sees. The session goes on seeing it.
    fn drop_seen(&mut self, out: &mut Vec<u8>, session: &Name) -> Result<(), TellRefused>
        requires { self.old.core.failed ≡ false }
        ensures { Does D.may_leave D.moment D.left_since D.faults T.meaning A.address (λ fixed p.
            step_told T.forms fixed p (step.Drop session.now)) self.old self.new out.old.items
            out.new.items
            result }
    {
        reads_what_stands::<T>();
        let _ = self.core.moves();
        let Some(seen) = self.sessions.get(session) else {
            return replied(put_unseen(out, session));
        };
        let name = name_at(&self.core, seen.branch());
        let answer = self.core.drop_branch(seen);
        let _ = self.core.moves();
        put_drop(out, &name, seen, answer)
    }

    // Lands what was prepared for a session on the branch of this number, and of an operation whether it takes an item out
    // of a sequence. The session then sees the new head.
    fn move_on(
        &mut self,
        out: &mut Vec<u8>,
        session: &Name,
        branch: u32,
        takes: bool,
        prepared: Prepared<T>,
    ) -> Result<(), TellRefused>
        requires working { self.old.core.failed ≡ false }
        requires history { IsPrefix prepared.seen.history self.old.core.history }
        requires terms { prepared.seen.terms ≡ self.old.core.terms }
        requires branch { prepared.seen.branch ≡ branch }
        requires within { branch
            < length (store_of self.old.core.terms.origin self.old.core.history).branches }
        ensures { Does D.may_leave D.moment D.left_since D.faults T.meaning A.address (λ fixed p.
            turn_told T.forms fixed takes p session.now branch
            (step_of prepared.seen prepared.work)) self.old
            self.new out.old.items out.new.items result }
    {
        reads_what_stands::<T>();
        let _ = self.core.moves();
        match self.core.land(prepared) {
            Ok(landed) => {
                let _ = self.core.moves();
                put_kind::<T>(out, takes, landed.kind)?;
                replied(self.sees_head(session, branch))
            }
            Err(LandRefused::Dropped { branch }) => replied(put_dropped(out, branch)),
            Err(LandRefused::Stale { newest }) => replied(self.stale(out, branch, newest)),
            Err(LandRefused::FullCommits { count }) => replied(put_full_commits(out, count)),
            Err(LandRefused::FullMoves { count }) => replied(put_full_moves(out, count)),
            Err(LandRefused::Collision { address, .. }) => replied(put_collision(out, &address)),
            Err(LandRefused::DiskFault) => Err(TellRefused::DiskFault),
            Err(LandRefused::Failed { .. }) => unreachable!(),
            Err(LandRefused::Memory) => Err(TellRefused::Memory),
        }
    }

    // What was prepared is stale: the branch's head is a newer one.
    fn stale(&self, out: &mut Vec<u8>, branch: u32, newest: u32) -> Result<(), Memory>
        requires within { branch
            < length (store_of self.now.core.terms.origin self.now.core.history).branches }
        ensures ok { OnOk result (out.new.items
            ≡ out.old.items ++ (refusal_text
            (name_of (store_of self.now.core.terms.origin self.now.core.history).branches branch)
            (Stale newest) ++ line_end)) }
        ensures err { OnErr result (AppendsPart out.old.items out.new.items
            (refusal_text
            (name_of (store_of self.now.core.terms.origin self.now.core.history).branches branch)
            (Stale newest) ++ line_end)) }
    {
        let (name, _) = self.core.branch(branch).unwrap();
        put_stale(out, &name, newest)
    }

    // Does a step, and writes its reply at the end.
    fn step(&mut self, out: &mut Vec<u8>, step: Step) -> Result<(), TellRefused>
        requires { self.old.core.failed ≡ false }
        ensures { Does D.may_leave D.moment D.left_since D.faults T.meaning A.address (λ fixed p.
            step_told T.forms fixed p step) self.old self.new out.old.items out.new.items result }
    {
        match step {
            Step::Look { session, branch } => self.look(out, &session, &branch),
            Step::Fork { new, from } => self.fork(out, &new, &from),
            Step::Merge { session, branch } => self.merge(out, &session, &branch),
            Step::Join { session, branches } => self.join(out, &session, branches.as_slice()),
            Step::Drop { session } => self.drop_seen(out, &session),
            Step::Do { session, op } => self.land(out, &session, &op),
            Step::Ask { branch, query } => self.ask(out, &branch, &query),
        }
    }

    // Does what a line says that says something, and writes its reply at the end.
    fn do_line(&mut self, out: &mut Vec<u8>, line: Line) -> Result<(), TellRefused>
        requires { self.old.core.failed ≡ false }
        ensures { Does D.may_leave D.moment D.left_since D.faults T.meaning A.address (λ fixed p.
            form_told T.forms fixed p line) self.old self.new out.old.items out.new.items result }
    {
        match line {
            Line::Step(step) => self.step(out, step),
            Line::AskAt { commit, query } => self.ask_at(out, commit, &query),
            Line::ForkAt { new, commit } => self.fork_at(out, &new, commit),
        }
    }

    /// Does what a line says, and writes its reply at the end of `out`. At every moment a crash leaves what reads as
    /// the history before the line, or as the one after it. After `Memory` the history is one of the two, each
    /// session sees what it saw, and a first part of the reply was written. `DiskFault` comes only in a line that
    /// moves a head; then nothing was written, and the store has failed.
    pub fn tell(&mut self, out: &mut Vec<u8>, line: &[u8]) -> Result<(), TellRefused>
        requires { self.old.core.failed ≡ false }
        ensures { Does D.may_leave D.moment D.left_since D.faults T.meaning A.address (λ fixed p.
            line_told T.forms fixed p line.now) self.old self.new out.old.items out.new.items
            result }
    {
        let refusal = match read_line(self.alloc, line) {
            Ok(None) => return Ok(()),
            Ok(Some(line)) => return self.do_line(out, line),
            Err(refusal) => refusal,
        };
        if let LineRefused::Memory = refusal {
            return Err(TellRefused::Memory);
        }
        replied(put_line_refusal(out, refusal))
    }

    /// The core to which the lines are told.
    pub fn core(&self) -> &Core<T, D, A>
        ensures { result.now ≡ self.now.core }
    {
        &self.core
    }

    /// Hands the disk back. It makes no device call, and takes no memory.
    pub fn close(self) -> D
        ensures { result ≡ self.core.disk }
    {
        self.core.close()
    }
}
