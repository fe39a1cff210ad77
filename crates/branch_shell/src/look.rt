// What is read of a store, and written as a text.
ghost use Rattle.std.specs.Prelude.{◌≡◌, ◌<◌, ◌++◌, ℕ, [], length, slice_get, Some, None, IfOk, IfSome, OnOk};
ghost use Rattle.std.specs.Option.{option_map_or};
ghost use Rattle.branch_disk.specs.Disk.{Files, LeavesOnly};
ghost use Rattle.branch_command.specs.declared.look.At.{At as Place};
ghost use Rattle.mrdt_model.specs.Laws.{Lawful};
ghost use Rattle.branch_history.specs.Commits.{visible};
ghost use Rattle.branch_history.specs.History.{store_of};
ghost use Rattle.branch_log.specs.Graphs.{graph_text, branches_text, branch_node};
ghost use Rattle.branch_shell.specs.Counts.{HasReason, SaysReason};
ghost use Rattle.branch_shell.specs.Once.{Answers};
ghost use Rattle.branch_shell.specs.Stores.{Stored, ReadsAsStore};
ghost use Rattle.branch_shell.specs.Values.{value_type};
ghost use Rattle.branch_shell.specs.Bundling.{address_said, bundle_said};
ghost use Rattle.branch_shell.specs.Looks.{answers_at, IsAt, IsNowhere, IsLog, nowhere_text, place_of, IsPlaced, IsLookText, shown_text, TellsLook, TellsNowhere, SaysLook, SaysNoLook};

use crate::answer::{put_report, refuse, say};
use crate::head::head_named;
use crate::kinded::Kinded;
use crate::status::Status;
use crate::unopened::open_store;
use branch_address::Address;
use branch_bundle::put_bundle;
use branch_command::{At, Look};
use branch_disk::Disk;
use branch_doc::{Forms, PlainAnswer, PlainQuery};
use branch_files::laws::reads_what_stands;
use branch_history::laws::sees_closed_parts;
use branch_io::Sink;
use branch_log::{put_branch, put_commits, put_log};
use branch_print::pieces::{put_count, put_text};
use branch_print::sent::{put_address, put_refused_unknown};
use branch_progress::Listener;
use branch_show::{Asked, put_document, put_json};
use mrdt_model::{Memory, Mrdt};
use std::alloc::Global;
use store_core::Core;

// The document of a commit of a store: its value stands for what is visible there.
#[derive(Drop)]
struct Document<'a, T: Kinded, D: Disk + Drop, A: Address> {
    core: &'a Core<T, D, A>,
    value: &'a T,
    commit: u32,
    ghost stands: { ∥ T.meaning.stands value.now
        (visible (store_of core.now.terms.origin core.now.history).commits commit) ∥₁ },
    ghost lawful: { ∥ Lawful T.meaning
        (visible (store_of core.now.terms.origin core.now.history).commits commit) ∥₁ },
}

impl<'a, T: Kinded, D: Disk + Drop, A: Address> Asked for Document<'a, T, D, A> {
    ghost use Rattle.branch_shell.specs.Values.{value_type};
    ghost use Rattle.branch_shell.specs.Looks.{answers_at};

    ghost answers = { λ d. answers_at (value_type T.meaning T.forms T.KIND)
        (record { terms = d.core.now.terms; history = d.core.now.history }) d.commit };

    fn ask(&self, query: &PlainQuery) -> Result<Option<PlainAnswer>, Memory> {
        let query = T::query(query)?;
        let Some(query) = query else {
            return Ok(None);
        };
        let answer = self.value.answer(&query)?;
        Ok(Some(<T as Forms>::answer(answer)))
    }
}

// The commit that a place is; `None` exactly where the store has no such place.
fn commit_at<T: Mrdt, D: Disk + Drop, A: Address>(
    core: &Core<T, D, A>,
    at: &At,
) -> Result<Option<u32>, Memory>
    ensures found { IfOk result (λ found. IfSome found
        (IsAt (record { terms = core.now.terms; history = core.now.history }) at.now)) }
    ensures there { IfOk result (λ found. IfSome found (λ commit.
        commit < length (store_of core.now.terms.origin core.now.history).commits)) }
    ensures none { IfOk result (λ found. found ≡ None
        → IsNowhere (record { terms = core.now.terms; history = core.now.history }) at.now) }
{
    match at {
        At::Branch(name) => match head_named(core, name) {
            Ok(Some(at)) => Ok(Some(at.1)),
            Ok(None) => Ok(None),
            Err(error) => Err(error),
        },
        At::Commit(number) => {
            if *number < core.commits() {
                Ok(Some(*number))
            } else {
                Ok(None)
            }
        }
    }
}

// The place that a look is at; `None` where it is one at the whole store.
fn place_of(look: &Look) -> Option<At>
    ensures { result ≡ place_of look.now }
{
    match look {
        Look::Report | Look::Graph => None,
        Look::Address(named) => Some(At::Branch(named.name)),
        Look::Bundle(sending) => Some(At::Branch(sending.branch)),
        Look::Log { at, .. } | Look::Document { at, .. } => Some(*at),
    }
}

// Writes the node of a branch: none where it was dropped.
fn put_branch_node<T: Mrdt, D: Disk + Drop, A: Address>(
    out: &mut Vec<u8>,
    core: &Core<T, D, A>,
    number: u32,
) -> Result<(), Memory>
    requires { number < length (store_of core.now.terms.origin core.now.history).branches }
    ensures { OnOk result (out.new.items ≡ out.old.items ++ option_map_or (branch_node number)
        (slice_get (store_of core.now.terms.origin core.now.history).branches number) []) }
{
    if core.is_dropped(number) {
        return Ok(());
    }
    let (name, head) = core.branch(number).unwrap();
    put_branch(out, number, &name, head)
}

// Writes the nodes of the branches by number.
fn put_branches<T: Mrdt, D: Disk + Drop, A: Address>(
    out: &mut Vec<u8>,
    core: &Core<T, D, A>,
) -> Result<(), Memory>
    ensures { OnOk result (out.new.items ≡ out.old.items
        ++ branches_text (store_of core.now.terms.origin core.now.history).branches) }
{
    for number in 0..core.branches() {
        put_branch_node(out, core, number)?;
    }
    Ok(())
}

// Writes the history as a graph.
fn put_graph<T: Mrdt, D: Disk + Drop, A: Address>(
    alloc: Global,
    out: &mut Vec<u8>,
    core: &Core<T, D, A>,
) -> Result<(), Memory>
    ensures { OnOk result (out.new.items ≡ out.old.items
        ++ graph_text (store_of core.now.terms.origin core.now.history)) }
{
    let _ = core.moves();
    put_text(out, b"digraph history {\n")?;
    put_commits::<T>(alloc, out, core.terms(), core.history())?;
    put_branches(out, core)?;
    put_text(out, b"}\n")
}

// Writes the address of a commit.
fn put_address_of<T: Mrdt, D: Disk + Drop, A: Address>(
    out: &mut Vec<u8>,
    core: &Core<T, D, A>,
    commit: u32,
) -> Result<(), Memory>
    requires there { commit < length (store_of core.now.terms.origin core.now.history).commits }
    ensures { OnOk result (out.new.items ≡ out.old.items ++ address_said T.meaning A.address
        (record { terms = core.now.terms; history = core.now.history }) commit) }
{
    let Some(address) = core.address(commit) else {
        unreachable!()
    };
    put_address(out, &address)
}

// Writes the bundle of a commit, for a store that has the commits with these addresses.
fn put_bundle_of<T: Mrdt, D: Disk + Drop, A: Address>(
    out: &mut Vec<u8>,
    core: &Core<T, D, A>,
    commit: u32,
    here: &[[u8; 32]],
) -> Result<(), Memory>
    requires there { commit < length (store_of core.now.terms.origin core.now.history).commits }
    ensures { OnOk result (out.new.items ≡ out.old.items ++ bundle_said T.meaning A.address
        here.now (record { terms = core.now.terms; history = core.now.history }) commit) }
{
    let Ok(bundle) = core.bundle(commit, here) else {
        return Err(Memory);
    };
    put_bundle(&bundle, core.terms().layout, out)
}

// Writes what the commits did that one reaches.
fn put_log_of<T: Kinded, D: Disk + Drop, A: Address>(
    alloc: Global,
    out: &mut Vec<u8>,
    core: &Core<T, D, A>,
    commit: u32,
    count: Option<u64>,
) -> Result<(), Memory>
    requires empty { out.old.items ≡ [] }
    requires there { commit < length (store_of core.now.terms.origin core.now.history).commits }
    ensures { OnOk result (IsLog (value_type T.meaning T.forms T.KIND)
        (record { terms = core.now.terms; history = core.now.history }) commit count
        out.new.items) }
{
    let _ = core.moves();
    put_log::<T>(alloc, out, core.terms(), core.history(), commit, count)
}

// Writes the document of a commit.
fn put_document_of<T: Kinded, D: Disk + Drop, A: Address>(
    alloc: Global,
    out: &mut Vec<u8>,
    core: &Core<T, D, A>,
    commit: u32,
    is_json: bool,
) -> Result<(), Memory>
    requires there { commit < length (store_of core.now.terms.origin core.now.history).commits }
    ensures { OnOk result (out.new.items ≡ out.old.items ++ shown_text is_json
        (answers_at (value_type T.meaning T.forms T.KIND)
        (record { terms = core.now.terms; history = core.now.history }) commit)) }
{
    sees_closed_parts::<T>();
    let _ = core.moves();
    let value = core.value_at(commit);
    let document = Document {
        core,
        value,
        commit,
    };
    if is_json {
        put_json(alloc, out, &document)
    } else {
        put_document(alloc, out, &document)
    }
}

// Writes the text of a look at a commit, or at the whole store, behind no bytes.
fn put_look<T: Kinded, D: Disk + Drop, A: Address>(
    alloc: Global,
    out: &mut Vec<u8>,
    core: &Core<T, D, A>,
    look: &Look,
    commit: u32,
) -> Result<(), Memory>
    requires empty { out.old.items ≡ [] }
    requires there { (at : Place) → place_of look.now ≡ Some at
        → commit < length (store_of core.now.terms.origin core.now.history).commits }
    ensures { OnOk result (IsLookText (value_type T.meaning T.forms T.KIND) A.address
        (record { terms = core.now.terms; history = core.now.history }) look.now commit
        out.new.items) }
{
    match look {
        Look::Report => put_report(out, core),
        Look::Address(_) => put_address_of(out, core, commit),
        Look::Bundle(sending) => put_bundle_of(out, core, commit, sending.here.as_slice()),
        Look::Log { count, .. } => put_log_of(alloc, out, core, commit, *count),
        Look::Document { is_json, .. } => put_document_of(alloc, out, core, commit, *is_json),
        Look::Graph => put_graph(alloc, out, core),
    }
}

// Says the text of a look at a commit, or at the whole store.
fn say_look<T: Kinded, K: Sink, D: Disk + Drop, A: Address>(
    alloc: Global,
    sink: &mut K,
    core: &Core<T, D, A>,
    look: &Look,
    commit: u32,
) -> Status
    requires there { (at : Place) → place_of look.now ≡ Some at
        → commit < length (store_of core.now.terms.origin core.now.history).commits }
    ensures wrote { Answers (IsLookText (value_type T.meaning T.forms T.KIND) A.address
        (record { terms = core.now.terms; history = core.now.history }) look.now commit) (λ whole. ⊥)
        result (K.given sink.old) (K.given sink.new) }
    ensures other { result ≡ Status.DiskFault → ⊥ }
    ensures reason { SaysReason (K.faults sink.old) (K.faults sink.new) result }
{
    let mut text = Vec::new(alloc);
    match put_look(alloc, &mut text, core, look, commit) {
        Ok(()) => say(sink, &text, Status::Done),
        Err(_) => Status::Memory,
    }
}

// Writes that the store has no such place.
fn put_nowhere(out: &mut Vec<u8>, at: &At) -> Result<(), Memory>
    ensures { OnOk result (out.new.items ≡ out.old.items ++ nowhere_text at.now) }
{
    match at {
        At::Branch(name) => put_refused_unknown(out, name),
        At::Commit(number) => put_count(out, b"refused unknown #", u64::from(*number)),
    }
}

// Says that the store has no such place.
fn say_nowhere<K: Sink>(alloc: Global, sink: &mut K, at: &At) -> Status
    ensures wrote { Answers (λ whole. ⊥) (λ whole. whole ≡ nowhere_text at.now) result
        (K.given sink.old) (K.given sink.new) }
    ensures other { result ≡ Status.DiskFault → ⊥ }
    ensures reason { SaysReason (K.faults sink.old) (K.faults sink.new) result }
{
    let mut text = Vec::new(alloc);
    match put_nowhere(&mut text, at) {
        Ok(()) => say(sink, &text, Status::StoreRefused),
        Err(_) => Status::Memory,
    }
}

// Tells what is looked at, or that the store has no such place.
fn tell_look<T: Kinded, K: Sink, D: Disk + Drop, A: Address>(
    alloc: Global,
    look: &Look,
    sink: &mut K,
    core: &Core<T, D, A>,
) -> Status
    ensures wrote { Answers (TellsLook (value_type T.meaning T.forms T.KIND) A.address look.now
        (record { terms = core.now.terms; history = core.now.history }))
        (TellsNowhere look.now (record { terms = core.now.terms; history = core.now.history }))
        result (K.given sink.old) (K.given sink.new) }
    ensures other { result ≡ Status.DiskFault → ⊥ }
    ensures reason { SaysReason (K.faults sink.old) (K.faults sink.new) result }
{
    let Some(at) = place_of(look) else {
        return say_look(alloc, sink, core, look, 0);
    };
    match commit_at(core, &at) {
        Ok(Some(commit)) => say_look(alloc, sink, core, look, commit),
        Ok(None) => say_nowhere(alloc, sink, &at),
        Err(_) => Status::Memory,
    }
}

/// Opens the store that the disk holds and tells what is looked at. It writes nothing to the disk. The listener hears of
/// the opening.
pub(crate) fn run_look<T: Kinded, U: Mrdt, K: Sink, D: Disk + Drop, A: Address, L: Listener>(
    alloc: Global,
    look: &Look,
    sink: &mut K,
    disk: D,
    listener: &mut L,
) -> (Status, D)
    ensures wrote { Answers
        (SaysLook (value_type T.meaning T.forms T.KIND) A.address (D.contents disk) look.now)
        (SaysNoLook (value_type T.meaning T.forms T.KIND) U.meaning A.address (D.contents disk)
        look.now) result.0 (K.given sink.old) (K.given sink.new) }
    // A crash leaves only what it might have left at the start.
    ensures any_moment { LeavesOnly D.moment D.left_since disk result.1 (D.may_leave disk) }
    ensures keeps { result.0 ≡ Status.Done → (f : Files) (store : Stored T.Op T.Reply)
        → D.contents disk ≡ Some f → ReadsAsStore T.meaning A.address store f → (c : Files)
        → D.may_leave result.1 c → ReadsAsStore T.meaning A.address store c }
    ensures reason { (n : ℕ) → HasReason
        (record { source = n; sink = K.faults sink.old; disk = D.faults disk })
        (record { source = n; sink = K.faults sink.new; disk = D.faults result.1 }) result.0 }
    // Where the sink failed, the disk did not.
    ensures no_fault { result.0 ≡ Status.WriteFault → D.faults result.1 ≡ D.faults disk }
{
    reads_what_stands::<T>();
    match open_store::<T, U, D, A, L>(alloc, disk, listener) {
        Ok(core) => (tell_look(alloc, look, sink, &core), core.close()),
        Err((why, disk)) => (refuse(alloc, sink, why), disk),
    }
}
