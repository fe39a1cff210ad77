// What a history sends of a commit to a store that has some of its commits.
ghost use Rattle.std.specs.Prelude.{◌≡◌, ℕ, ◌+◌, ◌<◌, ◌||◌, ◌&&◌, ◌==◌, ◌++◌, ◌∷◌, [], false, not, length, IfOk, OnOk};
ghost use Rattle.branch_graph.specs.Graph.{reaches, any_reaches};
ghost use Rattle.branch_history.specs.Commits.{graph_of};
ghost use Rattle.branch_history.specs.History.{store_of};
ghost use Rattle.branch_machine.specs.Fixed.{fix};
ghost use Rattle.branch_machine.specs.Objects.{pairs_of};
ghost use Rattle.branch_bundle_laws.specs.Bundles.{commits_here, item_at};
ghost use Rattle.branch_compact.specs.Marks.{is_marked};
ghost use Rattle.store_core.specs.Bundling.{IsBundleOf, with_number, is_here, items_below};

use branch_address::Address;
use branch_bundle::{Bundle, Item};
use branch_compact::{graph_of_moves, mark_reached};
use branch_graph::Graph;
use mrdt_model::{Bytes, Listing, Memory, Mrdt};
use recorded_history::Recorded;
use std::alloc::Global;

// No marks on the commits of a graph.
fn no_marks(alloc: Global, graph: &Graph) -> Result<Vec<bool>, Memory>
    ensures count { IfOk result (λ marks. length marks.items ≡ length graph.now.commits) }
    ensures marks { IfOk result (λ marks. (n : ℕ) → is_marked marks.items n ≡ false) }
{
    Ok(vec![in alloc; false; graph.count() as usize]?)
}

// Marks a commit too.
fn mark(marks: &mut Vec<bool>, number: u32)
    requires { number < length marks.old.items }
    ensures count { length marks.new.items ≡ length marks.old.items }
    ensures marked { (n : ℕ) → is_marked marks.new.items n
        ≡ (is_marked marks.old.items n || (number == n)) }
{
    marks[number as usize] = true;
}

// Takes the mark off commit 0.
fn unmark_first(marks: &mut Vec<bool>)
    requires { 0 < length marks.old.items }
    ensures count { length marks.new.items ≡ length marks.old.items }
    ensures marked { (n : ℕ) → is_marked marks.new.items n
        ≡ (is_marked marks.old.items n && not (n == 0)) }
{
    marks[0] = false;
}

// Marks on the commits that a commit reaches, but none on commit 0.
fn mark_tip(alloc: Global, graph: &Graph, tip: u32) -> Result<Vec<bool>, Memory>
    requires { tip < length graph.now.commits }
    ensures count { IfOk result (λ marks. length marks.items ≡ length graph.now.commits) }
    ensures marks { IfOk result (λ marks. (n : ℕ) → is_marked marks.items n
        ≡ (reaches graph.now.commits tip n && not (n == 0))) }
{
    let _count = graph.count();
    let mut marks = no_marks(alloc, graph)?;
    mark(&mut marks, tip);
    mark_reached(graph, &mut marks);
    unmark_first(&mut marks);
    Ok(marks)
}

// Marks the commits too whose objects have these addresses.
fn mark_addresses<T: Mrdt, A: Address>(
    recorded: &Recorded<T, A>,
    here: &[[u8; 32]],
    marks: &mut Vec<bool>,
)
    requires settled { recorded.now.pending ≡ [] }
    requires count { length marks.old.items
        ≡ length (store_of recorded.now.terms.origin recorded.now.written).commits }
    ensures count { length marks.new.items ≡ length marks.old.items }
    ensures marked { (n : ℕ) → is_marked marks.new.items n
        ≡ (is_marked marks.old.items n || is_here (fix T.meaning recorded.now.terms A.address)
        recorded.now.written here.now n) }
{
    for address in here {
        if let Some(number) = recorded.commit_at(address) {
            mark(marks, number);
        }
    }
}

// Marks on the commits that those reach whose objects have these addresses.
fn mark_here<T: Mrdt, A: Address>(
    recorded: &Recorded<T, A>,
    graph: &Graph,
    here: &[[u8; 32]],
) -> Result<Vec<bool>, Memory>
    requires settled { recorded.now.pending ≡ [] }
    requires graph { graph.now.commits
        ≡ graph_of (store_of recorded.now.terms.origin recorded.now.written).commits }
    ensures count { IfOk result (λ marks. length marks.items ≡ length graph.now.commits) }
    ensures marks { IfOk result (λ marks. (n : ℕ) → is_marked marks.items n
        ≡ any_reaches graph.now.commits (commits_here A.address
        (pairs_of (fix T.meaning recorded.now.terms A.address)
        (store_of recorded.now.terms.origin recorded.now.written).commits) here.now) n) }
{
    let _moves = recorded.moves();
    let _count = graph.count();
    let mut marks = no_marks(recorded.alloc(), graph)?;
    mark_addresses(recorded, here, &mut marks);
    mark_reached(graph, &mut marks);
    Ok(marks)
}

// Puts the objects of a commit behind other items.
fn push_item<T: Mrdt, A: Address>(
    recorded: &Recorded<T, A>,
    commit: u32,
    items: &mut Vec<Item>,
) -> Result<(), Memory>
    requires settled { recorded.now.pending ≡ [] }
    requires there { commit
        < length (store_of recorded.now.terms.origin recorded.now.written).commits }
    ensures { OnOk result (items.new.items ≡ items.old.items ++ with_number
        (item_at (pairs_of (fix T.meaning recorded.now.terms A.address)
        (store_of recorded.now.terms.origin recorded.now.written).commits) commit)
        (length items.old.items + 1) ∷ []) }
{
    let Some((value, own)) = recorded.item(commit) else {
        unreachable!()
    };
    let alloc = recorded.alloc();
    let item = Item {
        number: items.len() as u64 + 1,
        value: Bytes::from_slice(alloc, value)?,
        commit: Bytes::from_slice(alloc, own)?,
    };
    items.push(item)?;
    Ok(())
}

// Whether a commit has the first mark, and not the other.
fn is_alone(reached: &[bool], held: &[bool], number: u32) -> bool
    requires reached { number < length reached.now }
    requires held { length held.now ≡ length reached.now }
    ensures { result ≡ (is_marked reached.now number && not (is_marked held.now number)) }
{
    reached[number as usize] && !held[number as usize]
}

// Puts the item of the next commit behind the others, if it has the first mark, and not the other.
fn push_alone<T: Mrdt, A: Address>(
    recorded: &Recorded<T, A>,
    reached: &[bool],
    held: &[bool],
    number: u32,
    items: &mut Vec<Item>,
) -> Result<(), Memory>
    requires settled { recorded.now.pending ≡ [] }
    requires there { number
        < length (store_of recorded.now.terms.origin recorded.now.written).commits }
    requires reached { length reached.now
        ≡ length (store_of recorded.now.terms.origin recorded.now.written).commits }
    requires held { length held.now ≡ length reached.now }
    ensures { let pairs = pairs_of (fix T.meaning recorded.now.terms A.address)
        (store_of recorded.now.terms.origin recorded.now.written).commits in
        OnOk result (items.old.items ≡ items_below pairs reached.now held.now number
        → items.new.items ≡ items_below pairs reached.now held.now (number + 1)) }
{
    if is_alone(reached, held, number) {
        push_item(recorded, number, items)?;
    }
    Ok(())
}

// The items of the commits that have the first mark, and not the other, by rising number.
fn items_of<T: Mrdt, A: Address>(
    recorded: &Recorded<T, A>,
    reached: &[bool],
    held: &[bool],
) -> Result<Vec<Item>, Memory>
    requires settled { recorded.now.pending ≡ [] }
    requires reached { length reached.now
        ≡ length (store_of recorded.now.terms.origin recorded.now.written).commits }
    requires held { length held.now ≡ length reached.now }
    ensures { IfOk result (λ items. items.items
        ≡ items_below (pairs_of (fix T.meaning recorded.now.terms A.address)
        (store_of recorded.now.terms.origin recorded.now.written).commits) reached.now held.now
        (length reached.now)) }
{
    let mut items = Vec::new(recorded.alloc());
    for number in 0..recorded.commits() {
        push_alone(recorded, reached, held, number, &mut items)?;
    }
    Ok(items)
}

/// The bundle of a commit for a store that has the commits here with these addresses.
pub(crate) fn bundle_for<T: Mrdt, A: Address>(
    recorded: &Recorded<T, A>,
    tip: u32,
    here: &[[u8; 32]],
) -> Result<Bundle, Memory>
    requires settled { recorded.now.pending ≡ [] }
    requires there { tip
        < length (store_of recorded.now.terms.origin recorded.now.written).commits }
    ensures { IfOk result (IsBundleOf (fix T.meaning recorded.now.terms A.address)
        recorded.now.written tip here.now) }
{
    let _moves = recorded.moves();
    let alloc = recorded.alloc();
    let graph = graph_of_moves::<T>(alloc, recorded.terms(), recorded.history())?;
    let reached = mark_tip(alloc, &graph, tip)?;
    let held = mark_here(recorded, &graph, here)?;
    let Some(address) = recorded.address(tip) else {
        unreachable!()
    };
    let items = items_of(recorded, &reached, &held)?;
    Ok(Bundle {
        tip: address,
        items: Listing::from_vec(items),
    })
}
