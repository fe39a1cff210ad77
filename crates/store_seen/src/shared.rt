// Nodes that pairs may share.
ghost use Rattle.std.specs.Prelude.{◌≡◌, ℕ, ◌-◌, ◌<◌, ◌≤◌, List, ◌∷◌, [], All, Some, length, slice_get, IfOk, OnOk, OnErr, IsErrOf, IsTrue, ◌↔◌};
ghost use Rattle.std.specs.Arc.{arc_value};
ghost use Rattle.std.specs.Str.{bytes_eq};
ghost use Rattle.indexmap.specs.IndexMap.{get};
ghost use Rattle.branch_graph.specs.Graph.{maximal_common};
ghost use Rattle.store_seen.specs.Nodes.{first_nodes, commit_at, AreFoldsOf, Notes};
ghost use Rattle.virtual_base.specs.Memos.{IsMemoOf};
ghost use Rattle.virtual_base.specs.Nodes.{IsFold, no_nodes, with_node, without_last};

use branch_graph::PushRefused;
use counted_steps::Steps;
use indexmap::IndexMap;
use mrdt_model::{Memory, Mrdt};
use std::alloc::Global;
use std::marker::{Brand, Model};
use std::sync::Arc;
use std::sync::ledger::{Blank, Ledger};
use virtual_base::laws::keeps_memos;
use virtual_base::{Memo, Nodes, base_kept, value_at_all_kept};

// The nodes of a history. Contracts see a `NodesView`. Behind the reference there may be more, which were taken off
// again while a pair shared them.
#[derive(Drop)]
pub(crate) struct SharedNodes<T: Mrdt> {
    nodes: Arc<Nodes<T>>,
    // how many of the first nodes are of these
    count: u32,
    // the folds that are kept of their lists, if any are to be kept
    folds: Option<Memo<T>>,
    // For each address of a commit's object the first commit that has it. Entries of commits that were taken off stay,
    // and are not believed.
    index: IndexMap<[u8; 32], u32>,
}

impl<T: Mrdt> Model for SharedNodes<T> {
    ghost use Rattle.std.specs.Prelude.{◌≤◌, length};
    ghost use Rattle.std.specs.Arc.{arc_value};
    ghost use Rattle.virtual_base.specs.Nodes.{NodesView};
    ghost use Rattle.std.specs.Str.{bytes_eq};
    ghost use Rattle.indexmap.specs.IndexMap.{get};
    ghost use Rattle.store_seen.specs.Nodes.{first_nodes, AreFoldsOf, FindsCommits};

    ghost Value = { NodesView T };

    ghost view = { λ s. first_nodes s.count (arc_value s.nodes) };

    ghost invariant = { λ s. (s.count ≤ length (arc_value s.nodes).graph.commits)
        × AreFoldsOf T.meaning (first_nodes s.count (arc_value s.nodes)) s.folds
        × FindsCommits (first_nodes s.count (arc_value s.nodes)).addresses (get bytes_eq s.index) };
}

impl<T: Mrdt> SharedNodes<T> {
    // No commits, and at most `limit` later.
    pub(crate) fn new(alloc: Global, limit: u32) -> Result<SharedNodes<T>, Memory>
        ensures { IfOk result (λ nodes. nodes ≡ no_nodes limit) }
    {
        Ok(SharedNodes {
            nodes: Arc::new(alloc, Nodes::new(alloc, limit))?,
            count: 0,
            folds: None,
            index: IndexMap::new(alloc),
        })
    }

    // How many commits there are. Each has a value and an address.
    pub(crate) fn count(&self) -> u32
        ensures count { result ≡ length self.now.graph.commits }
        ensures valued { length self.now.values ≡ length self.now.graph.commits }
        ensures addressed { length self.now.addresses ≡ length self.now.graph.commits }
    {
        let _count = self.nodes.count();
        self.count
    }

    // The value of a commit, shared.
    pub(crate) fn value(&self, number: u32) -> Result<Arc<T>, Memory>
        requires { number < length self.now.graph.commits }
        ensures { IfOk result (λ value. slice_get self.now.values number ≡ Some (arc_value value)) }
    {
        self.nodes.shared(number)
    }

    // The value of a commit, lent.
    pub(crate) fn lent(&self, number: u32) -> &T
        requires { number < length self.now.graph.commits }
        ensures { slice_get self.now.values number ≡ Some result.now }
    {
        self.nodes.value(number)
    }

    // The address of a commit's object.
    pub(crate) fn address(&self, number: u32) -> &[u8; 32]
        requires { number < length self.now.graph.commits }
        ensures { slice_get self.now.addresses number ≡ Some result.now }
    {
        self.nodes.address(number)
    }

    // The first commit whose object has an address; `None` exactly where none has it.
    pub(crate) fn commit_at(&self, address: &[u8; 32]) -> Option<u32>
        ensures { result ≡ commit_at self.now.addresses address.now }
    {
        let number = *self.index.get(address)?;
        if self.has_address(number, address) {
            Some(number)
        } else {
            None
        }
    }

    // Whether a commit is there, and its object has this address.
    fn has_address(&self, number: u32, address: &[u8; 32]) -> bool
        ensures { IsTrue result ↔ (slice_get self.now.addresses number ≡ Some address.now) }
    {
        number < self.count() && self.address(number) == address
    }

    // These nodes alone, shared where no others stand behind them.
    pub(crate) fn share(&self) -> Result<Arc<Nodes<T>>, Memory>
        ensures { IfOk result (λ nodes. arc_value nodes ≡ self.now) }
    {
        share_first(&self.nodes, self.count)
    }

    // Keeps at most so many folds from now on, where there are commits.
    pub(crate) fn keep_folds(&mut self, limit: u32) -> Result<(), Memory>
        requires { 0 < limit }
        ensures { self.new ≡ self.old }
    {
        if self.count > 0 {
            self.folds = Some(Memo::new(self.nodes.alloc(), limit)?);
        }
        Ok(())
    }

    // Keeps no folds any more.
    pub(crate) fn drop_folds(&mut self)
        ensures { self.new ≡ self.old }
    {
        let _dropped = self.folds.take();
    }

    // The base of two commits: the fold of their maximal common ancestors, by the folds that are kept.
    pub(crate) fn base(&mut self, left: u32, right: u32) -> Result<T, Memory>
        requires left { left < length self.old.graph.commits }
        requires right { right < length self.old.graph.commits }
        ensures folded { IfOk result
            (IsFold T.meaning self.old (maximal_common self.old.graph.commits (left ∷ [])
            (right ∷ []))) }
        ensures same { self.new ≡ self.old }
    {
        let nodes = self.share()?;
        base_by_folds(&nodes, left, right, &mut self.folds)
    }

    // The value of several commits together, by the folds that are kept.
    pub(crate) fn value_at_all(&mut self, commits: &[u32]) -> Result<T, Memory>
        requires { All (λ n. n < length self.old.graph.commits) commits.now }
        ensures folded { IfOk result (IsFold T.meaning self.old commits.now) }
        ensures same { self.new ≡ self.old }
    {
        let nodes = self.share()?;
        value_by_folds(&nodes, commits, &mut self.folds)
    }

    // Puts a commit behind the others, for which there is room. It is put in place where nobody shares the nodes.
    // Else longer nodes come in their place, and who shares them keeps the old ones.
    pub(crate) fn push(
        &mut self,
        value: T,
        parents: &[u32],
        address: [u8; 32],
    ) -> Result<u32, Memory>
        requires below { All (λ parent. parent < length self.old.graph.commits) parents.now }
        requires room { length self.old.graph.commits < self.old.graph.limit }
        ensures number { IfOk result (λ number. number ≡ length self.old.graph.commits) }
        ensures pushed { OnOk result (self.new ≡ with_node self.old parents.now value address) }
        ensures kept { OnErr result (self.new ≡ self.old) }
    {
        keeps_memos::<T>();
        let next = self.count();
        let earlier = self.commit_at(&address);
        note(&mut self.index, earlier, address, next)?;
        match push_behind(&mut self.nodes, self.count, value, parents, address) {
            Ok(number) => {
                self.count = self.nodes.count();
                Ok(number)
            }
            Err(PushRefused::Memory) => Err(Memory),
            Err(PushRefused::Full { .. }) => unreachable!(),
        }
    }

    // Takes the last commit off again, and no memory. A pair that shares the nodes keeps them. Folds may be of that
    // commit, so none are kept any more.
    pub(crate) fn pop(&mut self)
        requires { 0 < length self.old.graph.commits }
        ensures { self.new ≡ without_last self.old }
    {
        self.folds = None;
        self.count -= 1;
        cut_own(&mut self.nodes, self.count);
    }
}

// Notes the number that the next commit is to have for its address, unless an earlier one has that address.
fn note(
    index: &mut IndexMap<[u8; 32], u32>,
    earlier: Option<u32>,
    address: [u8; 32],
    next: u32,
) -> Result<(), Memory>
    ensures noted { OnOk result (Notes earlier address next (get bytes_eq index.old)
        (get bytes_eq index.new)) }
    ensures kept { OnErr result ((other : List ℕ)
        → get bytes_eq index.new other ≡ get bytes_eq index.old other) }
{
    if earlier.is_none() {
        let _ = index.insert(address, next)?;
    }
    Ok(())
}

// How many folds are kept where nobody says how many.
const FOLDS: u32 = 256;

// The folds that are kept, taken out; new ones where none are.
fn kept_folds<T: Mrdt>(nodes: &Nodes<T>, folds: &mut Option<Memo<T>>) -> Result<Memo<T>, Memory>
    requires { AreFoldsOf T.meaning nodes.now folds.old }
    ensures memo { IfOk result (IsMemoOf T.meaning nodes.now) }
    ensures folds { AreFoldsOf T.meaning nodes.now folds.new }
{
    match folds.take() {
        Some(memo) => Ok(memo),
        None => Memo::new(nodes.alloc(), FOLDS),
    }
}

// The base of two commits, by the folds that are kept. They are kept from now on.
fn base_by_folds<T: Mrdt>(
    nodes: &Nodes<T>,
    left: u32,
    right: u32,
    folds: &mut Option<Memo<T>>,
) -> Result<T, Memory>
    requires left { left < length nodes.now.graph.commits }
    requires right { right < length nodes.now.graph.commits }
    requires folds { AreFoldsOf T.meaning nodes.now folds.old }
    ensures folded { IfOk result
        (IsFold T.meaning nodes.now (maximal_common nodes.now.graph.commits (left ∷ [])
        (right ∷ []))) }
    ensures folds { AreFoldsOf T.meaning nodes.now folds.new }
{
    let mut memo = kept_folds(nodes, folds)?;
    let base = base_by::<T, Brand>(nodes, left, right, &mut memo, Blank::new(1));
    *folds = Some(memo);
    base
}

// The value of several commits together, by the folds that are kept. They are kept from now on.
fn value_by_folds<T: Mrdt>(
    nodes: &Nodes<T>,
    commits: &[u32],
    folds: &mut Option<Memo<T>>,
) -> Result<T, Memory>
    requires commits { All (λ n. n < length nodes.now.graph.commits) commits.now }
    requires folds { AreFoldsOf T.meaning nodes.now folds.old }
    ensures folded { IfOk result (IsFold T.meaning nodes.now commits.now) }
    ensures folds { AreFoldsOf T.meaning nodes.now folds.new }
{
    let mut memo = kept_folds(nodes, folds)?;
    let value = value_by::<T, Brand>(nodes, commits, &mut memo, Blank::new(1));
    if nodes.count() > 0 {
        *folds = Some(memo);
    }
    value
}

// The value of several commits together, with a memo, and with steps that nobody counts.
fn value_by<T: Mrdt, L: Ledger>(
    nodes: &Nodes<T>,
    commits: &[u32],
    memo: &mut Memo<T>,
    blank: Blank,
) -> Result<T, Memory>
    requires name { blank.name ≡ L.name }
    requires parts { blank.parts ≡ L.parts }
    requires some { 0 < blank.parts }
    requires commits { All (λ n. n < length nodes.now.graph.commits) commits.now }
    requires memo { IsMemoOf T.meaning nodes.now memo.old }
    ensures folded { IfOk result (IsFold T.meaning nodes.now commits.now) }
    ensures memo { IsMemoOf T.meaning nodes.now memo.new }
{
    value_at_all_kept(nodes, commits, memo, &mut Steps::<L>::none(blank))
}

// The base of two commits, with a memo, and with steps that nobody counts.
fn base_by<T: Mrdt, L: Ledger>(
    nodes: &Nodes<T>,
    left: u32,
    right: u32,
    memo: &mut Memo<T>,
    blank: Blank,
) -> Result<T, Memory>
    requires name { blank.name ≡ L.name }
    requires parts { blank.parts ≡ L.parts }
    requires some { 0 < blank.parts }
    requires left { left < length nodes.now.graph.commits }
    requires right { right < length nodes.now.graph.commits }
    requires memo { IsMemoOf T.meaning nodes.now memo.old }
    ensures folded { IfOk result
        (IsFold T.meaning nodes.now (maximal_common nodes.now.graph.commits (left ∷ [])
        (right ∷ []))) }
    ensures memo { IsMemoOf T.meaning nodes.now memo.new }
{
    base_kept(nodes, &[left], &[right], memo, &mut Steps::<L>::none(blank))
}

// So many of the first nodes, shared where they are all.
fn share_first<T: Mrdt>(nodes: &Arc<Nodes<T>>, count: u32) -> Result<Arc<Nodes<T>>, Memory>
    requires { count ≤ length (arc_value nodes.now).graph.commits }
    ensures { IfOk result (λ first. arc_value first ≡ first_nodes count (arc_value nodes.now)) }
{
    if nodes.count() == count {
        return Ok(Arc::try_clone(nodes)?);
    }
    let mut first = nodes.copy()?;
    cut(&mut first, count);
    Ok(Arc::new(nodes.alloc(), first)?)
}

// Takes all nodes off but so many of the first.
fn cut<T: Mrdt>(nodes: &mut Nodes<T>, count: u32)
    requires { count ≤ length nodes.old.graph.commits }
    ensures { nodes.new ≡ first_nodes count nodes.old }
{
    let more = nodes.count() - count;
    for _popped in 0..more {
        nodes.pop();
    }
}

// Takes all nodes off but so many of the first, where nobody shares them.
fn cut_own<T: Mrdt>(nodes: &mut Arc<Nodes<T>>, count: u32)
    requires { count ≤ length (arc_value nodes.old).graph.commits }
    ensures first { first_nodes count (arc_value nodes.new)
        ≡ first_nodes count (arc_value nodes.old) }
    ensures there { count ≤ length (arc_value nodes.new).graph.commits }
{
    if let Some(own) = Arc::get_mut(nodes) {
        cut(own, count);
    }
}

// Puts a commit behind so many of the first nodes, in the place of the others: in place where nobody shares them.
fn push_behind<T: Mrdt>(
    nodes: &mut Arc<Nodes<T>>,
    count: u32,
    value: T,
    parents: &[u32],
    address: [u8; 32],
) -> Result<u32, PushRefused>
    requires count { count ≤ length (arc_value nodes.old).graph.commits }
    requires below { All (λ parent. parent < count) parents.now }
    ensures number { IfOk result (λ number. number ≡ count) }
    ensures pushed { OnOk result (arc_value nodes.new
        ≡ with_node (first_nodes count (arc_value nodes.old)) parents.now value address) }
    ensures full { (held : ℕ) → IsErrOf result (PushRefused.Full held)
        → (arc_value nodes.old).graph.limit ≤ count }
    ensures kept { OnErr result (first_nodes count (arc_value nodes.new)
        ≡ first_nodes count (arc_value nodes.old)) }
    ensures there { OnErr result (count ≤ length (arc_value nodes.new).graph.commits) }
{
    match Arc::get_mut(nodes) {
        Some(own) => {
            cut(own, count);
            own.push(value, parents, address)
        }
        None => put_longer::<T, Brand>(nodes, count, value, parents, address, Blank::new(1)),
    }
}

// Puts the first nodes with one commit more in the place of nodes, with steps that nobody counts.
fn put_longer<T: Mrdt, L: Ledger>(
    nodes: &mut Arc<Nodes<T>>,
    count: u32,
    value: T,
    parents: &[u32],
    address: [u8; 32],
    blank: Blank,
) -> Result<u32, PushRefused>
    requires name { blank.name ≡ L.name }
    requires parts { blank.parts ≡ L.parts }
    requires some { 0 < blank.parts }
    requires count { count ≤ length (arc_value nodes.old).graph.commits }
    requires below { All (λ parent. parent < count) parents.now }
    ensures number { IfOk result (λ number. number ≡ count) }
    ensures pushed { OnOk result (arc_value nodes.new
        ≡ with_node (first_nodes count (arc_value nodes.old)) parents.now value address) }
    ensures full { (held : ℕ) → IsErrOf result (PushRefused.Full held)
        → (arc_value nodes.old).graph.limit ≤ count }
    ensures kept { OnErr result (arc_value nodes.new ≡ arc_value nodes.old) }
{
    let first = share_first(nodes, count)?;
    let longer = first.with(value, parents, address, &mut Steps::<L>::none(blank))?;
    match Arc::new(first.alloc(), longer) {
        Ok(longer) => {
            *nodes = longer;
            Ok(count)
        }
        Err(_) => Err(PushRefused::Memory),
    }
}
