// Lists whose versions share what they have in common.
ghost use Rattle.std.specs.Prelude.{◌≡◌, ℕ, pos, ◌<ℤ◌, ◌≤ℤ◌, Bool, true, false, ◌+◌, ◌^◌, ◌<◌, ◌≤◌, ◌++◌, ◌∷◌, [], length, take, drop, Some, None, IfOk, slice_get};
ghost use Rattle.mrdt_model.specs.Spelled.{capped};
ghost use Rattle.shared_list.specs.Trees.{weights, amounts, lists, AreAt, edited, root_entries, IsRun, IsPassed, IsReached, IsPartitioned, IsLeafAt};

use crate::tree::{Entry, Tree};
use mrdt_model::Memory;
use std::alloc::Global;
use std::marker::Model;

/// A list. A change makes a new version, which shares all but a few nodes with this one. Contracts see the list.
#[derive(Drop)]
pub struct SharedList<T: Entry> {
    alloc: Global,
    root: Option<Tree<T>>,
}

impl<T: Entry> Model for SharedList<T> {
    ghost use Rattle.std.specs.Prelude.{List};
    ghost use Rattle.shared_list.specs.Trees.{root_entries};

    ghost Value = { List T };

    ghost view = { λ l. root_entries l.root };
}

// The tree over trees of one height, if there are any.
fn rooted<T: Entry>(
    alloc: Global,
    height: u64,
    mut trees: Vec<Tree<T>>,
) -> Result<Option<Tree<T>>, Memory>
    requires { AreAt height trees.items }
    ensures { IfOk result (λ root. root_entries root ≡ lists trees.items) }
{
    if trees.len() > 1 {
        return Ok(Some(Tree::branch(alloc, height, trees)?));
    }
    Ok(trees.pop())
}

// A leaf of one entry, if there is one.
fn single<T: Entry>(alloc: Global, item: Option<T>) -> Result<Option<Tree<T>>, Memory>
    ensures { IfOk result (λ root. root_entries root ≡ edited 0 0 item []) }
{
    match item {
        Some(item) => {
            let mut items = Vec::new(alloc);
            items.push(item)?;
            Ok(Some(Tree::leaf(alloc, items)?))
        }
        None => Ok(None),
    }
}

impl<T: Entry> SharedList<T> {
    /// No entries. It takes no memory.
    pub fn new(alloc: Global) -> SharedList<T>
        ensures { result ≡ [] }
    {
        SharedList { alloc, root: None }
    }

    /// The same list, which shares all nodes. It takes no memory.
    pub fn copy(&self) -> Result<SharedList<T>, Memory>
        ensures { IfOk result (λ list. list ≡ self.now) }
    {
        let root = match &self.root {
            Some(root) => Some(root.copy()?),
            None => None,
        };
        Ok(SharedList {
            alloc: self.alloc,
            root,
        })
    }

    /// How many entries there are.
    pub fn len(&self) -> u64
        ensures { result ≡ length self.now }
    {
        match &self.root {
            Some(root) => root.len(),
            None => 0,
        }
    }

    /// The sum of the weights, or 2^64 - 1 where it is greater.
    pub fn weight(&self) -> u64
        ensures { result ≡ capped (weights T.weight_of self.now) }
    {
        match &self.root {
            Some(root) => root.weight(),
            None => 0,
        }
    }

    /// The sum of the amounts, with no wrapping.
    pub fn amount(&self) -> i128
        ensures { result ≡ amounts T.amount_of self.now }
    {
        match &self.root {
            Some(root) => root.amount(),
            None => 0,
        }
    }

    /// The entry at a place.
    pub fn get(&self, place: u64) -> &T
        requires { place < length self.now }
        ensures { slice_get self.now place ≡ Some result.now }
    {
        match &self.root {
            Some(root) => root.get(place),
            None => unreachable!(),
        }
    }

    // The version with one entry or none in the place of so many.
    fn edit(&self, place: u64, cut: u64, item: Option<T>) -> Result<SharedList<T>, Memory>
        requires one { cut ≤ 1 }
        requires within { place + cut ≤ length self.now }
        ensures { IfOk result (λ list. list ≡ edited place cut item self.now) }
    {
        let root = match &self.root {
            Some(root) => {
                let mut made = Vec::new(self.alloc);
                root.edit(self.alloc, place, cut, item, &mut made)?;
                rooted(self.alloc, root.height(), made)?
            }
            None => single(self.alloc, item)?,
        };
        Ok(SharedList {
            alloc: self.alloc,
            root,
        })
    }

    // The version with a leaf of these entries at the end.
    pub(crate) fn append_leaf(&self, items: Vec<T>) -> Result<SharedList<T>, Memory>
        ensures { IfOk result (λ list. list ≡ self.now ++ items.items) }
    {
        if items.is_empty() {
            return self.copy();
        }
        self.append_tree(Tree::leaf(self.alloc, items)?)
    }

    // The version with a leaf at the end.
    pub(crate) fn append_tree(&self, leaf: Tree<T>) -> Result<SharedList<T>, Memory>
        requires { leaf.0 ≡ 0 }
        ensures { IfOk result (λ list. list ≡ self.now ++ leaf.1) }
    {
        let root = match &self.root {
            Some(root) => {
                let mut made = Vec::new(self.alloc);
                root.append(self.alloc, leaf, &mut made)?;
                rooted(self.alloc, root.height(), made)?
            }
            None => Some(leaf),
        };
        Ok(SharedList {
            alloc: self.alloc,
            root,
        })
    }

    // The same leaf, if a place is its first.
    pub(crate) fn leaf_at(&self, place: u64) -> Result<Option<Tree<T>>, Memory>
        requires { place < length self.now }
        ensures { IfOk result (IsLeafAt self.now place) }
    {
        match &self.root {
            Some(root) => root.leaf_at(place),
            None => unreachable!(),
        }
    }

    /// The version with one more entry at the end.
    pub fn push(&self, item: T) -> Result<SharedList<T>, Memory>
        ensures { IfOk result (λ list. list ≡ self.now ++ item ∷ []) }
    {
        self.edit(self.len(), 0, Some(item))
    }

    /// The version with one more entry, at a place.
    pub fn insert(&self, place: u64, item: T) -> Result<SharedList<T>, Memory>
        requires { place ≤ length self.now }
        ensures { IfOk result (λ list. list
            ≡ take place self.now ++ item ∷ drop place self.now) }
    {
        self.edit(place, 0, Some(item))
    }

    /// The version with another entry at a place.
    pub fn replace(&self, place: u64, item: T) -> Result<SharedList<T>, Memory>
        requires { place < length self.now }
        ensures { IfOk result (λ list. list
            ≡ take place self.now ++ item ∷ drop (place + 1) self.now) }
    {
        self.edit(place, 1, Some(item))
    }

    /// The version without the entry at a place.
    pub fn remove(&self, place: u64) -> Result<SharedList<T>, Memory>
        requires { place < length self.now }
        ensures { IfOk result (λ list. list ≡ take place self.now ++ drop (place + 1) self.now) }
    {
        self.edit(place, 1, None)
    }

    /// Some entries from a place on, one or more: those that stand in one leaf.
    pub fn items_from(&self, place: u64) -> &[T]
        requires { place < length self.now }
        ensures { IsRun self.now place result.now }
    {
        match &self.root {
            Some(root) => root.items_from(place),
            None => unreachable!(),
        }
    }

    /// The place of the entry at which the running sum of the weights passes this one.
    pub fn find_by_weight(&self, weight: u64) -> u64
        requires fits { weights T.weight_of self.now < 2 ^ 64 }
        requires within { weight < weights T.weight_of self.now }
        ensures { IsPassed T.weight_of self.now weight result }
    {
        match &self.root {
            Some(root) => root.find_weight(weight),
            None => unreachable!(),
        }
    }

    /// The place of the entry at which the running sum of the amounts passes this one, where no amount is negative.
    pub fn find_by_amount(&self, amount: i128) -> u64
        requires rising { (x : T) → pos 0 ≤ℤ T.amount_of x }
        requires some { pos 0 ≤ℤ amount }
        requires within { amount <ℤ amounts T.amount_of self.now }
        ensures { IsReached T.amount_of self.now amount result }
    {
        match &self.root {
            Some(root) => root.find_amount(amount),
            None => unreachable!(),
        }
    }

    /// The place before which all entries come before what is sought, and behind which none does.
    pub fn partition_point<P: Probe<T>>(&self, probe: &P) -> u64
        requires { IsPartitioned (P.precedes probe.now) self.now }
        ensures within { result ≤ length self.now }
        ensures before { (k : ℕ) (x : T) → k < result → slice_get self.now k ≡ Some x
            → P.precedes probe.now x ≡ true }
        ensures behind { (k : ℕ) (x : T) → result ≤ k → slice_get self.now k ≡ Some x
            → P.precedes probe.now x ≡ false }
    {
        let mut low = 0;
        let mut high = self.len();
        while low < high {
            let middle = low + (high - low) / 2;
            if probe.precedes(self.get(middle)) {
                low = middle + 1;
            } else {
                high = middle;
            }
        }
        low
    }
}

/// What is sought in a list.
pub trait Probe<T> {
    ghost precedes: { Self → T → Bool };

    /// Whether an entry comes before what is sought.
    fn precedes(&self, entry: &T) -> bool
        ensures { result ≡ precedes self.now entry.now };
}
