// A tree of shared nodes.
ghost use Rattle.std.specs.Prelude.{◌≡◌, ℕ, ℤ, pos, ◌+ℤ◌, ◌<ℤ◌, ◌≤ℤ◌, ◌+◌, ◌^◌, ◌<◌, ◌≤◌, ◌++◌, List, length, take, get_or, Some, IfOk, OnOk, slice_get};
ghost use Rattle.mrdt_model.specs.Spelled.{capped};
ghost use Rattle.shared_list.specs.Trees.{weights, amounts, lists, AreAt, Puts, edited, IsRun, IsPassed, IsReached, IsLeafAt};

use mrdt_model::Memory;
use std::alloc::Global;
use std::marker::Model;
use std::sync::Arc;

// How many entries a full leaf has, and how many trees a full branch.
pub(crate) const LEAF: usize = 32;

const BRANCH: usize = 16;

/// What stands in a list.
pub trait Entry: Sized + Drop {
    // What it counts in the two sums of a list.
    ghost weight_of: { Self → ℕ };

    ghost amount_of: { Self → ℤ };

    /// An equal entry.
    fn copy(&self) -> Result<Self, Memory>
        ensures { IfOk result (λ entry. entry ≡ self.now) };

    /// What it counts in the sum of the weights.
    fn weight(&self) -> u64
        ensures { result ≡ weight_of self.now };

    /// What it counts in the sum of the amounts.
    fn amount(&self) -> i128
        ensures { result ≡ amount_of self.now };
}

// Some entries, in shared nodes whose leaves are all at one depth. Contracts see that depth, and the entries.
#[cycle(tree)]
#[derive(Drop)]
pub(crate) struct Tree<T: Entry> {
    height: u64,
    count: u64,
    weight: u64,
    amount: i128,
    node: Arc<Node<T>>,
}

#[cycle(tree)]
#[derive(Drop)]
pub(crate) enum Node<T: Entry> {
    Leaf(Vec<T>),
    Branch(Vec<Tree<T>>),
}

impl<T: Entry> Model for Tree<T> {
    ghost use Rattle.std.specs.Prelude.{◌≡◌, ℕ, List, length};
    ghost use Rattle.std.specs.Arc.{arc_value};

    ghost Value = { ℕ × List T };

    ghost use Rattle.shared_list.specs.Nodes.{entries, IsNode};

    ghost view = { λ t. (t.height, entries (arc_value t.node)) };

    ghost invariant = { λ t. IsNode T.weight_of T.amount_of t.height t.count t.weight t.amount
        (arc_value t.node) };

    ghost size = { λ d. d.0 };

    ghost use Rattle.shared_list.specs.Falls.{node_falls};

    ghost size_decreases = { λ t h. node_falls T.Entry t.height (arc_value t.node) h.at };
}

impl<T: Entry> Tree<T> {
    // The depth of the leaves.
    pub(crate) fn height(&self) -> u64
        ensures { result ≡ self.now.0 }
    {
        self.height
    }

    // How many entries there are.
    pub(crate) fn len(&self) -> u64
        ensures { result ≡ length self.now.1 }
    {
        self.count
    }

    // The sum of the weights.
    pub(crate) fn weight(&self) -> u64
        ensures { result ≡ capped (weights T.weight_of self.now.1) }
    {
        self.weight
    }

    // The sum of the amounts.
    pub(crate) fn amount(&self) -> i128
        ensures { result ≡ amounts T.amount_of self.now.1 }
    {
        self.amount
    }
}

impl<T: Entry> Tree<T> {
    // The same tree.
    pub(crate) fn copy(&self) -> Result<Tree<T>, Memory>
        ensures { IfOk result (λ tree. tree ≡ self.now) }
    {
        Ok(Tree {
            height: self.height,
            count: self.count,
            weight: self.weight,
            amount: self.amount,
            node: Arc::try_clone(&self.node)?,
        })
    }

    // A leaf of these entries.
    pub(crate) fn leaf(alloc: Global, items: Vec<T>) -> Result<Tree<T>, Memory>
        requires { 0 < length items.items }
        ensures { IfOk result (λ tree. tree ≡ (0, items.items)) }
    {
        Ok(Tree {
            height: 0,
            count: items.len() as u64,
            weight: weight_of_items(&items),
            amount: amount_of_items(&items)?,
            node: Arc::new(alloc, Node::Leaf(items))?,
        })
    }

    // A branch of trees of one height.
    pub(crate) fn branch(alloc: Global, below: u64, kids: Vec<Tree<T>>) -> Result<Tree<T>, Memory>
        requires one_height { AreAt below kids.items }
        requires some { 0 < length kids.items }
        ensures { IfOk result (λ tree. tree ≡ (below + 1, lists kids.items)) }
    {
        let height = match below.checked_add(1) {
            Some(height) => height,
            None => return Err(Memory),
        };
        Ok(Tree {
            height,
            count: count_of_trees(&kids)?,
            weight: weight_of_trees(&kids),
            amount: amount_of_trees(&kids)?,
            node: Arc::new(alloc, Node::Branch(kids))?,
        })
    }

    // Puts at the end of `out` trees of this height, which have the entries that stand here, with one or none in the
    // place of so many.
    pub(crate) fn edit(
        &self,
        alloc: Global,
        place: u64,
        cut: u64,
        item: Option<T>,
        out: &mut Vec<Tree<T>>,
    ) -> Result<(), Memory>
        requires one { cut ≤ 1 }
        requires within { place + cut ≤ length self.now.1 }
        ensures { OnOk result (Puts out.old.items out.new.items self.now.0
            (edited place cut item self.now.1)) }
    {
        match &*self.node {
            Node::Leaf(items) => {
                let made = edited_items(alloc, items, place, cut, item)?;
                pack_items(alloc, made, place == self.count, out)
            }
            Node::Branch(kids) => {
                let (index, rest) = kid_at(kids, place, cut);
                let mut made = Vec::with_capacity(alloc, kids.len().saturating_add(1))?;
                copy_trees(&kids[..index], &mut made)?;
                kids[index].edit(alloc, rest, cut, item, &mut made)?;
                copy_trees(&kids[index + 1..], &mut made)?;
                pack_trees(alloc, self.height - 1, made, place == self.count, out)
            }
        }
    }

    // The entries of a leaf from a place on.
    pub(crate) fn items_from(&self, place: u64) -> &[T]
        requires { place < length self.now.1 }
        ensures { IsRun self.now.1 place result.now }
    {
        match &*self.node {
            Node::Leaf(items) => &items[place as usize..],
            Node::Branch(kids) => {
                let (index, rest) = kid_at(kids, place, 1);
                kids[index].items_from(rest)
            }
        }
    }

    // The same leaf, if a place is its first.
    pub(crate) fn leaf_at(&self, place: u64) -> Result<Option<Tree<T>>, Memory>
        requires { place < length self.now.1 }
        ensures { IfOk result (IsLeafAt self.now.1 place) }
    {
        match &*self.node {
            Node::Leaf(_) => {
                if place == 0 {
                    let _count = self.len();
                    Ok(Some(self.copy()?))
                } else {
                    Ok(None)
                }
            }
            Node::Branch(kids) => {
                let (index, rest) = kid_at(kids, place, 1);
                kids[index].leaf_at(rest)
            }
        }
    }

    // The place of the entry at which the running sum passes a weight.
    #[tactic(auto, using(crate::proofs::Kids::lists_room, crate::proofs::Kids::weights_room))]
    pub(crate) fn find_weight(&self, weight: u64) -> u64
        requires fits { weights T.weight_of self.now.1 < 2 ^ 64 }
        requires within { weight < weights T.weight_of self.now.1 }
        ensures { IsPassed T.weight_of self.now.1 weight result }
    {
        let _count = self.len();
        match &*self.node {
            Node::Leaf(items) => find_in_items(items, weight),
            Node::Branch(kids) => {
                let (index, before, rest) = kid_of_weight(kids, weight);
                before + kids[index].find_weight(rest)
            }
        }
    }

    // The place of the entry at which the running sum passes an amount.
    #[tactic(auto, using(crate::proofs::Kids::lists_room))]
    pub(crate) fn find_amount(&self, amount: i128) -> u64
        requires rising { (x : T) → pos 0 ≤ℤ T.amount_of x }
        requires some { pos 0 ≤ℤ amount }
        requires within { amount <ℤ amounts T.amount_of self.now.1 }
        ensures { IsReached T.amount_of self.now.1 amount result }
    {
        let _count = self.len();
        match &*self.node {
            Node::Leaf(items) => find_amount_in_items(items, amount),
            Node::Branch(kids) => {
                let (index, before, rest) = kid_of_amount(kids, amount);
                before + kids[index].find_amount(rest)
            }
        }
    }

    // Puts at the end of `out` trees of this height, which have the entries that stand here and those of the other
    // tree.
    #[tactic(auto, using(crate::proofs::Kids::are_at_get))]
    pub(crate) fn append(
        &self,
        alloc: Global,
        tree: Tree<T>,
        out: &mut Vec<Tree<T>>,
    ) -> Result<(), Memory>
        requires { tree.0 ≤ self.now.0 }
        ensures { OnOk result (Puts out.old.items out.new.items self.now.0
            (self.now.1 ++ tree.1)) }
    {
        if tree.height == self.height {
            out.push(self.copy()?)?;
            out.push(tree)?;
            return Ok(());
        }
        match &*self.node {
            Node::Leaf(_) => unreachable!(),
            Node::Branch(kids) => {
                let last = kids.len() - 1;
                let mut made = Vec::with_capacity(alloc, kids.len().saturating_add(1))?;
                copy_trees(&kids[..last], &mut made)?;
                kids[last].append(alloc, tree, &mut made)?;
                pack_trees(alloc, self.height - 1, made, true, out)
            }
        }
    }

    // The entry at a place.
    pub(crate) fn get(&self, place: u64) -> &T
        requires { place < length self.now.1 }
        ensures { slice_get self.now.1 place ≡ Some result.now }
    {
        match &*self.node {
            Node::Leaf(items) => &items[place as usize],
            Node::Branch(kids) => {
                let (index, rest) = kid_at(kids, place, 1);
                kids[index].get(rest)
            }
        }
    }
}

// The tree that a place lies in, and the place in it. From there so many entries are to be cut.
fn kid_at<T: Entry>(kids: &[Tree<T>], place: u64, cut: u64) -> (usize, u64)
    requires one { cut ≤ 1 }
    requires some { 0 < length kids.now }
    requires within { place + cut ≤ length (lists kids.now) }
    ensures there { result.0 < length kids.now }
    ensures place { length (lists (take result.0 kids.now)) + result.1 ≡ place }
    ensures within { (d : ℕ × List T) → result.1 + cut ≤ length (get_or kids.now result.0 d).1 }
{
    let mut rest = place;
    for index in 0..kids.len() {
        let count = kids[index].len();
        if rest < count || rest == count && cut == 0 {
            return (index, rest);
        }
        rest -= count;
    }
    unreachable!()
}

// The sum of the weights of some entries.
fn weight_of_items<T: Entry>(items: &[T]) -> u64
    ensures { result ≡ capped (weights T.weight_of items.now) }
{
    let mut weight = 0u64;
    for item in items {
        weight = weight.saturating_add(item.weight());
    }
    weight
}

// How many entries some trees have.
fn count_of_trees<T: Entry>(kids: &[Tree<T>]) -> Result<u64, Memory>
    ensures { IfOk result (λ count. count ≡ length (lists kids.now)) }
{
    let mut count = 0u64;
    for kid in kids {
        count = match count.checked_add(kid.len()) {
            Some(count) => count,
            None => return Err(Memory),
        };
    }
    Ok(count)
}

// The sum of the weights of the entries of some trees.
fn weight_of_trees<T: Entry>(kids: &[Tree<T>]) -> u64
    ensures { result ≡ capped (weights T.weight_of (lists kids.now)) }
{
    let mut weight = 0u64;
    for kid in kids {
        weight = weight.saturating_add(kid.weight());
    }
    weight
}

// The sum of the amounts of some entries.
fn amount_of_items<T: Entry>(items: &[T]) -> Result<i128, Memory>
    ensures { IfOk result (λ amount. amount ≡ amounts T.amount_of items.now) }
{
    let mut amount = 0i128;
    for item in items {
        amount = match amount.checked_add(item.amount()) {
            Some(amount) => amount,
            None => return Err(Memory),
        };
    }
    Ok(amount)
}

// The sum of the amounts of the entries of some trees.
fn amount_of_trees<T: Entry>(kids: &[Tree<T>]) -> Result<i128, Memory>
    ensures { IfOk result (λ amount. amount ≡ amounts T.amount_of (lists kids.now)) }
{
    let mut amount = 0i128;
    for kid in kids {
        amount = match amount.checked_add(kid.amount()) {
            Some(amount) => amount,
            None => return Err(Memory),
        };
    }
    Ok(amount)
}

// Equal entries, with one or none in the place of so many.
fn edited_items<T: Entry>(
    alloc: Global,
    items: &[T],
    place: u64,
    cut: u64,
    item: Option<T>,
) -> Result<Vec<T>, Memory>
    requires one { cut ≤ 1 }
    requires within { place + cut ≤ length items.now }
    ensures { IfOk result (λ made. made.items ≡ edited place cut item items.now) }
{
    let mut made = Vec::with_capacity(alloc, items.len().saturating_add(1))?;
    copy_items(&items[..place as usize], &mut made)?;
    if let Some(item) = item {
        made.push(item)?;
    }
    copy_items(&items[(place + cut) as usize..], &mut made)?;
    Ok(made)
}

// Puts equal entries at the end.
fn copy_items<T: Entry>(items: &[T], out: &mut Vec<T>) -> Result<(), Memory>
    ensures { OnOk result (out.new.items ≡ out.old.items ++ items.now) }
{
    for item in items {
        out.push(item.copy()?)?;
    }
    Ok(())
}

// Puts the same trees at the end.
fn copy_trees<T: Entry>(trees: &[Tree<T>], out: &mut Vec<Tree<T>>) -> Result<(), Memory>
    ensures { OnOk result (out.new.items ≡ out.old.items ++ trees.now) }
{
    for tree in trees {
        out.push(tree.copy()?)?;
    }
    Ok(())
}

// Puts leaves of these entries at the end: one, two where they are too many, or none. The first one is full where
// the last entry is new, so that a list that grows at its end has full leaves.
fn pack_items<T: Entry>(
    alloc: Global,
    mut items: Vec<T>,
    at_end: bool,
    out: &mut Vec<Tree<T>>,
) -> Result<(), Memory>
    ensures { OnOk result (Puts out.old.items out.new.items 0 items.items) }
{
    let count = items.len();
    if count == 0 {
        return Ok(());
    }
    if count <= LEAF {
        out.push(Tree::leaf(alloc, items)?)?;
        return Ok(());
    }
    let behind = items.split_off(if at_end { LEAF } else { count / 2 })?;
    out.push(Tree::leaf(alloc, items)?)?;
    out.push(Tree::leaf(alloc, behind)?)?;
    Ok(())
}

// Puts branches of these trees at the end: one, two where they are too many, or none.
#[tactic(auto, using(crate::proofs::Kids::are_at_take, crate::proofs::Kids::are_at_drop, crate::proofs::Kids::lists_take_drop))]
fn pack_trees<T: Entry>(
    alloc: Global,
    below: u64,
    mut trees: Vec<Tree<T>>,
    at_end: bool,
    out: &mut Vec<Tree<T>>,
) -> Result<(), Memory>
    requires { AreAt below trees.items }
    ensures { OnOk result (Puts out.old.items out.new.items (below + 1) (lists trees.items)) }
{
    let count = trees.len();
    if count == 0 {
        return Ok(());
    }
    if count <= BRANCH {
        out.push(Tree::branch(alloc, below, trees)?)?;
        return Ok(());
    }
    let behind = trees.split_off(if at_end { BRANCH } else { count / 2 })?;
    out.push(Tree::branch(alloc, below, trees)?)?;
    out.push(Tree::branch(alloc, below, behind)?)?;
    Ok(())
}

// The place of the entry at which the running sum passes a weight.
fn find_in_items<T: Entry>(items: &[T], weight: u64) -> u64
    requires fits { length items.now < 2 ^ 64 }
    requires within { weight < weights T.weight_of items.now }
    ensures { IsPassed T.weight_of items.now weight result }
{
    let mut rest = weight;
    for index in 0..items.len() {
        let one = items[index].weight();
        if rest < one {
            return index as u64;
        }
        rest -= one;
    }
    unreachable!()
}

// The tree in which the running sum passes a weight, how many entries stand before it, and what is left of the
// weight there.
#[tactic(auto, using(crate::proofs::Kids::lists_room, crate::proofs::Kids::weights_room))]
fn kid_of_weight<T: Entry>(kids: &[Tree<T>], weight: u64) -> (usize, u64, u64)
    requires count { length (lists kids.now) < 2 ^ 64 }
    requires fits { weights T.weight_of (lists kids.now) < 2 ^ 64 }
    requires within { weight < weights T.weight_of (lists kids.now) }
    ensures there { result.0 < length kids.now }
    ensures before { result.1 ≡ length (lists (take result.0 kids.now)) }
    ensures rest { weights T.weight_of (lists (take result.0 kids.now)) + result.2 ≡ weight }
    ensures within { (d : ℕ × List T)
        → result.2 < weights T.weight_of (get_or kids.now result.0 d).1 }
    ensures kid_fits { (d : ℕ × List T)
        → weights T.weight_of (get_or kids.now result.0 d).1 < 2 ^ 64 }
{
    let mut before = 0u64;
    let mut rest = weight;
    for index in 0..kids.len() {
        let sum = kids[index].weight();
        if rest < sum {
            return (index, before, rest);
        }
        rest -= sum;
        before += kids[index].len();
    }
    unreachable!()
}

// The place of the entry at which the running sum passes an amount.
fn find_amount_in_items<T: Entry>(items: &[T], amount: i128) -> u64
    requires fits { length items.now < 2 ^ 64 }
    requires rising { (x : T) → pos 0 ≤ℤ T.amount_of x }
    requires some { pos 0 ≤ℤ amount }
    requires within { amount <ℤ amounts T.amount_of items.now }
    ensures { IsReached T.amount_of items.now amount result }
{
    let mut rest = amount;
    for index in 0..items.len() {
        let one = items[index].amount();
        if rest < one {
            return index as u64;
        }
        rest -= one;
    }
    unreachable!()
}

// The tree in which the running sum passes an amount, how many entries stand before it, and what is left of the
// amount there.
fn kid_of_amount<T: Entry>(kids: &[Tree<T>], amount: i128) -> (usize, u64, i128)
    requires count { length (lists kids.now) < 2 ^ 64 }
    requires rising { (x : T) → pos 0 ≤ℤ T.amount_of x }
    requires some { pos 0 ≤ℤ amount }
    requires within { amount <ℤ amounts T.amount_of (lists kids.now) }
    ensures there { result.0 < length kids.now }
    ensures before { result.1 ≡ length (lists (take result.0 kids.now)) }
    ensures rest { amounts T.amount_of (lists (take result.0 kids.now)) +ℤ result.2 ≡ amount }
    ensures some { pos 0 ≤ℤ result.2 }
    ensures within { (d : ℕ × List T)
        → result.2 <ℤ amounts T.amount_of (get_or kids.now result.0 d).1 }
{
    let mut before = 0u64;
    let mut rest = amount;
    for index in 0..kids.len() {
        let sum = kids[index].amount();
        if rest < sum {
            return (index, before, rest);
        }
        rest -= sum;
        before += kids[index].len();
    }
    unreachable!()
}
