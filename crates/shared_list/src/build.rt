// Lists that are built at their end.
ghost use Rattle.std.specs.Prelude.{◌≡◌, ◌<◌, ◌++◌, ◌∷◌, [], length, take, IfOk};
ghost use Rattle.shared_list.specs.Trees.{TakesOver};

use crate::list::SharedList;
use crate::tree::{Entry, LEAF, Tree};
use mrdt_model::Memory;
use std::alloc::Global;
use std::marker::Model;

/// A list that is being built, with full leaves. Contracts see the list.
#[derive(Drop)]
pub struct Builder<T: Entry> {
    alloc: Global,
    list: SharedList<T>,
    tail: Vec<T>,
}

impl<T: Entry> Model for Builder<T> {
    ghost use Rattle.std.specs.Prelude.{List, ◌++◌};

    ghost Value = { List T };

    ghost view = { λ b. b.list ++ b.tail.items };
}

impl<T: Entry> Builder<T> {
    /// No entries. It takes no memory.
    pub fn new(alloc: Global) -> Builder<T>
        ensures { result ≡ [] }
    {
        Builder {
            alloc,
            list: SharedList::new(alloc),
            tail: Vec::new(alloc),
        }
    }

    /// With one more entry at the end.
    pub fn push(self, item: T) -> Result<Builder<T>, Memory>
        ensures { IfOk result (λ builder. builder ≡ self ++ item ∷ []) }
    {
        let Builder {
            alloc,
            list,
            mut tail,
        } = self;
        tail.push(item)?;
        if tail.len() < LEAF {
            return Ok(Builder { alloc, list, tail });
        }
        Ok(Builder {
            alloc,
            list: list.append_leaf(tail)?,
            tail: Vec::new(alloc),
        })
    }

    // With equal entries at the end.
    fn push_copies(self, items: &[T]) -> Result<Builder<T>, Memory>
        ensures { IfOk result (λ builder. builder ≡ self ++ items.now) }
    {
        let mut builder = self;
        for item in items {
            builder = builder.push(item.copy()?)?;
        }
        Ok(builder)
    }

    // With a leaf at the end.
    fn push_leaf(self, leaf: Tree<T>) -> Result<Builder<T>, Memory>
        requires { leaf.0 ≡ 0 }
        ensures { IfOk result (λ builder. builder ≡ self ++ leaf.1) }
    {
        let Builder { alloc, list, tail } = self;
        Ok(Builder {
            alloc,
            list: list.append_leaf(tail)?.append_tree(leaf)?,
            tail: Vec::new(alloc),
        })
    }

    /// With the entries of another list from a place to where its leaf ends, and the place behind these. The leaf is
    /// shared where the place is its first.
    #[tactic(auto, using(crate::proofs::Kids::takes_run))]
    pub fn take_over(self, list: &SharedList<T>, place: u64) -> Result<(Builder<T>, u64), Memory>
        requires { place < length list.now }
        ensures { IfOk result (λ made. TakesOver self list.now place made.0 made.1) }
    {
        let _count = list.len();
        match list.leaf_at(place)? {
            Some(leaf) => {
                let next = place + leaf.len();
                Ok((self.push_leaf(leaf)?, next))
            }
            None => {
                let items = list.items_from(place);
                let next = place + items.len() as u64;
                Ok((self.push_copies(items)?, next))
            }
        }
    }

    /// The list.
    pub fn finish(self) -> Result<SharedList<T>, Memory>
        ensures { IfOk result (λ list. list ≡ self) }
    {
        let Builder { list, tail, .. } = self;
        list.append_leaf(tail)
    }
}

/// The list of a `Vec`.
pub fn from_vec<T: Entry>(alloc: Global, items: Vec<T>) -> Result<SharedList<T>, Memory>
    ensures { IfOk result (λ list. list ≡ items.items) }
{
    let mut builder = Builder::new(alloc);
    for item in items {
        builder = builder.push(item)?;
    }
    builder.finish()
}
