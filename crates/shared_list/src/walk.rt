// Walks over lists.
ghost use Rattle.std.specs.Prelude.{◌≡◌, ◌<◌, ◌≤◌, ◌++◌, [], drop, length, slice_get};
ghost use Rattle.std.specs.Option.{option_copied};

use crate::list::SharedList;
use crate::tree::Entry;
use std::marker::Model;

/// A walk over a list. Contracts see the entries that are ahead.
#[derive(Drop)]
pub struct Walk<'a, T: Entry> {
    list: &'a SharedList<T>,
    // the entries that are ahead in a leaf
    leaf: &'a [T],
    // where the entries behind these begin
    place: u64,
}

impl<'a, T: Entry> Model for Walk<'a, T> {
    ghost use Rattle.std.specs.Prelude.{List, ◌++◌, drop};
    ghost use Rattle.shared_list.specs.Trees.{IsAhead};

    ghost Value = { List T };

    ghost view = { λ w. w.leaf.now ++ drop w.place w.list.now };

    ghost invariant = { λ w. IsAhead w.list.now w.leaf.now w.place };
}

impl<'a, T: Entry> Walk<'a, T> {
    /// The entries from a place on are ahead.
    pub fn new(list: &'a SharedList<T>, place: u64) -> Walk<'a, T>
        requires { place ≤ length list.now }
        ensures { result ≡ drop place list.now }
    {
        let count = list.len();
        if place == count {
            return Walk {
                list,
                leaf: &[],
                place,
            };
        }
        let leaf = list.items_from(place);
        Walk {
            list,
            leaf,
            place: place + leaf.len() as u64,
        }
    }

    /// The first entry ahead.
    pub fn first(&self) -> Option<&'a T>
        ensures { option_copied result ≡ slice_get self.now 0 }
    {
        self.leaf.first()
    }

    /// Goes on behind the first entry ahead.
    pub fn skip(&mut self)
        ensures { self.new ≡ drop 1 self.old }
    {
        if let Some((_, behind)) = self.leaf.split_first() {
            self.leaf = behind;
            if behind.is_empty() && self.place < self.list.len() {
                self.leaf = self.list.items_from(self.place);
                self.place += self.leaf.len() as u64;
            }
        }
    }

    /// Takes the entries that are ahead in a leaf: one or more, if any are ahead.
    pub fn take_run(&mut self) -> &'a [T]
        ensures taken { result.now ++ self.new ≡ self.old }
        ensures some { result.now ≡ [] → self.old ≡ [] }
    {
        let run = self.leaf;
        if self.place < self.list.len() {
            self.leaf = self.list.items_from(self.place);
            self.place += self.leaf.len() as u64;
        } else {
            self.leaf = &[];
        }
        run
    }
}
