// Items that are received from the first on, and are gone from memory once they are received.
ghost use Rattle.std.specs.Prelude.{◌≡◌, ◌≤◌, length, take, drop, IfOk, OnOk, OnErr};

use branch_bundle::Item;
use mrdt_model::Memory;
use std::marker::Model;

// The items that were not received yet. They are held the other way round, since a `Vec` gives its memory back from its
// end.
#[derive(Drop)]
pub struct Left {
    turned: Vec<Item>,
}

impl Model for Left {
    ghost use Rattle.std.specs.Prelude.{List, reverse};
    ghost use Rattle.branch_bundle.specs.declared.bundle.Item.{Item};

    ghost Value = { List Item };

    ghost view = { λ l. reverse l.turned.items };
}

impl Left {
    // All of these items.
    pub fn new(items: Vec<Item>) -> Left
        ensures { result ≡ items.items }
    {
        let mut turned = items;
        turned.reverse();
        Left { turned }
    }

    // How many there are.
    pub fn len(&self) -> usize
        ensures { result ≡ length self.now }
    {
        self.turned.len()
    }

    // Takes the first so many. Where memory is short nothing changes.
    pub fn take(&mut self, count: usize) -> Result<Vec<Item>, Memory>
        requires { count ≤ length self.old }
        ensures taken { IfOk result (λ items. items.items ≡ take count self.old) }
        ensures left { OnOk result (self.new ≡ drop count self.old) }
        ensures refused { OnErr result (self.new ≡ self.old) }
    {
        let mut items = self.turned.split_off(self.turned.len() - count)?;
        self.turned.shrink_to_fit();
        items.reverse();
        Ok(items)
    }
}
