// Bytes that are read from their front on, and are gone from memory once they are read.
ghost use Rattle.std.specs.Prelude.{◌≡◌, ◌≤◌, length, take, drop, IfOk, OnOk};

use mrdt_model::Memory;
use std::marker::Model;

// The bytes that were not read yet. They are held the other way round, since a `Vec` gives its memory back from its end.
#[derive(Drop)]
pub struct Ahead {
    turned: Vec<u8>,
}

impl Model for Ahead {
    ghost use Rattle.std.specs.Prelude.{ℕ, List, reverse};

    ghost Value = { List ℕ };

    ghost view = { λ a. reverse a.turned.items };
}

impl Ahead {
    // All of these bytes.
    pub fn new(bytes: Vec<u8>) -> Ahead
        ensures { result ≡ bytes.items }
    {
        let mut turned = bytes;
        turned.reverse();
        Ahead { turned }
    }

    // How many there are.
    pub fn len(&self) -> u64
        ensures { result ≡ length self.now }
    {
        self.turned.len() as u64
    }

    // Takes the first so many.
    pub fn take(&mut self, count: u64) -> Result<Vec<u8>, Memory>
        requires { count ≤ length self.old }
        ensures taken { IfOk result (λ bytes. bytes.items ≡ take count self.old) }
        ensures left { OnOk result (self.new ≡ drop count self.old) }
    {
        let mut bytes = self.turned.split_off(self.turned.len() - count as usize)?;
        self.turned.shrink_to_fit();
        bytes.reverse();
        Ok(bytes)
    }
}
