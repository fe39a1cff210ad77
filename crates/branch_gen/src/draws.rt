// Drawn numbers.
ghost use Rattle.std.specs.Prelude.{◌≡◌, ◌++◌, ◌<◌, decimal, IfOk};
ghost use Rattle.branch_gen.specs.Draws.{next, drawn, pick, key_at, word_at, amount_at};

use crate::pieces::{put_number, put_text};
use mrdt_model::{Bytes, Memory};
use std::alloc::Global;

/// Numbers drawn one after another, each determined by the state before it.
#[derive(Drop)]
pub struct Draws {
    pub state: u64,
}

impl Draws {
    // A number of 31 bits.
    #[tactic(auto, using(crate::proofs::Wraps::next_wraps), unfolding(crate::specs::Draws::drawn))]
    fn draw(&mut self) -> u64
        ensures drawn { result ≡ drawn self.old.state }
        ensures state { self.new.state ≡ next self.old.state }
    {
        self.state = self
            .state
            .wrapping_mul(6_364_136_223_846_793_005)
            .wrapping_add(1_442_695_040_888_963_407);
        self.state / (1 << 33)
    }

    /// One of the numbers below a bound.
    #[tactic(auto, unfolding(crate::specs::Draws::pick))]
    pub fn pick(&mut self, bound: u64) -> u64
        requires { 0 < bound }
        ensures picked { result ≡ pick bound self.old.state }
        ensures below { result < bound }
        ensures state { self.new.state ≡ next self.old.state }
    {
        self.draw() % bound
    }

    /// One of eight keys.
    pub fn key(&mut self, alloc: Global) -> Result<Bytes, Memory>
        ensures key { IfOk result (λ key. key ≡ key_at self.old.state) }
        ensures state { self.new.state ≡ next self.old.state }
    {
        let number = self.pick(8);
        numbered(alloc, b"k", number)
    }

    /// One of 32 words.
    pub fn word(&mut self, alloc: Global) -> Result<Bytes, Memory>
        ensures word { IfOk result (λ word. word ≡ word_at self.old.state) }
        ensures state { self.new.state ≡ next self.old.state }
    {
        let number = self.pick(32);
        numbered(alloc, b"w", number)
    }

    /// One of the amounts from -100 to 100.
    pub fn amount(&mut self) -> i64
        ensures amount { result ≡ amount_at self.old.state }
        ensures state { self.new.state ≡ next self.old.state }
    {
        self.pick(201) as i64 - 100
    }
}

/// A text with a number behind it.
pub fn numbered(alloc: Global, text: &[u8], number: u64) -> Result<Bytes, Memory>
    ensures { IfOk result (λ bytes. bytes ≡ text.now ++ decimal number) }
{
    let mut out = Vec::new(alloc);
    put_text(&mut out, text)?;
    put_number(&mut out, number)?;
    Ok(Bytes::from_vec(out))
}
