// The commits that wait in a walk from greater numbers to smaller ones, each with its paint.
ghost use Rattle.std.specs.Prelude.{◌≡◌, ℕ, ◌+◌, ◌<◌, true, false, ◌||◌, ◌&&◌, ◌==◌, not, nat_lt, [], All, OnOk, OnSome, IfSome, IfNone, IsTrue};
ghost use Rattle.std.specs.Option.{option_map, option_map_or, unwrap_or};
ghost use Rattle.branch_graph.specs.Paints.{Colour, has, for_parents, is_member, weight, paint_of, is_painted, is_among, WaitsBelow, Takes};

use counted_steps::Steps;
use mrdt_model::Memory;
use std::alloc::Global;
use std::collections::BTreeMap;
use std::marker::Model;
use std::sync::ledger::Ledger;

/// What a walk knows of a commit that waits: whether it lies in the left reach, in the right reach, and below a
/// commit that lies in both.
#[derive(Clone, Copy)]
pub(crate) struct Paint {
    left: bool,
    right: bool,
    below: bool,
}

impl Paint {
    // The paint of the left reach.
    pub(crate) fn left() -> Paint
        ensures { result ≡ record { left = true; right = false; below = false } }
    {
        Paint {
            left: true,
            right: false,
            below: false,
        }
    }

    // The paint of the right reach.
    pub(crate) fn right() -> Paint
        ensures { result ≡ record { left = false; right = true; below = false } }
    {
        Paint {
            left: false,
            right: true,
            below: false,
        }
    }

    // Whether a commit taken with this paint is a maximal common ancestor.
    pub(crate) fn is_member(self) -> bool
        ensures { result ≡ is_member self }
    {
        self.left && self.right && !self.below
    }

    // The paint that a commit gives to its parents.
    pub(crate) fn for_parents(self) -> Paint
        ensures { result ≡ for_parents self }
    {
        Paint {
            left: self.left,
            right: self.right,
            below: self.below || (self.left && self.right),
        }
    }

    // This paint over another.
    fn over(self, other: Paint) -> Paint
        ensures { result ≡ record {
          left = other.left || self.left;
          right = other.right || self.right;
          below = other.below || self.below;
        } }
    {
        Paint {
            left: other.left || self.left,
            right: other.right || self.right,
            below: other.below || self.below,
        }
    }

    // How much it counts among what is not yet below a common commit.
    fn weight(self) -> usize
        ensures { result ≡ weight self }
    {
        if self.below { 0 } else { 1 }
    }
}

/// Commits that wait, each once. Contracts see the list of these with their paints.
#[derive(Drop)]
pub(crate) struct Waiting {
    paints: BTreeMap<u32, Paint>,
    // how many of them are not below a common commit
    uncovered: usize,
}

impl Model for Waiting {
    ghost use Rattle.std.specs.Prelude.{◌≡◌, ℕ, List, sum_by};
    ghost use Rattle.std.specs.Map.{values_of};
    ghost use Rattle.branch_graph.specs.declared.waiting.Paint.{Paint};
    ghost use Rattle.branch_graph.specs.Paints.{weight};

    ghost Value = { List (ℕ × Paint) };

    ghost view = { λ w. w.paints.entries };

    ghost invariant = { λ w. w.uncovered ≡ sum_by weight (values_of w.paints.entries) };
}

impl Waiting {
    // No commit waits. It takes no memory.
    pub(crate) fn new(alloc: Global) -> Waiting
        ensures { result ≡ [] }
    {
        Waiting {
            paints: BTreeMap::new(alloc),
            uncovered: 0,
        }
    }

    // Paints a commit, which waits from then on.
    pub(crate) fn paint(&mut self, number: u32, paint: Paint) -> Result<(), Memory>
        ensures painted { OnOk result ((colour : Colour) (n : ℕ)
            → is_painted self.new colour n
            ≡ (is_painted self.old colour n || (has colour paint && (number == n)))) }
        ensures below { (end : ℕ) → number < end → WaitsBelow self.old end
            → WaitsBelow self.new end }
    {
        // the entries fit, and so does their number
        let _count = self.paints.len();
        let old = self.paints.get(&number).copied();
        let new = over(old, paint);
        let _ = self.paints.insert(number, new)?;
        self.uncovered = self.uncovered + new.weight() - weight_of(old);
        Ok(())
    }

    // Paints a commit that is not below a number, and no other.
    fn paint_at_least(&mut self, number: u32, least: u32, paint: Paint) -> Result<(), Memory>
        ensures painted { OnOk result ((colour : Colour) (n : ℕ)
            → is_painted self.new colour n
            ≡ (is_painted self.old colour n ||
            (has colour paint && ((number == n) && not (nat_lt n least))))) }
        ensures below { OnOk result ((end : ℕ) → number < end → WaitsBelow self.old end
            → WaitsBelow self.new end) }
    {
        if number < least {
            return Ok(());
        }
        self.paint(number, paint)?;
        Ok(())
    }

    // Paints those of some commits that are not below a number.
    pub(crate) fn paint_from(
        &mut self,
        numbers: &[u32],
        least: u32,
        paint: Paint,
    ) -> Result<(), Memory>
        ensures painted { OnOk result ((colour : Colour) (n : ℕ)
            → is_painted self.new colour n
            ≡ (is_painted self.old colour n ||
            (has colour paint && (is_among numbers.now n && not (nat_lt n least))))) }
        ensures below { OnOk result ((end : ℕ) → All (λ n. n < end) numbers.now
            → WaitsBelow self.old end → WaitsBelow self.new end) }
    {
        for number in numbers {
            self.paint_at_least(*number, least, paint)?;
        }
        Ok(())
    }

    // Paints some commits.
    pub(crate) fn paint_all(&mut self, numbers: &[u32], paint: Paint) -> Result<(), Memory>
        ensures painted { OnOk result ((colour : Colour) (n : ℕ)
            → is_painted self.new colour n
            ≡ (is_painted self.old colour n || (has colour paint && is_among numbers.now n))) }
        ensures below { OnOk result ((end : ℕ) → All (λ n. n < end) numbers.now
            → WaitsBelow self.old end → WaitsBelow self.new end) }
    {
        self.paint_from(numbers, 0, paint)?;
        Ok(())
    }

    // Takes the commit with the greatest number, unless each that waits is below a common commit. That is a step.
    pub(crate) fn take<L: Ledger>(&mut self, steps: &mut Steps<L>) -> Option<(u32, Paint)>
        ensures taken { IfSome result (λ taken. Takes self.old taken.0 taken.1 self.new) }
        ensures step { OnSome result (steps.new ≡ steps.old + 1) }
        ensures no_step { IfNone result (steps.new ≡ steps.old) }
        ensures none { IfNone result ((n : ℕ)
            → IfSome (paint_of self.old n) (λ paint. IsTrue paint.below)) }
    {
        if self.uncovered == 0 {
            return None;
        }
        let (number, paint) = self.paints.pop_last()?;
        steps.tick();
        self.uncovered -= paint.weight();
        Some((number, paint))
    }
}

// A paint over one that may be there.
fn over(old: Option<Paint>, paint: Paint) -> Paint
    ensures { (colour : Colour)
        → has colour result ≡ (option_map_or (has colour) old false || has colour paint) }
{
    match old {
        Some(old) => paint.over(old),
        None => paint,
    }
}

// How much a paint that may be there counts.
fn weight_of(paint: Option<Paint>) -> usize
    ensures { result ≡ unwrap_or (option_map weight paint) 0 }
{
    match paint {
        Some(paint) => paint.weight(),
        None => 0,
    }
}
