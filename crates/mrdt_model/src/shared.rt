// Values that several holders share.
ghost use Rattle.std.specs.Prelude.{◌≡◌, IfOk};
ghost use Rattle.std.specs.Cmp.{partial_order_from_own_ties};
ghost use Rattle.std.specs.Cmp.Rules.{comparing};
ghost use Rattle.std.specs.Cmp.Lexicographic.{slice_cmp};
ghost use Rattle.std.specs.Ordering.{nat_cmp, as_partial_cmp};
ghost use Rattle.std.specs.Str.{bytes_eq};
ghost use Rattle.std.proofs.Common.{rules};

use crate::bytes::Bytes;
use crate::errors::Memory;
use std::alloc::{AllocError, Global};
use std::cmp::Ordering;
use std::marker::Model;
use std::sync::Arc;

/// A value that several holders share, and that none of them changes. Contracts see the value.
#[derive(Drop)]
pub struct Shared<T> {
    value: Arc<T>,
}

impl<T> Model for Shared<T> {
    ghost use Rattle.std.specs.Arc.{arc_value};

    ghost Value = { T };

    ghost view = { λ s. arc_value s.value };
}

impl<T> Shared<T> {
    /// The value.
    pub fn get(&self) -> &T
        ensures { result.now ≡ self.now }
    {
        &self.value
    }

    /// The same value with one more holder. Nothing of it is copied.
    pub fn copy(&self) -> Result<Shared<T>, Memory>
        ensures { IfOk result (λ shared. shared ≡ self.now) }
    {
        Ok(Shared {
            value: Arc::try_clone(&self.value)?,
        })
    }
}

impl<T: Drop> Shared<T> {
    /// A value with its first holder.
    pub fn new(alloc: Global, value: T) -> Result<Shared<T>, Memory>
        ensures { IfOk result (λ shared. shared ≡ value) }
    {
        Ok(Shared {
            value: Arc::new(alloc, value)?,
        })
    }
}

impl<T: Drop> Clone for Shared<T> {
    ghost is_clone = { λ shared clone. clone ≡ shared };

    fn clone(&self) -> Result<Shared<T>, AllocError> {
        Ok(Shared {
            value: Arc::try_clone(&self.value)?,
        })
    }
}

impl PartialEq for Shared<Bytes> {
    ghost eq = { bytes_eq };

    ghost laws = { Prim.search (comparing, rules) };

    fn eq(&self, other: &Shared<Bytes>) -> bool {
        self.get() == other.get()
    }
}

impl Eq for Shared<Bytes> {
    ghost laws = { Prim.search (comparing, rules) };
}

impl Ord for Shared<Bytes> {
    ghost cmp = { slice_cmp nat_cmp };

    ghost total = { Prim.search (comparing, rules) };

    ghost matches_partial_cmp = { Prim.search (comparing, rules) };

    ghost matches_eq = { Prim.search (comparing, rules) };

    fn cmp(&self, other: &Shared<Bytes>) -> Ordering {
        self.get().cmp(other.get())
    }
}

impl PartialOrd for Shared<Bytes> {
    ghost partial_cmp = { as_partial_cmp (slice_cmp nat_cmp) };

    ghost laws = { partial_order_from_own_ties (Prim.search (comparing, rules))
        (Prim.search (comparing, rules)) };

    fn partial_cmp(&self, other: &Shared<Bytes>) -> Option<Ordering> {
        Some(self.cmp(other))
    }
}
