// What is fixed for a store as long as it lives.
ghost use Rattle.std.specs.Prelude.{◌<◌, ◌^◌};
ghost use Rattle.branch_names.specs.Ranges.{AreOrigins};

use crate::{Layout, Limits};

/// What is fixed for a store as long as it lives: its limits, its first origin, the kind of its values, and the layout of
/// its objects. Branch r has the origin that lies r above the first; the origins of all branches that there may be are
/// numbers of 32 bits.
#[derive(Clone, Copy, Debug, PartialEq, Eq)]
pub struct Terms {
    /// The limits.
    pub limits: Limits,
    /// The origin of branch 0.
    pub origin: u32,
    /// The kind of the values, the byte of the heads that says of which type they are: 0 for documents, 1 for documents
    /// with sequences. Types of one's own take numbers from 100 on. A store is opened only as one of its kind.
    pub kind: u8,
    /// The layout of the objects.
    pub layout: Layout,
    pub ghost small: { kind < 2 ^ 8 },
    pub ghost in_range: { AreOrigins origin limits.branches },
}

// How many origins there are.
const ORIGINS: u64 = 0x1_0000_0000;

impl Terms {
    ghost use Rattle.std.specs.Prelude.{◌≡◌, ◌↔◌, IsSome, IfSome};
    ghost use Rattle.branch_names.specs.Ranges.{AreOrigins};
    ghost use Rattle.branch_names.specs.declared.layout.Layout.TheVariants.{Whole};

    /// The terms with these limits, this first origin, this kind of values and this layout of the objects; `None` exactly
    /// where an origin would be out of range.
    pub fn new(limits: Limits, origin: u32, kind: u8, layout: Layout) -> Option<Terms>
        ensures in_range { IsSome result ↔ AreOrigins origin limits.branches }
        ensures limits { IfSome result (λ terms. terms.limits ≡ limits) }
        ensures origin { IfSome result (λ terms. terms.origin ≡ origin) }
        ensures kind { IfSome result (λ terms. terms.kind ≡ kind) }
        ensures layout { IfSome result (λ terms. terms.layout ≡ layout) }
    {
        if origin as u64 + limits.branches as u64 <= ORIGINS {
            Some(Terms {
                limits,
                origin,
                kind,
                layout,
            })
        } else {
            None
        }
    }

    /// The terms under these limits whose first origin is 0, for values of the kind 0, with the objects of values. There
    /// are as many numbers of 32 bits as branches at least.
    pub fn under(limits: Limits) -> Terms
        ensures limits { result.limits ≡ limits }
        ensures origin { result.origin ≡ 0 }
        ensures kind { result.kind ≡ 0 }
        ensures layout { result.layout ≡ Whole }
    {
        Terms {
            limits,
            origin: 0,
            kind: 0,
            layout: Layout::Whole,
        }
    }
}
