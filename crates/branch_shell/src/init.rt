// Making a store of the values that are asked for.
ghost use Rattle.std.specs.Prelude.{◌≡◌, ◌≢◌, ℕ, List, Bool, []};
ghost use Rattle.std.specs.declared.option.Option.{Option};
ghost use Rattle.branch_command.specs.Terms.{kind_number};
ghost use Rattle.branch_shell.specs.Counts.{HaveReason};
ghost use Rattle.branch_shell.specs.Ran.{RanInitFor};
ghost use Rattle.branch_shell.specs.Reading.{Exchanges};
ghost use Rattle.branch_shell.specs.Stores.{AreThese};

use crate::answer::run_init;
use crate::status::Status;
use branch_address::Address;
use branch_disk::Disk;
use branch_io::Sink;
use branch_names::Terms;
use mrdt_doc::Doc;
use mrdt_wide::Wide;
use std::alloc::Global;

/// Makes a store of the first disk, of these terms, with values of their kind. Neither disk holds a byte, or it is
/// refused: the second is asked first.
pub(crate) fn init_for<K: Sink, D: Disk + Drop, A: Address>(
    alloc: Global,
    terms: Terms,
    sink: &mut K,
    first: D,
    second: D,
) -> (Status, D, D)
    ensures ran { (left : Option (List ℕ)) (sequences : Bool) → terms.kind ≡ kind_number sequences
        → Exchanges left left (K.given sink.old) (K.given sink.new)
        (λ input text. (input ≡ []) × RanInitFor D.Disk A.address (AreThese terms) sequences
        (record { first = first; second = second })
        (record { first = result.1; second = result.2 }) result.0 text) }
    ensures usage { result.0 ≢ Status.Usage }
    ensures reason { (n : ℕ) → HaveReason
        (record {
          source = n;
          sink = K.faults sink.old;
          first = D.faults first;
          second = D.faults second;
        })
        (record {
          source = n;
          sink = K.faults sink.new;
          first = D.faults result.1;
          second = D.faults result.2;
        }) result.0 }
    // Where the sink failed, no disk did.
    ensures no_fault { result.0 ≡ Status.WriteFault
        → (D.faults result.1 ≡ D.faults first) × (D.faults result.2 ≡ D.faults second) }
{
    let kind = terms.kind;
    if kind == 1 {
        run_init::<Wide, K, D, A>(alloc, terms, sink, first, second)
    } else {
        run_init::<Doc, K, D, A>(alloc, terms, sink, first, second)
    }
}
