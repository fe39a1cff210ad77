// What the operations of a document of version 1 are renewed to.
ghost use Rattle.std.specs.Prelude.{◌≡◌};
ghost use Rattle.mrdt_old_doc.specs.OldDocument.{renewed_sum_op, renewed_on_key, renewed_op};

use crate::doc::OldDocOp;
use branch_doc::DocOp;
use mrdt_both::Side;
use mrdt_counter::{CounterOp, SumOp};
use mrdt_map::OnKey;

// The operation of a counter that one of a sum is renewed to.
fn renewed_sum(op: SumOp) -> CounterOp
    ensures { result ≡ renewed_sum_op op }
{
    match op {
        SumOp::Add(amount) => CounterOp::Add(amount),
    }
}

// The operation of the map of counters that one of the map of sums is renewed to.
fn renewed_at_sums(op: OnKey<SumOp>) -> OnKey<CounterOp>
    ensures { result ≡ renewed_on_key renewed_sum_op op }
{
    OnKey {
        key: op.key,
        operation: renewed_sum(op.operation),
    }
}

/// The document's operation that one of version 1 is renewed to. It takes no memory.
pub fn renewed(op: OldDocOp) -> DocOp
    ensures { result ≡ renewed_op op }
{
    match op {
        Side::First(op) => Side::First(renewed_at_sums(op)),
        Side::Second(op) => Side::Second(match op {
            Side::First(op) => Side::First(op),
            Side::Second(op) => Side::Second(match op {
                Side::First(op) => Side::First(op),
                Side::Second(op) => Side::Second(match op {
                    Side::First(op) => Side::First(op),
                    Side::Second(op) => Side::Second(match op {
                        Side::First(op) => Side::First(OnKey {
                            key: op.key,
                            operation: op.operation.renewed(),
                        }),
                        Side::Second(op) => Side::Second(op),
                    }),
                }),
            }),
        }),
    }
}
