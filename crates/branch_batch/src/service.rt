// Which queue it is, and what its results are for.
use std::marker::Brand;

/// Names one queue, for proofs alone, and says which jobs it takes and which results serve a job. It takes no bytes.
///
/// J and R are type parameters of whoever has a bound by it. Where they are made of others, as the jobs of a store are,
/// let a type of one's own implement it.
pub trait Service<J, R> {
    ghost use Rattle.atomic_table.specs.Seated.{TableId};

    // Which queue it is.
    ghost table: { TableId };

    // Which jobs it takes.
    ghost takes: { J → Type 0 };

    // How a result stands to the job that it is given for.
    ghost serves: { J → R → Type 0 };
}

impl<J, R> Service<J, R> for Brand {
    ghost use Rattle.branch_batch.specs.Tickets.{no_table};

    ghost table = { no_table };

    ghost takes = { λ job. Unit {0} };

    ghost serves = { λ job result. Unit {0} };
}
