// Which side of the nested product each kind is.
ghost use Rattle.std.specs.Prelude.{◌≡◌};
ghost use Rattle.branch_doc.specs.Sides.{at_flags, at_last_writes, at_multis, at_sets, at_logs, at_queues};

use mrdt_both::Side;

// One of the second kind.
pub(crate) fn of_flags<A, X, Y>(x: X) -> Side<A, Side<X, Y>>
    ensures { result ≡ at_flags x }
{
    Side::Second(Side::First(x))
}

// One of the third kind.
pub(crate) fn of_last_writes<A, B, X, Y>(x: X) -> Side<A, Side<B, Side<X, Y>>>
    ensures { result ≡ at_last_writes x }
{
    Side::Second(of_flags(x))
}

// One of the fourth kind.
pub(crate) fn of_multis<A, B, C, X, Y>(x: X) -> Side<A, Side<B, Side<C, Side<X, Y>>>>
    ensures { result ≡ at_multis x }
{
    Side::Second(of_last_writes(x))
}

// One of the fifth kind.
pub(crate) fn of_sets<A, B, C, D, X, Y>(x: X) -> Side<A, Side<B, Side<C, Side<D, Side<X, Y>>>>>
    ensures { result ≡ at_sets x }
{
    Side::Second(of_multis(x))
}

// One of the sixth kind.
pub(crate) fn of_logs<A, B, C, D, E, X, Y>(
    x: X,
) -> Side<A, Side<B, Side<C, Side<D, Side<E, Side<X, Y>>>>>>
    ensures { result ≡ at_logs x }
{
    Side::Second(of_sets(x))
}

// One of the last kind.
pub(crate) fn of_queues<A, B, C, D, E, F, X>(
    x: X,
) -> Side<A, Side<B, Side<C, Side<D, Side<E, Side<F, X>>>>>>
    ensures { result ≡ at_queues x }
{
    Side::Second(Side::Second(Side::Second(Side::Second(Side::Second(Side::Second(x))))))
}
