// The laws of renewals that speak of types alone. Each stands on a function with an empty body, whose contract is the
// law.
ghost use Rattle.mrdt_renewal.specs.Renewals.{Renews};

use mrdt_model::Mrdt;

/// Each type renews itself, where every operation stays as it is.
pub fn each_type_renews_itself<T: Mrdt>()
    ensures { Renews T.meaning T.meaning (λ o. o) }
{}
