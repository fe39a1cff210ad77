// The value that a landing brings is spelled as it was prepared.
ghost use Rattle.branch_shared.specs.Spelled.{SpellsLandings};

use branch_address::Address;
use branch_machine::laws::has_fully_valid_prefixes;
use mrdt_model::Mrdt;
use store_seen::Prepared;

/// Wherever the machine lands what was prepared, its value is spelled so.
pub(crate) fn spells_landings<T: Mrdt, A: Address>(prepared: &Prepared<T>)
    ensures { SpellsLandings T.meaning A.address prepared.now }
{
    has_fully_valid_prefixes::<T>();
    // Its clauses say what is known of what was prepared.
    let _ = prepared.branch();
    let _ = prepared.written();
}
