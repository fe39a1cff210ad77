// The law of what moves append. It stands on a function with an empty body, whose contract is the law.
ghost use Rattle.recorded_history.specs.Laws.{AppendsAllRegions};

use mrdt_model::Mrdt;

/// Moves that are made one behind the other append their regions to the objects.
pub fn appends_all_regions<T: Mrdt>()
    ensures { AppendsAllRegions T.meaning }
{}
