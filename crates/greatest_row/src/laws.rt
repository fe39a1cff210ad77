// Laws of rows, apart from any call that makes one.
ghost use Rattle.std.specs.Prelude.{◌≡◌, ℕ, List, get_or};
ghost use Rattle.mrdt_model.specs.Executions.{Event};
ghost use Rattle.greatest_row.specs.declared.mark.Mark.{Mark as SpecMark};
ghost use Rattle.greatest_row.specs.Rows.{highest, IsHighest};
ghost use Rattle.greatest_row.specs.Marks.{greatest, row_of};

/// Each place of the row of an execution has the greatest number that was raised there, and 0 where none was.
pub fn rows_have_the_greatest<O, R>()
    ensures { (mark : O → SpecMark) (x : List (Event O R)) (place : ℕ)
        → get_or (row_of mark x) place 0 ≡ greatest mark x place }
{}

/// The highest of the row of an execution is the greatest number that was raised, at the least place of it; its number is
/// 0 exactly where each is.
pub fn highest_is_the_greatest<O, R>()
    ensures { (mark : O → SpecMark) (x : List (Event O R))
        → IsHighest (greatest mark x) (highest (row_of mark x)) }
{}
