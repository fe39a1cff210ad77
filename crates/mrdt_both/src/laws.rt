// Laws of the sides' events, apart from any call on values.
ghost use Rattle.std.specs.Prelude.{◌≡◌, ◌+◌, List, length};
ghost use Rattle.mrdt_model.specs.Executions.{Event};
ghost use Rattle.mrdt_model.specs.Laws.{Lawful};
ghost use Rattle.mrdt_both.specs.declared.both.Side.{Side as SpecSide};
ghost use Rattle.mrdt_both.specs.Sides.{first_part, second_part, ShareOut, both_meaning};

use mrdt_model::Mrdt;

/// The two sides share out the events of a lawful execution: each event is of one side, and no event of both.
pub fn sides_share_the_events<A: Mrdt, B: Mrdt>()
    ensures lengths { (x : List (Event (SpecSide A.Op B.Op) (SpecSide A.Reply B.Reply)))
        → Lawful (both_meaning A.meaning B.meaning) x
        → length (first_part x) + length (second_part x) ≡ length x }
    ensures times { (x : List (Event (SpecSide A.Op B.Op) (SpecSide A.Reply B.Reply)))
        → Lawful (both_meaning A.meaning B.meaning) x → ShareOut x }
{}
