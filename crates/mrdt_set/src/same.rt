// Whether two tables are the same.
ghost use Rattle.std.specs.Prelude.{◌≡◌, ◌↔◌, ◌++◌, List, ℕ, IsTrue};
ghost use Rattle.live_set.specs.Payloads.{nothing_spelling};
ghost use Rattle.live_set.specs.Spelling.{live_spelling};
ghost use Rattle.mrdt_set.specs.Members.{member_spelling, set_spelling};

use crate::slot::Times;
use crate::table::Table;

// Whether times are the same as others. Those whose spellings stand at the front of the same bytes are.
fn same_times(times: &Times, others: &Times) -> bool
    ensures same { IsTrue result ↔ (times.now ≡ others.now) }
    ensures spelled { (a b : List ℕ) → live_spelling nothing_spelling times.now ++ a
        ≡ live_spelling nothing_spelling others.now ++ b → times.now ≡ others.now }
{
    let mine = times.len();
    let theirs = others.len();
    mine == theirs && times.same(others)
}

// Whether an element and its times are equal to others. Those whose spellings stand at the front of the same bytes
// are.
fn same_member(element: &[u8], times: &Times, other: &[u8], others: &Times) -> bool
    ensures same { IsTrue result ↔ ((element.now ≡ other.now) × (times.now ≡ others.now)) }
    ensures spelled { (a b : List ℕ) → member_spelling (element.now, times.now) ++ a
        ≡ member_spelling (other.now, others.now) ++ b
        → (element.now ≡ other.now) × (times.now ≡ others.now) }
{
    element == other && same_times(times, others)
}

// Whether two tables have the same elements with the same times. Those that are spelled alike are the same.
pub(crate) fn same_tables(table: &Table, other: &Table) -> bool
    ensures same { IsTrue result ↔ (table.now ≡ other.now) }
    ensures spelled { set_spelling table.now ≡ set_spelling other.now → table.now ≡ other.now }
{
    if table.size() != other.size() {
        return false;
    }
    let mut walk = table.walk();
    let mut others = other.walk();
    while let Some(slot) = walk.first() {
        let Some(theirs) = others.first() else {
            return false;
        };
        if !same_member(
            slot.element(),
            slot.times(),
            theirs.element(),
            theirs.times(),
        ) {
            return false;
        }
        walk.skip();
        others.skip();
    }
    true
}
