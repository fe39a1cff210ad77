// What a map asks of the type of its values.
ghost use Rattle.std.specs.Prelude.{◌≡◌, ◌↔◌, ◌<◌, ◌^◌, ◌++◌, [], length, IsTrue, IfOk, OnOk, OnErr, IsErrOf};
ghost use Rattle.mrdt_model.specs.Laws.{Meaning, KeepsLaws, Applies, Merges, Answers, StandsAsWell};
ghost use Rattle.mrdt_model.specs.Spelled.{AppendsPart, capped};

use mrdt_model::{Memory, Mrdt, Time, Unread};
use std::alloc::Global;

// What a map asks of the type of its values: what `Mrdt` says of it, but that they may go to other threads. Rattle
// writes no proof of a call from an impl for a map of any `T` to a function with the bound `T: Mrdt`.
pub(crate) trait Inner: Sized + Drop {
    type Op;

    type Query;

    type Answer: Drop;

    type Reply: Drop;

    ghost meaning: { Meaning Self Self.Op Self.Reply Self.Query Self.Answer };

    fn initial(alloc: Global) -> Self
        ensures { meaning.stands result [] };

    fn is_same(&self, other: &Self) -> bool
        ensures same { IsTrue result ↔ meaning.is_same self.now other.now }
        ensures spelled { length (meaning.state_spelling self.now) < 2 ^ 64
            → meaning.state_spelling self.now ≡ meaning.state_spelling other.now
            → meaning.is_same self.now other.now };

    fn applied(&self, op: &Self::Op, time: Time) -> Result<(Self, Self::Reply), Memory>
        ensures known { IfOk result (λ made. meaning.is_op op.now × meaning.is_reply made.1) }
        ensures applies { IfOk result (λ made.
            Applies meaning self.now op.now time made.0 made.1) };

    fn merged(base: &Self, left: &Self, right: &Self) -> Result<Self, Memory>
        ensures { IfOk result (Merges meaning base.now left.now right.now) };

    fn answered(&self, query: &Self::Query) -> Result<Self::Answer, Memory>
        ensures { IfOk result (Answers meaning self.now query.now) };

    fn put_state(&self, out: &mut Vec<u8>) -> Result<(), Memory>
        ensures ok { OnOk result (out.new.items
            ≡ out.old.items ++ meaning.state_spelling self.now) }
        ensures err { OnErr result (AppendsPart out.old.items out.new.items
            (meaning.state_spelling self.now)) };

    fn size(&self) -> u64
        ensures { result ≡ capped (length (meaning.state_spelling self.now)) };

    fn get_state(alloc: Global, bytes: &[u8]) -> Result<Self, Unread>
        ensures spelled { IfOk result (λ state. meaning.state_spelling state ≡ bytes.now) }
        ensures stands { IfOk result (λ state. (other : Self)
            → meaning.state_spelling other ≡ bytes.now → StandsAsWell meaning other state) }
        ensures inside { OnOk result (meaning.is_state_spelling bytes.now) }
        ensures outside { IsErrOf result Unread.NotCanonical
            → ¬ meaning.is_state_spelling bytes.now };

    ghost laws: { KeepsLaws meaning };
}

impl<T: Mrdt> Inner for T {
    type Op = <T as Mrdt>::Op;

    type Query = <T as Mrdt>::Query;

    type Answer = <T as Mrdt>::Answer;

    type Reply = <T as Mrdt>::Reply;

    ghost meaning = { T.meaning };

    fn initial(alloc: Global) -> T {
        <T as Mrdt>::initial(alloc)
    }

    fn is_same(&self, other: &T) -> bool {
        <T as Mrdt>::same(self, other)
    }

    fn applied(&self, op: &<T as Mrdt>::Op, time: Time) -> Result<(T, <T as Mrdt>::Reply), Memory> {
        <T as Mrdt>::apply(self, op, time)
    }

    fn merged(base: &T, left: &T, right: &T) -> Result<T, Memory> {
        <T as Mrdt>::merge(base, left, right)
    }

    fn answered(&self, query: &<T as Mrdt>::Query) -> Result<<T as Mrdt>::Answer, Memory> {
        <T as Mrdt>::answer(self, query)
    }

    fn put_state(&self, out: &mut Vec<u8>) -> Result<(), Memory> {
        <T as Mrdt>::put(self, out)
    }

    fn size(&self) -> u64 {
        <T as Mrdt>::spelled_length(self)
    }

    fn get_state(alloc: Global, bytes: &[u8]) -> Result<T, Unread> {
        <T as Mrdt>::get(alloc, bytes)
    }

    ghost laws = { T.laws };
}
