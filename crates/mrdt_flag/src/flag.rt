// The flag, its operations and its laws.
use branch_wire::Cursor;
use live_set::{Live, unit_reply};
use mrdt_model::{Memory, Mrdt, Time, Unread};
use std::alloc::Global;
use std::marker::Model;

// The bytes that spell the operations.
const ENABLE: u8 = 1;

const DISABLE: u8 = 2;

/// An operation of a flag.
#[derive(Clone, Copy, Debug, PartialEq, Eq)]
pub enum FlagOp {
    /// Turns the flag on.
    Enable,
    /// Turns the flag off where it has been seen on.
    Disable,
}

/// A query of a flag.
#[derive(Clone, Copy, Debug, PartialEq, Eq)]
pub enum FlagQuery {
    /// Whether some Enable has been seen by no Disable.
    IsOn,
}

/// A flag that an Enable wins against a Disable that has not seen it. Contracts see the times of the Enables that
/// no operation has seen, by rising time, each with nothing beside it.
#[derive(Drop)]
pub struct Flag {
    alloc: Global,
    enabled: Live<()>,
}

impl Model for Flag {
    ghost use Rattle.std.specs.Prelude.{List};
    ghost use Rattle.live_set.specs.declared.kept.Kept.{Kept};

    ghost Value = { List (Kept (Unit {0})) };

    ghost view = { λ f. f.enabled };
}

impl Flag {
    ghost use Rattle.std.specs.Prelude.{◌≡◌, ◌∷◌, [], IfOk};
    ghost use Rattle.live_set.specs.Effects.{has_any};

    /// Whether the flag is on. It takes no memory.
    pub fn is_on(&self) -> bool
        ensures { result ≡ has_any self.now }
    {
        self.enabled.any()
    }

    /// The flag after a Disable that has seen all. It takes no memory.
    pub fn disabled(&self) -> Flag
        ensures { result ≡ [] }
    {
        Flag {
            alloc: self.alloc,
            enabled: Live::new(self.alloc),
        }
    }

    // The flag after an Enable that has seen all.
    fn enabled(&self, time: Time) -> Result<Flag, Memory>
        ensures { IfOk result (λ flag. flag ≡ record { time = time; payload = tt } ∷ []) }
    {
        let mut enabled = Live::new(self.alloc);
        enabled.add(time, ())?;
        Ok(Flag {
            alloc: self.alloc,
            enabled,
        })
    }
}

impl Mrdt for Flag {
    ghost use Rattle.mrdt_flag.specs.Flag.{flag_meaning};
    ghost use Rattle.mrdt_flag.specs.FlagLaws.{flag_laws};

    type Op = FlagOp;

    type Query = FlagQuery;

    type Answer = bool;

    type Reply = ();

    ghost meaning = { flag_meaning };

    fn initial(alloc: Global) -> Flag {
        Flag {
            alloc,
            enabled: Live::new(alloc),
        }
    }

    fn copy(&self) -> Result<Flag, Memory> {
        Ok(Flag {
            alloc: self.alloc,
            enabled: self.enabled.copy()?,
        })
    }

    fn same(&self, other: &Flag) -> bool {
        self.enabled.same(&other.enabled)
    }

    fn apply(&self, op: &FlagOp, time: Time) -> Result<(Flag, ()), Memory> {
        match op {
            FlagOp::Enable => Ok((self.enabled(time)?, ())),
            FlagOp::Disable => Ok((self.disabled(), ())),
        }
    }

    fn merge(base: &Flag, left: &Flag, right: &Flag) -> Result<Flag, Memory> {
        Ok(Flag {
            alloc: left.alloc,
            enabled: Live::merge(&base.enabled, &left.enabled, &right.enabled)?,
        })
    }

    fn answer(&self, query: &FlagQuery) -> Result<bool, Memory> {
        match query {
            FlagQuery::IsOn => Ok(self.is_on()),
        }
    }

    fn put(&self, out: &mut Vec<u8>) -> Result<(), Memory> {
        self.enabled.put(out)
    }

    fn spelled_length(&self) -> u64 {
        self.enabled.spelled_length()
    }

    fn get(alloc: Global, bytes: &[u8]) -> Result<Flag, Unread> {
        Ok(Flag {
            alloc,
            enabled: Live::get(alloc, bytes)?,
        })
    }

    fn put_op(op: &FlagOp, out: &mut Vec<u8>) -> Result<(), Memory> {
        match op {
            FlagOp::Enable => Ok(out.push(ENABLE)?),
            FlagOp::Disable => Ok(out.push(DISABLE)?),
        }
    }

    fn get_op(_alloc: Global, bytes: &[u8]) -> Result<FlagOp, Unread> {
        let mut cursor = Cursor::new(bytes);
        let word = cursor.take_u8()?;
        match word {
            ENABLE if cursor.is_at_end() => Ok(FlagOp::Enable),
            DISABLE if cursor.is_at_end() => Ok(FlagOp::Disable),
            _ => Err(Unread::NotCanonical),
        }
    }

    fn put_reply(reply: &(), out: &mut Vec<u8>) -> Result<(), Memory> {
        unit_reply::put(reply, out)
    }

    fn get_reply(_alloc: Global, bytes: &[u8]) -> Result<(), Unread> {
        unit_reply::get(bytes)
    }

    ghost laws = { flag_laws };
}
