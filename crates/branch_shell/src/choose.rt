// Which of two disks a command works on, and what values it has.
ghost use Rattle.std.specs.Prelude.{◌≡◌, ◌⊎◌, IfOk, IfErr, OnOk};
ghost use Rattle.std.specs.Option.{ForSome};
ghost use Rattle.branch_io.specs.Causes.{HasCause, Rose};
ghost use Rattle.branch_disk.specs.Disk.{LeavesOnly};
ghost use Rattle.branch_compact.specs.Switch.{is_current};
ghost use Rattle.branch_shell.specs.Disks.{StaysSame, AreChosen};
ghost use Rattle.branch_shell.specs.Values.{HaveValues};

use branch_disk::{Disk, DiskFailed, Part, settle};
use heads_journal::{KindRefused, kind};
use store_compact::Which;

/// What values a store has.
#[derive(Clone, Copy, Debug, PartialEq, Eq)]
pub(crate) enum Values {
    /// Documents.
    Documents,
    /// Documents with sequences.
    WithSequences,
}

/// The one of two disks that is current, and what values it has.
#[derive(Clone, Copy, Debug, PartialEq, Eq)]
pub(crate) struct Chosen {
    pub(crate) which: Which,
    pub(crate) values: Values,
}

// How many bytes the heads of a current first disk have, at least: a header, and the gate behind it.
const HEADER: u64 = 65;

// Whether the first disk is the current one, by its own heads.
fn is_first_current<D: Disk>(first: &mut D) -> Result<bool, DiskFailed>
    ensures told { IfOk result (λ is. ForSome (D.contents first.old) (λ f. is ≡ is_current f)) }
    ensures same { D.contents first.new ≡ D.contents first.old }
    ensures any_moment { LeavesOnly D.moment D.left_since first.old first.new
        (D.may_leave first.old) }
    ensures cause { HasCause (D.faults first.old) (D.faults first.new) result }
{
    let length = first.length(Part::Heads)?;
    if length < HEADER {
        return Ok(false);
    }
    let mut gate = [0u8; 1];
    first.read(Part::Heads, 0, &mut gate)?;
    Ok(gate[0] == 1)
}

// What values the store of a disk has, by its heads.
fn values_of<D: Disk>(disk: &mut D) -> Result<Values, DiskFailed>
    ensures have { IfOk result (λ values. ForSome (D.contents disk.old) (HaveValues values)) }
    ensures same { D.contents disk.new ≡ D.contents disk.old }
    ensures any_moment { LeavesOnly D.moment D.left_since disk.old disk.new (D.may_leave disk.old) }
    ensures cause { HasCause (D.faults disk.old) (D.faults disk.new) result }
{
    match kind(disk) {
        Ok(1) => Ok(Values::WithSequences),
        Ok(_) => Ok(Values::Documents),
        Err(KindRefused::NotAStore) => Ok(Values::Documents),
        Err(KindRefused::DiskFault) => Err(DiskFailed),
    }
}

/// Which of two disks is current, by the heads of the first, and what values it has, by its own heads. Both are synced
/// before anything is read of them, so that a crash leaves of either what it tells; nothing is written. After a fault of
/// either the other has none.
pub(crate) fn choose<D: Disk>(first: &mut D, second: &mut D) -> Result<Chosen, DiskFailed>
    ensures chosen { IfOk result (λ chosen. AreChosen D.Disk
        (record { first = first.old; second = second.old })
        (record { first = first.new; second = second.new }) chosen.which chosen.values) }
    ensures first { StaysSame D.Disk first.old first.new }
    ensures second { StaysSame D.Disk second.old second.new }
    ensures no_cause { OnOk result ((D.faults first.new ≡ D.faults first.old)
        × (D.faults second.new ≡ D.faults second.old)) }
    ensures cause { IfErr result (λ e.
        (Rose (D.faults first.old) (D.faults first.new)
        × (D.faults second.new ≡ D.faults second.old))
        ⊎ ((D.faults first.new ≡ D.faults first.old)
        × Rose (D.faults second.old) (D.faults second.new))) }
{
    settle(first)?;
    settle(second)?;
    if is_first_current(first)? {
        let values = values_of(first)?;
        Ok(Chosen {
            which: Which::First,
            values,
        })
    } else {
        let values = values_of(second)?;
        Ok(Chosen {
            which: Which::Second,
            values,
        })
    }
}
