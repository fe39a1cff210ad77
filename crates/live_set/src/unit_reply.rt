// The reply of operations that tell nothing.
ghost use Rattle.std.specs.Prelude.{◌≡◌, ◌++◌, [], OnOk, OnErr, IsErrOf};
ghost use Rattle.mrdt_model.specs.Spelled.{AppendsPart};
ghost use Rattle.branch_wire.specs.Reading.{HasLength};
ghost use Rattle.live_set.specs.UnitReply.{unit_spelling, IsUnitSpelling};

use mrdt_model::{Memory, Unread};

/// Writes the reply's spelling, which is no bytes, at the end of `out`. It takes no memory.
pub fn put(_reply: &(), _out: &mut Vec<u8>) -> Result<(), Memory>
    ensures same { _out.new.items ≡ _out.old.items }
    ensures ok { OnOk result (_out.new.items ≡ _out.old.items ++ unit_spelling _reply.now) }
    ensures never { OnErr result ⊥ }
{
    Ok(())
}

/// Reads the reply, whose spelling is no bytes. `NotCanonical` comes exactly where there are some. It takes no
/// memory.
pub fn get(bytes: &[u8]) -> Result<(), Unread>
    ensures inside { OnOk result (IsUnitSpelling bytes.now) }
    ensures outside { IsErrOf result Unread.NotCanonical → ¬ IsUnitSpelling bytes.now }
    ensures never { ¬ IsErrOf result Unread.Memory }
{
    if bytes.is_empty() {
        Ok(())
    } else {
        Err(Unread::NotCanonical)
    }
}
