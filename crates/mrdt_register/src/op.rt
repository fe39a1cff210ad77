// The operation of registers.
ghost use Rattle.std.specs.Prelude.{◌≡◌, IfOk};
ghost use Rattle.mrdt_register.specs.Writes.{payload_of, IsWrite};

use mrdt_model::{Bytes, Memory, Shared};
use std::alloc::Global;

/// An operation of a register.
#[derive(Drop)]
pub enum RegisterOp {
    /// Sets the register to a payload.
    Set(Bytes),
}

impl RegisterOp {
    /// What the operation writes.
    pub fn payload(&self) -> &Bytes
        ensures value { result.now ≡ payload_of self.now }
        ensures known { IsWrite self.now }
    {
        match self {
            RegisterOp::Set(payload) => {
                let _bytes = payload.as_slice();
                payload
            }
        }
    }

    // A copy of what the operation writes, shared.
    pub(crate) fn shared(&self, alloc: Global) -> Result<Shared<Bytes>, Memory>
        ensures value { IfOk result (λ payload. payload ≡ payload_of self.now) }
        ensures known { IsWrite self.now }
    {
        Shared::new(alloc, self.payload().copy()?)
    }
}
