// The scripts of clients.
ghost use Rattle.std.specs.Prelude.{◌≡◌, IfOk};
ghost use Rattle.client_runs.specs.Scripts.{scripts_of};

use branch_gen::client_steps;
use branch_script::Step;
use mrdt_model::{Listing, Memory};
use std::alloc::Global;

/// The drawn steps of so many clients, in their order.
pub(crate) fn scripts(
    alloc: Global,
    count: u32,
    steps: u64,
    number: u64,
) -> Result<Vec<Listing<Step>>, Memory>
    ensures { IfOk result (λ scripts. scripts.items ≡ scripts_of count steps number) }
{
    let mut scripts = Vec::new(alloc);
    for client in 0..count {
        scripts.push(client_steps(alloc, client, steps, number)?)?;
    }
    Ok(scripts)
}
