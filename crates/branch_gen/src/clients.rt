// The drawn steps of a client.
ghost use Rattle.std.specs.Prelude.{◌≡◌, ◌<◌, ◌++◌, IfOk, OnOk, IsTrue};
ghost use Rattle.branch_names.specs.Names.{is_name};
ghost use Rattle.branch_gen.specs.Clients.{client_branch, step_for, step, drawn_steps, client_steps};

use crate::draws::{Draws, numbered};
use branch_doc::PlainOp;
use branch_names::{BadName, Name};
use branch_script::Step;
use mrdt_model::{Listing, Memory};
use std::alloc::Global;

// The name with these bytes.
fn name(bytes: &[u8]) -> Name
    requires { IsTrue (is_name bytes.now) }
    ensures { result ≡ bytes.now }
{
    match Name::read(bytes) {
        Ok(name) => name,
        Err(BadName) => unreachable!(),
    }
}

// The branch that a client forks.
#[tactic(auto, using(crate::proofs::ClientNames::client_is_name))]
fn client_branch(alloc: Global, client: u32) -> Result<Name, Memory>
    ensures { IfOk result (λ name. name ≡ client_branch client) }
{
    let bytes = numbered(alloc, b"c", u64::from(client))?;
    Ok(name(bytes.as_slice()))
}

// The step that a number below 8 stands for.
#[tactic(auto, unfolding(crate::specs::Clients::step_for))]
fn step_for(alloc: Global, draws: &mut Draws, branch: Name, action: u64) -> Result<Step, Memory>
    requires { action < 8 }
    ensures made { IfOk result (λ step. step ≡ (step_for branch action draws.old.state).made) }
    ensures state { OnOk result (draws.new.state ≡ (step_for branch action draws.old.state).state) }
{
    let (own, top) = (name(b"own"), name(b"top"));
    Ok(match action {
        0 => Step::Merge {
            session: own,
            branch: Name::main(),
        },
        1 => Step::Merge {
            session: top,
            branch,
        },
        2 => Step::Do {
            session: top,
            op: PlainOp::CounterAdd {
                key: draws.key(alloc)?,
                amount: draws.amount(),
            },
        },
        3 => Step::Do {
            session: own,
            op: PlainOp::CounterAdd {
                key: draws.key(alloc)?,
                amount: draws.amount(),
            },
        },
        4 => Step::Do {
            session: own,
            op: PlainOp::SetAdd {
                key: draws.key(alloc)?,
                element: draws.word(alloc)?,
            },
        },
        5 => Step::Do {
            session: own,
            op: PlainOp::SetRemove {
                key: draws.key(alloc)?,
                element: draws.word(alloc)?,
            },
        },
        6 => Step::Do {
            session: own,
            op: PlainOp::QueueEnqueue {
                key: draws.key(alloc)?,
                payload: draws.word(alloc)?,
            },
        },
        _ => Step::Do {
            session: own,
            op: PlainOp::QueueDequeue {
                key: draws.key(alloc)?,
            },
        },
    })
}

// A drawn step.
#[tactic(auto, unfolding(crate::specs::Clients::step))]
fn step(alloc: Global, draws: &mut Draws, branch: Name) -> Result<Step, Memory>
    ensures made { IfOk result (λ made. made ≡ (step branch draws.old.state).made) }
    ensures state { OnOk result (draws.new.state ≡ (step branch draws.old.state).state) }
{
    let action = draws.pick(8);
    step_for(alloc, draws, branch, action)
}

// As many drawn steps.
fn push_steps(
    alloc: Global,
    out: &mut Vec<Step>,
    draws: &mut Draws,
    branch: Name,
    steps: u64,
) -> Result<(), Memory>
    ensures { OnOk result (out.new.items
        ≡ out.old.items ++ drawn_steps branch steps draws.old.state) }
{
    for _step in 0..steps {
        out.push(step(alloc, draws, branch)?)?;
    }
    Ok(())
}

/// The steps of a client for a number: it forks the branch of its own number, its sessions look there and at
/// `main`, and then this many drawn steps follow.
#[tactic(auto, unfolding(crate::specs::Clients::client_steps))]
pub fn client_steps(
    alloc: Global,
    client: u32,
    steps: u64,
    number: u64,
) -> Result<Listing<Step>, Memory>
    ensures { IfOk result (λ made. made ≡ client_steps client steps number) }
{
    let branch = client_branch(alloc, client)?;
    let (own, top, main) = (name(b"own"), name(b"top"), Name::main());
    let mut out = Vec::new(alloc);
    out.push(Step::Fork {
        new: branch,
        from: main,
    })?;
    out.push(Step::Look {
        session: own,
        branch,
    })?;
    out.push(Step::Look {
        session: top,
        branch: main,
    })?;
    let mut draws = Draws {
        state: number.wrapping_add(u64::from(client)),
    };
    push_steps(alloc, &mut out, &mut draws, branch, steps)?;
    Ok(Listing::from_vec(out))
}
