// The commits of a history: the parents of each, and what else is kept of it to tell what it did.
ghost use Rattle.std.specs.Prelude.{◌≡◌, ◌+◌, ◌^◌, ◌<◌, ◌≤◌, ◌++◌, [], ◌∷◌, All, None, length, option_map, IfSome, IfOk, OnOk};
ghost use Rattle.branch_graph.specs.Graph.{parents_of};
ghost use Rattle.branch_history.specs.History.{store_of};
ghost use Rattle.branch_history.specs.Validity.{IsValid};
ghost use Rattle.branch_compact.specs.Compact.{commits_made as commits_made_by};
ghost use Rattle.branch_print.specs.Texts.{at_most_one};
ghost use Rattle.branch_log.specs.Made.{act_at, AreMade, AreRead, greatest_made, made_by, IsInRange};

use branch_compact::graph_of_moves;
use branch_graph::Graph;
use branch_history::Move;
use branch_history::laws::{keeps_limits, keeps_order};
use branch_names::Terms;
use mrdt_model::{Memory, Mrdt, Time};
use std::alloc::Global;

// Of a commit its origin and its clock, and the place of the move that made it: the first has none.
#[derive(Clone, Copy)]
pub(crate) struct Made {
    pub(crate) origin: u32,
    pub(crate) clock: u64,
    pub(crate) place: Option<usize>,
}

impl Made {
    // The time of the commit's operation.
    pub(crate) fn time(self) -> Time
        ensures { result ≡ record { clock = self.clock; origin = self.origin } }
    {
        Time {
            clock: self.clock,
            origin: self.origin,
        }
    }

    // The operation and the reply of the commit, if it has them.
    pub(crate) fn act<O, R>(self, moves: &[Move<O, R>]) -> Option<(&O, &R)>
        ensures { option_map (λ act. (act.0.now, act.1.now)) result
            ≡ act_at moves.now self.place }
    {
        match moves.get(self.place?)? {
            Move::Operation { op, reply, .. } => Some((op, reply)),
            Move::Received {
                act: Some((op, reply)),
                ..
            } => Some((op, reply)),
            _ => None,
        }
    }
}

// The parents of each commit by number, and what else is kept of it.
#[derive(Drop)]
pub(crate) struct Commits {
    pub(crate) graph: Graph,
    pub(crate) made: Vec<Made>,
}

// The greatest of the clocks of the commits of a list.
fn greatest_clock(made: &[Made], numbers: &[u32]) -> u64
    requires { All (λ number. number < length made.now) numbers.now }
    ensures { result ≡ greatest_made made.now numbers.now }
{
    let mut greatest = 0;
    for number in numbers {
        greatest = made[*number as usize].clock.max(greatest);
    }
    greatest
}

// The greatest of the clocks of the parents of the commit behind those of which something is kept.
fn parents_clock(graph: &Graph, made: &[Made]) -> u64
    requires there { length made.now < length graph.now.commits }
    requires few { length graph.now.commits < 2 ^ 32 }
    ensures { result ≡ greatest_made made.now (parents_of graph.now.commits (length made.now)) }
{
    greatest_clock(made, graph.parents(made.len() as u32))
}

// What is kept of the commit that a move makes behind the others, if it makes one.
fn made_by<O, R>(
    graph: &Graph,
    made: &[Made],
    origin: u32,
    place: usize,
    act: &Move<O, R>,
) -> Option<Made>
    requires few { length graph.now.commits < 2 ^ 32 }
    requires room { length made.now + commits_made_by act.now ≤ length graph.now.commits }
    requires fits { IfSome (made_by graph.now.commits made.now origin place act.now) IsInRange }
    ensures { result ≡ made_by graph.now.commits made.now origin place act.now }
{
    match act {
        Move::Operation { branch, .. } => Some(Made {
            origin: origin + *branch,
            clock: parents_clock(graph, made) + 1,
            place: Some(place),
        }),
        Move::Merge { branch, .. } | Move::Join { branch, .. } => Some(Made {
            origin: origin + *branch,
            clock: parents_clock(graph, made),
            place: Some(place),
        }),
        Move::Received { origin, clock, .. } => Some(Made {
            origin: *origin,
            clock: *clock,
            place: Some(place),
        }),
        _ => None,
    }
}

// Reads one move more, which stands at a place: puts what is kept of its commit behind the others.
fn read_move<O, R>(
    graph: &Graph,
    made: &mut Vec<Made>,
    origin: u32,
    place: usize,
    act: &Move<O, R>,
) -> Result<(), Memory>
    requires few { length graph.now.commits < 2 ^ 32 }
    requires room { length made.old.items + commits_made_by act.now ≤ length graph.now.commits }
    requires fits { IfSome (made_by graph.now.commits made.old.items origin place act.now)
        IsInRange }
    ensures { OnOk result (made.new.items ≡ made.old.items
        ++ at_most_one (made_by graph.now.commits made.old.items origin place act.now)) }
{
    if let Some(next) = made_by(graph, made, origin, place, act) {
        made.push(next)?;
    }
    Ok(())
}

// What is kept of the commits before any move.
fn read_none(alloc: Global) -> Result<Vec<Made>, Memory>
    ensures { IfOk result (λ made.
        made.items ≡ record { origin = 0; clock = 0; place = None } ∷ []) }
{
    let mut made = Vec::new(alloc);
    made.push(Made {
        origin: 0,
        clock: 0,
        place: None,
    })?;
    Ok(made)
}

// The commits of a valid history.
pub(crate) fn read_commits<T: Mrdt>(
    alloc: Global,
    terms: Terms,
    moves: &[Move<T::Op, T::Reply>],
) -> Result<Commits, Memory>
    requires { IsValid T.meaning terms moves.now }
    ensures { IfOk result (λ commits. AreRead moves.now (store_of terms.origin moves.now).commits
        commits.graph.commits commits.made.items) }
{
    keeps_limits::<T>();
    keeps_order::<T>();
    let graph = graph_of_moves::<T>(alloc, terms, moves)?;
    let mut made = read_none(alloc)?;
    for (place, act) in moves.iter().enumerate() {
        read_move(&graph, &mut made, terms.origin, place, act)?;
    }
    Ok(Commits { graph, made })
}
