// The queue: the front of its jobs, and what lies under its lock.
ghost use Rattle.std.specs.Prelude.{◌≡◌, ◌≤◌, ◌^◌, [], length, map, vec_capacity, IfOk, IfErr};
ghost use Rattle.branch_batch.specs.Lists.{RisesFrom};

use crate::line::Line;
use crate::service::Service;
use crate::ticket::{Finished, Ticket, Waiting};
use branch_front::{Front, Pass, Writer};
use mrdt_model::Memory;
use std::alloc::Global;
use std::marker::Model;
use std::sync::{Mutex, Wait};

/// An empty queue under no name yet. Contracts see which front it is.
#[derive(Drop)]
pub struct Blank<J> {
    alloc: Global,
    front: Front<J>,
    writer: Writer<J>,
    pass: Pass<J>,
}

impl<J> Model for Blank<J> {
    ghost use Rattle.std.specs.Prelude.{◌≡◌, []};
    ghost use Rattle.atomic_table.specs.Seated.{TableId};
    ghost use Rattle.branch_batch.specs.Tickets.{front_of};
    ghost use Rattle.branch_batch.specs.Lines.{HasWritten};

    ghost Value = { TableId };

    ghost view = { λ b. b.front.table };

    ghost invariant = { λ b. (b.front ≡ front_of b.front.table)
        × HasWritten b.front.table 0 b.writer b.pass };
}

impl<J> Blank<J> {
    /// An empty queue, or `Memory`.
    pub fn new(alloc: Global) -> Result<Blank<J>, Memory> {
        let (front, mut writer) = Front::new(alloc, 0, 1)?;
        let pass = writer.first(&front);
        Ok(Blank {
            alloc,
            front,
            writer,
            pass,
        })
    }
}

/// A queue that threads share by reference. Contracts see the `Opening` of its front.
///
/// A job that nobody takes stays until the queue is dropped, and so does a result that nobody takes out.
#[derive(Drop)]
pub struct Queue<J: Drop, R: Drop, S: Service<J, R>> {
    front: Front<J>,
    line: Mutex<Line<J, R, S>>,
}

impl<J: Drop, R: Drop, S: Service<J, R>> Model for Queue<J, R, S> {
    ghost use Rattle.std.specs.Prelude.{◌≡◌};
    ghost use Rattle.branch_front.specs.Views.{Opening};
    ghost use Rattle.branch_batch.specs.Tickets.{front_of};

    ghost Value = { Opening };

    ghost view = { λ q. q.front };

    ghost invariant = { λ q. q.front ≡ front_of S.table };
}

impl<J: Drop, R: Drop, S: Service<J, R>> Queue<J, R, S> {
    /// The queue under its name.
    pub fn new(blank: Blank<J>) -> Queue<J, R, S>
        requires name { blank ≡ S.table }
    {
        let Blank {
            alloc,
            front,
            writer,
            pass,
        } = blank;
        Queue {
            front,
            line: Mutex::new(Line::new(alloc, writer, pass)),
        }
    }

    /// Puts a job behind all others, with room for its result, and gives the ticket for it.
    ///
    /// The job comes back as it was where there is no memory. It does so too once the numbers are used up, behind 2^64 - 1
    /// jobs, which no run puts.
    pub fn put<W: Wait>(&self, rt: &W, job: J) -> Result<Ticket<J, R, S>, J>
        requires takes { S.takes job }
        ensures ticket { IfOk result (λ ticket. ticket.job ≡ job) }
        ensures back { IfErr result (λ back. back ≡ job) }
    {
        self.line.lock(rt).put(&self.front, job)
    }

    /// Takes jobs to be done: the ticket's own, if it waits, and the first others, at most 64 in all, in the order in which
    /// they were put. They are left in `batch`, which has the room for them.
    pub fn take<W: Wait>(&self, rt: &W, ticket: &Ticket<J, R, S>, batch: &mut Vec<Waiting<J, R, S>>)
        requires empty { batch.old.items ≡ [] }
        requires room { 64 ≤ vec_capacity batch.old }
        ensures few { length batch.new.items ≤ 64 }
        ensures order { RisesFrom 0 (map (λ job. job.number) batch.new.items) (2 ^ 64) }
    {
        self.line.lock(rt).take(ticket.claim.number, batch);
    }

    /// Gives results back, each under the number of its job. It takes no memory.
    pub fn give<W: Wait>(&self, rt: &W, finished: Vec<Finished<J, R, S>>) {
        self.line.lock(rt).give(finished);
    }

    /// Takes the result of the ticket's job out, if it is there. Else the ticket comes back.
    pub fn take_out<W: Wait>(&self, rt: &W, ticket: Ticket<J, R, S>) -> Result<R, Ticket<J, R, S>>
        ensures serves { IfOk result (λ answer. S.serves ticket.job answer) }
        ensures back { IfErr result (λ back. back ≡ ticket) }
    {
        self.line.lock(rt).take_out(&self.front, ticket)
    }

    /// Takes the ticket's job out again, if it still waits, with the room for its result. Else the ticket comes back.
    pub fn withdraw<W: Wait>(&self, rt: &W, ticket: Ticket<J, R, S>) -> Result<J, Ticket<J, R, S>>
        ensures job { IfOk result (λ job. job ≡ ticket.job) }
        ensures back { IfErr result (λ back. back ≡ ticket) }
    {
        self.line.lock(rt).withdraw(&self.front, ticket)
    }
}
