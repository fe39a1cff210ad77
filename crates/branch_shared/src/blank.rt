// A store that has no name yet.
ghost use Rattle.std.specs.Prelude.{◌≡◌, ◌<◌, ◌≤◌, [], IfOk, IfErr};
ghost use Rattle.branch_shared.specs.Keeps.{faults_since};

use crate::job::Job;
use crate::name::EntryOf;
use branch_address::Address;
use branch_disk::Disk;
use branch_front::{Front, Told, Writer};
use mrdt_model::{Memory, Mrdt};
use std::alloc::Global;
use std::marker::{Brand, Model};
use store_core::Core;

/// A core that threads are to share, with a front and a queue of jobs of its own, under no name yet. Contracts see a
/// `BlankView`.
#[derive(Drop)]
pub struct Blank<T: Mrdt, D: Disk + Drop, A: Address> {
    pub(crate) alloc: Global,
    pub(crate) core: Core<T, D, A>,
    pub(crate) front: Front<EntryOf<T>>,
    pub(crate) writer: Writer<EntryOf<T>>,
    pub(crate) begun: u64,
    pub(crate) queue: branch_batch::Blank<Job<T, A>>,
}

impl<T: Mrdt, D: Disk + Drop, A: Address> Model for Blank<T, D, A> {
    ghost use Rattle.std.specs.Prelude.{◌≡◌, ◌<◌, length};
    ghost use Rattle.branch_history.specs.declared.moves.Move.{Move};
    ghost use Rattle.branch_shared.specs.Keeps.{faults_since, first_writer};
    ghost use Rattle.branch_shared.specs.Names.{BlankView};

    ghost Value = { BlankView (Move T.Op T.Reply) D };

    ghost view = { λ b. record {
      table = b.front.table;
      queue = b.queue;
      core = b.core;
      parts = b.front.parts;
      opened = D.faults b.core.opened;
    } };

    ghost invariant = { λ b.
        (b.writer ≡ first_writer b.front.table b.front.parts (faults_since D.faults b.core))
        × (b.begun ≡ length b.core.history) × (b.front.begun ≡ b.begun) × (0 < b.front.parts) };
}

impl<T: Mrdt, D: Disk + Drop, A: Address> Blank<T, D, A> {
    /// A core with a front of so many parts. Where memory is short, the core comes back as it was.
    pub fn new(
        alloc: Global,
        core: Core<T, D, A>,
        parts: u64,
    ) -> Result<Blank<T, D, A>, (Core<T, D, A>, Memory)>
        requires parts { 0 < parts }
        ensures made { IfOk result (λ blank. blank ≡ record {
          table = blank.table;
          queue = blank.queue;
          core = core;
          parts = parts;
          opened = D.faults core.opened;
        }) }
        ensures same { IfErr result (λ refused. refused.0 ≡ core) }
    {
        let begun = core.moves();
        let queue = match branch_batch::Blank::new(alloc) {
            Ok(queue) => queue,
            Err(memory) => return Err((core, memory)),
        };
        match Front::new(alloc, begun, parts) {
            Ok((front, mut writer)) => {
                note_faults(&front, &mut writer, &core);
                Ok(Blank {
                    alloc,
                    core,
                    front,
                    writer,
                    begun,
                    queue,
                })
            }
            Err(memory) => Err((core, memory)),
        }
    }
}

// The writer learns how often the core's disk has failed.
pub(crate) fn note_faults<T: Mrdt, D: Disk + Drop, A: Address>(
    front: &Front<EntryOf<T>>,
    writer: &mut Writer<EntryOf<T>>,
    core: &Core<T, D, A>,
)
    requires table { writer.old.table ≡ front.now.table }
    requires rise { writer.old.faults ≤ faults_since D.faults core.now }
    ensures { writer.new ≡ record writer.old { faults = faults_since D.faults core.now } }
{
    note_faults_as::<T, D, A, Brand>(front, writer, core);
}

fn note_faults_as<T: Mrdt, D: Disk + Drop, A: Address, E: Told<EntryOf<T>>>(
    front: &Front<EntryOf<T>>,
    writer: &mut Writer<EntryOf<T>>,
    core: &Core<T, D, A>,
)
    requires table { writer.old.table ≡ front.now.table }
    requires rise { writer.old.faults ≤ faults_since D.faults core.now }
    requires told { E.faults ≡ faults_since D.faults core.now }
    ensures { writer.new ≡ record writer.old { faults = faults_since D.faults core.now } }
{
    let _ = core;
    writer.note_faults::<E>(front);
}
