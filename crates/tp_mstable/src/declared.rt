ghost use Rattle.std.specs.Prelude.{◌≡◌, ◌∷◌, [], OnOk, OnErr};
ghost use Rattle.tp_base.specs.Lists.{has};
ghost use Rattle.tp_base.specs.Names.{same_id};
ghost use Rattle.tp_mstable.specs.Declarations.{Calls, Keeps, is_heard};

use indexmap::IndexSet;
use std::alloc::Global;
use tp_base::{CommandId, NoMemory, PartitionId};

/// A command that was heard of from a partition.
#[derive(Clone, Copy, Debug, PartialEq, Eq, Hash)]
struct Heard {
    id: CommandId,
    partition: PartitionId,
}

/// What an executor declared, and what it heard from those of other partitions.
#[derive(Drop)]
pub struct Declared {
    sent: IndexSet<CommandId>,
    heard: IndexSet<Heard>,
}

impl Declared {
    /// With nothing declared or heard. It takes no memory.
    pub fn new(alloc: Global) -> Declared
        ensures { Keeps result (record { sent = []; heard = [] }) }
    {
        Declared {
            sent: IndexSet::new(alloc),
            heard: IndexSet::new(alloc),
        }
    }

    /// Declares a command.
    pub fn send(&mut self, id: CommandId) -> Result<(), NoMemory>
        ensures sent { OnOk result ((calls : Calls) → Keeps self.old calls → Keeps self.new (record { sent = id ∷ calls.sent; heard = calls.heard })) }
        ensures same { OnErr result ((calls : Calls) → Keeps self.old calls → Keeps self.new calls) }
    {
        self.sent.insert(id)?;
        Ok(())
    }

    /// Hears of a command from a partition.
    pub fn heard(&mut self, id: CommandId, p: PartitionId) -> Result<(), NoMemory>
        ensures heard { OnOk result ((calls : Calls) → Keeps self.old calls → Keeps self.new (record { sent = calls.sent; heard = record { id = id; partition = p.0 } ∷ calls.heard })) }
        ensures same { OnErr result ((calls : Calls) → Keeps self.old calls → Keeps self.new calls) }
    {
        self.heard.insert(Heard { id, partition: p })?;
        Ok(())
    }

    /// Whether a command was declared.
    pub fn sent(&self, id: CommandId) -> bool
        ensures { (calls : Calls) → Keeps self.now calls → result ≡ has same_id id calls.sent }
    {
        self.sent.contains(&id)
    }

    /// Whether a command was heard of from a partition.
    pub fn has(&self, id: CommandId, p: PartitionId) -> bool
        ensures { (calls : Calls) → Keeps self.now calls → result ≡ is_heard calls.heard id p.0 }
    {
        self.heard.contains(&Heard { id, partition: p })
    }
}
