ghost use Rattle.std.specs.Prelude.{◌≡◌, ◌≤◌, ◌<◌, ◌++◌, true, IfOk, OnOk};
ghost use Rattle.tp_base.specs.Limits.{STAMP_LIMIT, is_from};
ghost use Rattle.tp_process.specs.State.{IsState, committed, identity, sheet_of};
ghost use Rattle.tp_rules.specs.Addresses.{is_command_at};
ghost use Rattle.tp_rules.specs.Process.{ProcessState, learned, on_commit, with_sheet};
ghost use Rattle.tp_rules.specs.Sheet.{Sheet, ring_rule};

use crate::process::Process;
use crate::sheets::{command_at, keep, learn};
use tp_base::{ActorName, CommandId, Duplicate, NoMemory, PartitionId, Stamp};
use tp_ops::{Command, accesses};
use tp_rules::Outputs;
use tp_wire::{Body, Message};

impl Process {
    /// A partition's stamp of a command is told.
    pub(crate) fn on_commit(
        &mut self,
        command: &Command,
        partition: PartitionId,
        stamp: Stamp,
    ) -> Result<Outputs, NoMemory>
        requires command { is_command_at self.old.place.topology self.old.place.site.partition.0 command.now ≡ true }
        requires partition { is_from 1 self.old.place.topology.partitions partition.0 ≡ true }
        ensures identity { identity self.new ≡ identity self.old }
        ensures outputs { IfOk result (λ outputs. (s : ProcessState) → IsState self.old s → stamp.0 < STAMP_LIMIT
            → outputs
            ≡ (on_commit (ring_rule self.old.place.topology) self.old.place.site command.now partition.0 stamp.0 s).1) }
        ensures state { OnOk result ((s : ProcessState) → IsState self.old s → stamp.0 < STAMP_LIMIT
            → IsState self.new (on_commit (ring_rule self.old.place.topology) self.old.place.site command.now
            partition.0 stamp.0 s).0) }
    {
        if !accesses(command, self.place.topology.partitions(), partition) {
            return Ok(self.nothing());
        }
        let mut outputs = self.nothing();
        keep(&mut self.sheets, &self.place, command.copy()?)?;
        self.learn(&mut outputs, command.id, partition, stamp)?;
        Ok(outputs)
    }

    /// Learns a partition's stamp. With the last one the final stamp is told to the executor.
    pub(crate) fn learn(
        &mut self,
        outputs: &mut Outputs,
        id: CommandId,
        partition: PartitionId,
        stamp: Stamp,
    ) -> Result<(), NoMemory>
        requires some { 1 ≤ partition.0 }
        requires few { partition.0 ≤ 4 }
        ensures identity { identity self.new ≡ identity self.old }
        ensures outputs { OnOk result ((s : ProcessState) → (sheet : Sheet) → IsState self.old (with_sheet id sheet s)
            → stamp.0 < STAMP_LIMIT
            → outputs.new
            ≡ outputs.old ++ (learned self.old.place.topology self.old.place.site id partition.0 stamp.0 sheet s).1) }
        ensures state { OnOk result ((s : ProcessState) → (sheet : Sheet) → IsState self.old (with_sheet id sheet s)
            → stamp.0 < STAMP_LIMIT
            → IsState self.new (learned self.old.place.topology self.old.place.site id partition.0 stamp.0 sheet s).0) }
    {
        match learn(&mut self.sheets, &self.place, id, partition, stamp)? {
            Some(last) => {
                self.tell_executor(outputs, id, last)?;
                self.bump(last);
                Ok(())
            }
            None => Ok(()),
        }
    }

    fn tell_executor(
        &self,
        outputs: &mut Outputs,
        id: CommandId,
        stamp: Stamp,
    ) -> Result<(), NoMemory>
        ensures { OnOk result (outputs.new ≡ outputs.old ++ committed self.now.place.site
            (sheet_of self.now id).sheet.command stamp.0) }
    {
        match command_at(&self.sheets, &self.place, id) {
            Some(command) => outputs.add(Message {
                from: self.place.name(),
                to: ActorName::Executor(self.place.site),
                body: Body::MCommitted {
                    command: command.copy()?,
                    stamp,
                },
            }),
            None => Ok(()),
        }
    }
}
