ghost use Rattle.std.specs.Prelude.{◌≡◌, ◌<◌, ◌++◌, true, IfOk, OnOk};
ghost use Rattle.tp_base.specs.Limits.{STAMP_LIMIT, is_from};
ghost use Rattle.tp_process.specs.State.{IsState, identity, sheet_of};
ghost use Rattle.tp_rules.specs.Addresses.{is_name_of, site};
ghost use Rattle.tp_rules.specs.Process.{ProcessState, commit_messages, decided, on_propose_ack, put_to_vote, with_sheet};
ghost use Rattle.tp_rules.specs.Sheet.{Sheet, ring_rule};
ghost use Rattle.tp_wire.specs.Ranges.{IsProcess};

use crate::addresses::{other_processes, processes_of, send_each};
use crate::process::Process;
use crate::sheets::{acknowledge, command_at};
use tp_base::{ActorName, CommandId, Duplicate, NoMemory, Rank, Sequence, Stamp};
use tp_quorum::FastChoice;
use tp_rules::Outputs;
use tp_wire::Body;

impl Process {
    /// A member of the fast quorum tells its proposal.
    pub(crate) fn on_propose_ack(
        &mut self,
        from: ActorName,
        id: CommandId,
        stamp: Stamp,
    ) -> Result<Outputs, NoMemory>
        requires { is_name_of self.old.place.topology from ≡ true }
        ensures identity { identity self.new ≡ identity self.old }
        ensures outputs { IfOk result (λ outputs. (s : ProcessState) → IsState self.old s → IsProcess from
            → stamp.0 < STAMP_LIMIT
            → outputs ≡ (on_propose_ack (ring_rule self.old.place.topology) self.old.place.site from id stamp.0 s).1) }
        ensures state { OnOk result ((s : ProcessState) → IsState self.old s → IsProcess from → stamp.0 < STAMP_LIMIT
            → IsState self.new (on_propose_ack (ring_rule self.old.place.topology) self.old.place.site from id stamp.0
            s).0) }
    {
        match from {
            ActorName::Process(site) => self.count_proposal(site.rank, id, stamp),
            ActorName::Executor(_) | ActorName::Session(_) => Ok(self.nothing()),
        }
    }

    /// Counts a rank's proposal: with the last of the fast quorum, the choice is decided or put to
    /// the vote.
    fn count_proposal(
        &mut self,
        rank: Rank,
        id: CommandId,
        stamp: Stamp,
    ) -> Result<Outputs, NoMemory>
        ensures identity { identity self.new ≡ identity self.old }
        ensures outputs { IfOk result (λ outputs. (s : ProcessState) → IsState self.old s
            → is_from 1 self.old.place.topology.replicas rank.0 ≡ true → stamp.0 < STAMP_LIMIT
            → outputs ≡ (on_propose_ack (ring_rule self.old.place.topology) self.old.place.site
            (ActorName.Process (site 0 rank.0)) id stamp.0 s).1) }
        ensures state { OnOk result ((s : ProcessState) → IsState self.old s
            → is_from 1 self.old.place.topology.replicas rank.0 ≡ true → stamp.0 < STAMP_LIMIT
            → IsState self.new (on_propose_ack (ring_rule self.old.place.topology) self.old.place.site
            (ActorName.Process (site 0 rank.0)) id stamp.0 s).0) }
    {
        match acknowledge(&mut self.sheets, &self.place, id, rank, stamp) {
            Some(FastChoice::Fast(top)) => self.decide(id, top),
            Some(FastChoice::Slow(top)) => {
                self.put_to_vote(id, u64::from(self.place.site.rank.0), top)
            }
            None => Ok(self.nothing()),
        }
    }

    /// Tells the partition's stamp to all other processes of the command, and learns it here.
    pub(crate) fn decide(&mut self, id: CommandId, stamp: Stamp) -> Result<Outputs, NoMemory>
        ensures identity { identity self.new ≡ identity self.old }
        ensures outputs { IfOk result (λ outputs. (s : ProcessState) → (sheet : Sheet)
            → IsState self.old (with_sheet id sheet s) → stamp.0 < STAMP_LIMIT
            → outputs ≡ (decided self.old.place.topology self.old.place.site id stamp.0 sheet s).1) }
        ensures state { OnOk result ((s : ProcessState) → (sheet : Sheet) → IsState self.old (with_sheet id sheet s)
            → stamp.0 < STAMP_LIMIT
            → IsState self.new (decided self.old.place.topology self.old.place.site id stamp.0 sheet s).0) }
    {
        let mut outputs = Sequence::new(self.alloc);
        self.tell_commit(&mut outputs, id, stamp)?;
        let partition = self.place.partition();
        self.learn(&mut outputs, id, partition, stamp)?;
        Ok(outputs)
    }

    #[tactic(auto, unfolding(tp_rules::specs::Process::commit_messages))]
    fn tell_commit(
        &self,
        outputs: &mut Outputs,
        id: CommandId,
        stamp: Stamp,
    ) -> Result<(), NoMemory>
        ensures { OnOk result (outputs.new ≡ outputs.old ++ commit_messages self.now.place.topology self.now.place.site
            (sheet_of self.now id).sheet.command stamp.0) }
    {
        match command_at(&self.sheets, &self.place, id) {
            Some(command) => {
                let names = other_processes(self.alloc, &self.place, command)?;
                let body = Body::MCommit {
                    command: command.copy()?,
                    partition: self.place.site.partition,
                    stamp,
                };
                send_each(outputs, self.place.name(), names.as_slice(), &body)
            }
            None => Ok(()),
        }
    }

    /// Puts a stamp to the vote of all ranks, at a ballot.
    pub(crate) fn put_to_vote(
        &self,
        id: CommandId,
        ballot: u64,
        stamp: Stamp,
    ) -> Result<Outputs, NoMemory>
        ensures { IfOk result (λ outputs. outputs
            ≡ put_to_vote self.now.place.topology self.now.place.site ballot stamp.0
            (sheet_of self.now id).sheet.command) }
    {
        let mut outputs = Sequence::new(self.alloc);
        if let Some(command) = command_at(&self.sheets, &self.place, id) {
            let place = &self.place;
            let names = processes_of(self.alloc, &place.topology, place.site.partition)?;
            let body = Body::MConsensus {
                command: command.copy()?,
                stamp,
                ballot,
            };
            send_each(&mut outputs, place.name(), names.as_slice(), &body)?;
        }
        Ok(outputs)
    }
}
