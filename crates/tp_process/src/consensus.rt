ghost use Rattle.std.specs.Prelude.{◌≡◌, ◌<◌, ◌∷◌, [], true, IfOk, OnOk};
ghost use Rattle.tp_base.specs.Limits.{STAMP_LIMIT as the_limit, is_from};
ghost use Rattle.tp_process.specs.State.{IsState, identity};
ghost use Rattle.tp_rules.specs.Addresses.{is_command_at, is_name_of, message, site};
ghost use Rattle.tp_rules.specs.Process.{ProcessState, on_consensus, on_consensus_ack};
ghost use Rattle.tp_rules.specs.Sheet.{ring_rule};
ghost use Rattle.tp_wire.specs.Ranges.{IsProcess};

use crate::process::Process;
use crate::sheets::{accept, keep, vote};
use tp_base::{ActorName, CommandId, Duplicate, NoMemory, Rank, STAMP_LIMIT, Stamp};
use tp_ops::Command;
use tp_rules::Outputs;
use tp_wire::{Body, Message};

impl Process {
    /// A stamp is put to the vote at a ballot.
    pub(crate) fn on_consensus(
        &mut self,
        from: ActorName,
        command: &Command,
        stamp: Stamp,
        ballot: u64,
    ) -> Result<Outputs, NoMemory>
        requires { is_command_at self.old.place.topology self.old.place.site.partition.0 command.now ≡ true }
        ensures identity { identity self.new ≡ identity self.old }
        ensures outputs { IfOk result (λ outputs. (s : ProcessState) → IsState self.old s
            → outputs ≡ (on_consensus self.old.place.site from command.now stamp.0 ballot s).1) }
        ensures state { OnOk result ((s : ProcessState) → IsState self.old s → stamp.0 < the_limit
            → IsState self.new (on_consensus self.old.place.site from command.now stamp.0 ballot s).0) }
    {
        if STAMP_LIMIT <= ballot {
            return Ok(self.nothing());
        }
        let accepted = accept(&mut self.sheets, &self.place, command.id, stamp, ballot)?;
        if !accepted {
            return Ok(self.nothing());
        }
        keep(&mut self.sheets, &self.place, command.copy()?)?;
        let outputs = self.agreement(from, command.id, ballot)?;
        self.bump(stamp);
        Ok(outputs)
    }

    /// A rank votes for what is put.
    pub(crate) fn on_consensus_ack(
        &mut self,
        from: ActorName,
        id: CommandId,
        ballot: u64,
    ) -> Result<Outputs, NoMemory>
        requires { is_name_of self.old.place.topology from ≡ true }
        ensures identity { identity self.new ≡ identity self.old }
        ensures outputs { IfOk result (λ outputs. (s : ProcessState) → IsState self.old s → IsProcess from
            → outputs ≡ (on_consensus_ack (ring_rule self.old.place.topology) self.old.place.site from id ballot s).1) }
        ensures state { OnOk result ((s : ProcessState) → IsState self.old s → IsProcess from
            → IsState self.new (on_consensus_ack (ring_rule self.old.place.topology) self.old.place.site from id ballot
            s).0) }
    {
        match from {
            ActorName::Process(site) => self.count_vote(site.rank, id, ballot),
            ActorName::Executor(_) | ActorName::Session(_) => Ok(self.nothing()),
        }
    }

    /// Counts a rank's vote: with the last of a consensus quorum, the stamp that is put is decided.
    fn count_vote(&mut self, rank: Rank, id: CommandId, ballot: u64) -> Result<Outputs, NoMemory>
        ensures identity { identity self.new ≡ identity self.old }
        ensures outputs { IfOk result (λ outputs. (s : ProcessState) → IsState self.old s
            → is_from 1 self.old.place.topology.replicas rank.0 ≡ true
            → outputs ≡ (on_consensus_ack (ring_rule self.old.place.topology) self.old.place.site
            (ActorName.Process (site 0 rank.0)) id ballot s).1) }
        ensures state { OnOk result ((s : ProcessState) → IsState self.old s
            → is_from 1 self.old.place.topology.replicas rank.0 ≡ true
            → IsState self.new (on_consensus_ack (ring_rule self.old.place.topology) self.old.place.site
            (ActorName.Process (site 0 rank.0)) id ballot s).0) }
    {
        match vote(&mut self.sheets, &self.place, id, rank, ballot) {
            Some(stamp) => self.decide(id, stamp),
            None => Ok(self.nothing()),
        }
    }

    /// The vote for what a rank puts at a ballot.
    fn agreement(&self, from: ActorName, id: CommandId, ballot: u64) -> Result<Outputs, NoMemory>
        ensures { IfOk result (λ outputs. outputs ≡ message (ActorName.Process self.now.place.site) from
            (Body.MConsensusAck id ballot) ∷ []) }
    {
        let mut outputs = self.room(1)?;
        outputs.add(Message {
            from: self.place.name(),
            to: from,
            body: Body::MConsensusAck { id, ballot },
        })?;
        Ok(outputs)
    }
}
