ghost use Rattle.std.specs.Prelude.{◌≡◌, ◌<◌, ◌-◌, ◌∷◌, ◌&&◌, [], nat_lt, true, Option, None, IfOk, OnOk};
ghost use Rattle.tp_base.specs.Limits.{STAMP_LIMIT as the_limit, is_from};
ghost use Rattle.tp_process.specs.State.{IsState, agreed_above, answer_with, identity, sheet_of};
ghost use Rattle.tp_rules.specs.Addresses.{is_command_at, is_name_of, site};
ghost use Rattle.tp_rules.specs.Process.{ProcessState, asked, bumps, next_stamp, on_rec, on_rec_ack, on_rec_by_stamp, on_recover, propose_and_answer, commit_reply, with_room};
ghost use Rattle.tp_rules.specs.Sheet.{command_or as kept_or, ring_rule, stamp_of};
ghost use Rattle.tp_wire.specs.Ranges.{IsProcess};

use crate::addresses::{processes_of, send_each};
use crate::process::Process;
use crate::sheets::{
    answer, command_at, is_fresh, keep, promise, propose_for_recovery, recover, stamp_at,
};
use tp_base::{ActorName, CommandId, Duplicate, Made, NoMemory, Rank, STAMP_LIMIT, Stamp};
use tp_choice::RecoveryAnswer;
use tp_ops::Command;
use tp_rules::Outputs;
use tp_wire::{Body, Message};

impl Process {
    /// The site recovers a command: all ranks are asked at the next ballot.
    pub(crate) fn on_recover(&mut self, id: CommandId) -> Result<Outputs, NoMemory>
        ensures identity { identity self.new ≡ identity self.old }
        ensures outputs { IfOk result (λ outputs. (s : ProcessState) → IsState self.old s
            → outputs ≡ (on_recover self.old.place.topology self.old.place.site id s).1) }
        ensures state { OnOk result ((s : ProcessState) → IsState self.old s
            → IsState self.new (on_recover self.old.place.topology self.old.place.site id s).0) }
    {
        match recover(&mut self.sheets, &self.place, id) {
            Some(ballot) => self.ask(id, ballot),
            None => Ok(self.nothing()),
        }
    }

    /// A rank recovers a command at a ballot.
    pub(crate) fn on_rec(
        &mut self,
        from: ActorName,
        command: &Command,
        ballot: u64,
    ) -> Result<Outputs, NoMemory>
        requires { is_command_at self.old.place.topology self.old.place.site.partition.0 command.now ≡ true }
        ensures identity { identity self.new ≡ identity self.old }
        ensures outputs { IfOk result (λ outputs. (s : ProcessState) → IsState self.old s
            → outputs
            ≡ (with_room s (on_rec (ring_rule self.old.place.topology) self.old.place.site from command.now ballot
            s)).1) }
        ensures state { OnOk result ((s : ProcessState) → IsState self.old s
            → IsState self.new (with_room s (on_rec
            (ring_rule self.old.place.topology) self.old.place.site from command.now ballot s)).0) }
    {
        let partition = self.place.site.partition;
        match stamp_at(&self.sheets, &self.place, command.id, partition) {
            Some(stamp) => self.tell_stamp(from, command.id, stamp),
            None => self.answer_recovery(from, command, ballot),
        }
    }

    /// A rank answers the own recovery.
    pub(crate) fn on_rec_ack(
        &mut self,
        from: ActorName,
        id: CommandId,
        stamp: Stamp,
        made: Made,
        accepted: u64,
        ballot: u64,
    ) -> Result<Outputs, NoMemory>
        requires { is_name_of self.old.place.topology from ≡ true }
        ensures identity { identity self.new ≡ identity self.old }
        ensures outputs { IfOk result (λ outputs. (s : ProcessState) → IsState self.old s → IsProcess from
            → stamp.0 < the_limit
            → outputs
            ≡ (on_rec_ack (ring_rule self.old.place.topology) self.old.place.site from id stamp.0 made accepted ballot
            s).1) }
        ensures state { OnOk result ((s : ProcessState) → IsState self.old s → IsProcess from → stamp.0 < the_limit
            → IsState self.new (on_rec_ack (ring_rule self.old.place.topology) self.old.place.site from id stamp.0 made
            accepted ballot s).0) }
    {
        match from {
            ActorName::Process(site) => {
                let told = RecoveryAnswer {
                    rank: site.rank,
                    stamp,
                    made,
                    accepted,
                };
                self.count_answer(id, told, ballot)
            }
            ActorName::Executor(_) | ActorName::Session(_) => Ok(self.nothing()),
        }
    }

    /// Counts a rank's answer: with the last of a recovery quorum, the choice is put to the vote.
    fn count_answer(
        &mut self,
        id: CommandId,
        told: RecoveryAnswer,
        ballot: u64,
    ) -> Result<Outputs, NoMemory>
        ensures identity { identity self.new ≡ identity self.old }
        ensures outputs { IfOk result (λ outputs. (s : ProcessState) → IsState self.old s
            → is_from 1 self.old.place.topology.replicas told.rank.0 ≡ true → told.stamp.0 < the_limit
            → outputs ≡ (on_rec_ack (ring_rule self.old.place.topology) self.old.place.site
            (ActorName.Process (site 0 told.rank.0)) id told.stamp.0 told.made told.accepted ballot s).1) }
        ensures state { OnOk result ((s : ProcessState) → IsState self.old s
            → is_from 1 self.old.place.topology.replicas told.rank.0 ≡ true → told.stamp.0 < the_limit
            → IsState self.new (on_rec_ack (ring_rule self.old.place.topology) self.old.place.site
            (ActorName.Process (site 0 told.rank.0)) id told.stamp.0 told.made told.accepted ballot s).0) }
    {
        match answer(&mut self.sheets, &self.place, id, told, ballot) {
            Some(stamp) => self.put_to_vote(id, ballot, stamp),
            None => Ok(self.nothing()),
        }
    }

    /// Answers a recovery at a ballot above the own one, with a proposal made first where there is
    /// nothing to tell.
    fn answer_recovery(
        &mut self,
        from: ActorName,
        command: &Command,
        ballot: u64,
    ) -> Result<Outputs, NoMemory>
        requires command { is_command_at self.old.place.topology self.old.place.site.partition.0 command.now ≡ true }
        requires unknown { stamp_of (sheet_of self.old command.now.id).sheet self.old.place.site.partition.0 ≡ None }
        ensures identity { identity self.new ≡ identity self.old }
        ensures outputs { IfOk result (λ outputs. (s : ProcessState) → IsState self.old s
            → outputs ≡ (with_room s (on_rec_by_stamp
            (ring_rule self.old.place.topology) self.old.place.site from command.now ballot None s)).1) }
        ensures state { OnOk result ((s : ProcessState) → IsState self.old s
            → IsState self.new (with_room s (on_rec_by_stamp
            (ring_rule self.old.place.topology) self.old.place.site from command.now ballot None s)).0) }
    {
        if !is_tried(ballot) {
            return Ok(self.nothing());
        }
        if !is_fresh(&self.sheets, &self.place, command.id) {
            return self.answer_with_old_proposal(from, command, ballot);
        }
        if !self.has_room() {
            return Ok(self.nothing());
        }
        self.propose_and_answer(from, command, ballot)
    }

    /// Answers a recovery at a ballot above the own one with what there is to tell.
    fn answer_with_old_proposal(
        &mut self,
        from: ActorName,
        command: &Command,
        ballot: u64,
    ) -> Result<Outputs, NoMemory>
        requires { is_command_at self.old.place.topology self.old.place.site.partition.0 command.now ≡ true }
        ensures identity { identity self.new ≡ identity self.old }
        ensures outputs { IfOk result (λ outputs. (s : ProcessState) → IsState self.old s
            → outputs ≡ (agreed_above self.old.place.site from command.now ballot s).1) }
        ensures state { OnOk result ((s : ProcessState) → IsState self.old s
            → IsState self.new (agreed_above self.old.place.site from command.now ballot s).0) }
    {
        match promise(&mut self.sheets, &self.place, command.id, ballot)? {
            Some(told) => {
                keep(&mut self.sheets, &self.place, command.copy()?)?;
                let mut outputs = self.nothing();
                outputs.add(self.answer(from, command.id, told, ballot))?;
                Ok(outputs)
            }
            None => Ok(self.nothing()),
        }
    }

    /// Proposes first, and answers a recovery with that.
    fn propose_and_answer(
        &mut self,
        from: ActorName,
        command: &Command,
        ballot: u64,
    ) -> Result<Outputs, NoMemory>
        requires command { is_command_at self.old.place.topology self.old.place.site.partition.0 command.now ≡ true }
        requires above { nat_lt (sheet_of self.old command.now.id).sheet.ballot ballot ≡ true }
        requires room { nat_lt self.old.clock.clock (the_limit - 1) ≡ true }
        ensures identity { identity self.new ≡ identity self.old }
        ensures outputs { IfOk result (λ outputs. (s : ProcessState) → IsState self.old s
            → outputs
            ≡ (propose_and_answer (ring_rule self.old.place.topology) self.old.place.site from command.now ballot
            (next_stamp 0 s) (s.sheets command.now.id) s).1) }
        ensures state { OnOk result ((s : ProcessState) → IsState self.old s
            → IsState self.new (propose_and_answer
            (ring_rule self.old.place.topology) self.old.place.site from command.now ballot (next_stamp 0 s)
            (s.sheets command.now.id) s).0) }
    {
        let stamp = self.clock.propose(0);
        let copy = command.copy()?;
        match propose_for_recovery(&mut self.sheets, &self.place, copy, ballot, stamp)? {
            Some(told) => {
                let outputs = self.late_answer(from, command, told, ballot, stamp)?;
                self.promise(command.id, stamp)?;
                Ok(outputs)
            }
            None => Ok(self.nothing()),
        }
    }

    /// The answer to a recovery that a proposal was made for, with the bumps of the proposal.
    fn late_answer(
        &self,
        from: ActorName,
        command: &Command,
        told: RecoveryAnswer,
        ballot: u64,
        stamp: Stamp,
    ) -> Result<Outputs, NoMemory>
        ensures { IfOk result (λ outputs. outputs
            ≡ answer_with self.now.place.site from command.now.id ballot told
            ∷ bumps self.now.place.topology self.now.place.site
            (kept_or command.now (sheet_of self.now command.now.id).sheet) stamp.0) }
    {
        let mut outputs = self.nothing();
        outputs.add(self.answer(from, command.id, told, ballot))?;
        self.tell_bumps(&mut outputs, command, stamp)?;
        Ok(outputs)
    }

    fn answer(&self, from: ActorName, id: CommandId, told: RecoveryAnswer, ballot: u64) -> Message
        ensures { result ≡ answer_with self.now.place.site from id ballot told }
    {
        Message {
            from: self.place.name(),
            to: from,
            body: Body::MRecAck {
                id,
                stamp: told.stamp,
                made: told.made,
                accepted: told.accepted,
                ballot,
            },
        }
    }

    /// Tells the partition's stamp of a command to the one that recovers it.
    fn tell_stamp(&self, from: ActorName, id: CommandId, stamp: Stamp) -> Result<Outputs, NoMemory>
        ensures { IfOk result (λ outputs. outputs ≡ commit_reply self.now.place.site from
            (sheet_of self.now id).sheet.command stamp.0) }
    {
        let mut outputs = self.nothing();
        if let Some(command) = command_at(&self.sheets, &self.place, id) {
            outputs.add(Message {
                from: self.place.name(),
                to: from,
                body: Body::MCommit {
                    command: command.copy()?,
                    partition: self.place.site.partition,
                    stamp,
                },
            })?;
        }
        Ok(outputs)
    }

    /// Asks all ranks for what they know of a command, at a ballot.
    fn ask(&self, id: CommandId, ballot: u64) -> Result<Outputs, NoMemory>
        ensures { IfOk result (λ outputs. outputs ≡ asked self.now.place.topology self.now.place.site ballot
            (sheet_of self.now id).sheet.command) }
    {
        let mut outputs = self.nothing();
        if let Some(command) = command_at(&self.sheets, &self.place, id) {
            let place = &self.place;
            let names = processes_of(self.alloc, &place.topology, place.site.partition)?;
            let body = Body::MRec {
                command: command.copy()?,
                ballot,
            };
            send_each(&mut outputs, place.name(), names.as_slice(), &body)?;
        }
        Ok(outputs)
    }
}

/// Whether a recovery may try a ballot.
fn is_tried(ballot: u64) -> bool
    ensures { result ≡ (nat_lt 0 ballot && nat_lt ballot the_limit) }
{
    0 < ballot && ballot < STAMP_LIMIT
}
