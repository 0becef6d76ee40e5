ghost use Rattle.std.specs.Prelude.{◌≡◌, ◌≤◌, ◌<◌, ◌++◌, ◌∷◌, [], true, cond, IfOk, OnOk};
ghost use Rattle.tp_base.specs.Limits.{STAMP_LIMIT as the_limit};
ghost use Rattle.tp_process.specs.State.{IsState, identity, sheet_of, takes_proposal, takes_submission};
ghost use Rattle.tp_rules.specs.Addresses.{is_command_at, message};
ghost use Rattle.tp_rules.specs.Process.{ProcessState, bumps, on_bump, on_payload, on_propose, on_submit, proposals, with_room};
ghost use Rattle.tp_rules.specs.Sheet.{command_or as kept_or, ring_rule};
ghost use Rattle.tp_topology.specs.Shape.{in_ring};

use crate::addresses::{counterparts, send_each};
use crate::place::Place;
use crate::process::Process;
use crate::sheets::{command_or, is_fresh, keep, propose, submit};
use tp_base::{ActorName, Duplicate, NoMemory, Rank, STAMP_LIMIT, Site, Stamp};
use tp_ops::Command;
use tp_rules::Outputs;
use tp_wire::{Body, Message};

impl Process {
    /// A command is submitted here: the home proposes, and asks its fast quorum for proposals.
    pub(crate) fn on_submit(&mut self, command: &Command) -> Result<Outputs, NoMemory>
        requires { is_command_at self.old.place.topology self.old.place.site.partition.0 command.now ≡ true }
        ensures identity { identity self.new ≡ identity self.old }
        ensures outputs { IfOk result (λ outputs. (s : ProcessState) → IsState self.old s
            → outputs
            ≡ (with_room s (on_submit (ring_rule self.old.place.topology) self.old.place.site command.now s)).1) }
        ensures state { OnOk result ((s : ProcessState) → IsState self.old s
            → IsState self.new (with_room s (on_submit
            (ring_rule self.old.place.topology) self.old.place.site command.now s)).0) }
    {
        if !self.takes_submission(command) {
            return Ok(self.nothing());
        }
        let stamp = self.clock.propose(0);
        let outputs = self.submission(command, stamp)?;
        submit(&mut self.sheets, &self.place, command.copy()?, stamp)?;
        self.promise(command.id, stamp)?;
        Ok(outputs)
    }

    /// The home asks for a proposal of at least the floor.
    pub(crate) fn on_propose(
        &mut self,
        from: ActorName,
        command: &Command,
        floor: Stamp,
    ) -> Result<Outputs, NoMemory>
        requires { is_command_at self.old.place.topology self.old.place.site.partition.0 command.now ≡ true }
        ensures identity { identity self.new ≡ identity self.old }
        ensures outputs { IfOk result (λ outputs. (s : ProcessState) → IsState self.old s → floor.0 < the_limit
            → outputs
            ≡ (with_room s (on_propose (ring_rule self.old.place.topology) self.old.place.site from command.now floor.0
            s)).1) }
        ensures state { OnOk result ((s : ProcessState) → IsState self.old s → floor.0 < the_limit
            → IsState self.new (with_room s (on_propose
            (ring_rule self.old.place.topology) self.old.place.site from command.now floor.0 s)).0) }
    {
        if STAMP_LIMIT <= floor.0 || !self.takes_proposal(command) {
            return Ok(self.nothing());
        }
        let stamp = self.clock.propose(floor.0);
        let outputs = self.proposal(from, command, stamp)?;
        propose(&mut self.sheets, &self.place, command.copy()?, stamp)?;
        self.promise(command.id, stamp)?;
        Ok(outputs)
    }

    /// The home tells a command to those whom it asks for no proposal.
    pub(crate) fn on_payload(&mut self, command: &Command) -> Result<Outputs, NoMemory>
        requires { is_command_at self.old.place.topology self.old.place.site.partition.0 command.now ≡ true }
        ensures identity { identity self.new ≡ identity self.old }
        ensures outputs { IfOk result (λ outputs. outputs ≡ []) }
        ensures state { OnOk result ((s : ProcessState) → IsState self.old s
            → IsState self.new (on_payload command.now s).0) }
    {
        keep(&mut self.sheets, &self.place, command.copy()?)?;
        Ok(self.nothing())
    }

    /// The process of this rank in another partition tells its proposal.
    pub(crate) fn on_bump(&mut self, stamp: Stamp) -> Outputs
        ensures identity { identity self.new ≡ identity self.old }
        ensures outputs { result ≡ [] }
        ensures state { (s : ProcessState) → IsState self.old s → stamp.0 < the_limit
            → IsState self.new (on_bump stamp.0 s).0 }
    {
        self.bump(stamp);
        self.nothing()
    }

    fn takes_submission(&self, command: &Command) -> bool
        ensures value { result ≡ takes_submission self.now command.now }
        ensures home { result ≡ true
            → (1 ≤ command.now.home.0) × (command.now.home.0 ≤ self.now.place.topology.replicas) }
    {
        command.home == self.place.rank() && self.takes_proposal(command)
    }

    fn takes_proposal(&self, command: &Command) -> bool
        ensures { result ≡ takes_proposal self.now command.now }
    {
        is_fresh(&self.sheets, &self.place, command.id) && self.has_room()
    }

    /// What the home sends of a command that is submitted.
    fn submission(&self, command: &Command, stamp: Stamp) -> Result<Outputs, NoMemory>
        requires { (1 ≤ command.now.home.0) × (command.now.home.0 ≤ self.now.place.topology.replicas) }
        ensures { IfOk result (λ outputs. outputs ≡ proposals
            (ring_rule self.now.place.topology) self.now.place.site command.now stamp.0
            ++ bumps self.now.place.topology self.now.place.site
            (kept_or command.now (sheet_of self.now command.now.id).sheet) stamp.0) }
    {
        let mut outputs = self.room(usize::from(self.place.topology.replicas()))?;
        ask_for_proposals(&mut outputs, &self.place, command, stamp)?;
        self.tell_bumps(&mut outputs, command, stamp)?;
        Ok(outputs)
    }

    /// What a member of the fast quorum answers.
    fn proposal(
        &self,
        from: ActorName,
        command: &Command,
        stamp: Stamp,
    ) -> Result<Outputs, NoMemory>
        ensures { IfOk result (λ outputs. outputs ≡ message (ActorName.Process self.now.place.site) from
            (Body.MProposeAck command.now.id stamp)
            ∷ bumps self.now.place.topology self.now.place.site
            (kept_or command.now (sheet_of self.now command.now.id).sheet) stamp.0) }
    {
        let mut outputs = self.room(1)?;
        outputs.add(Message {
            from: self.place.name(),
            to: from,
            body: Body::MProposeAck {
                id: command.id,
                stamp,
            },
        })?;
        self.tell_bumps(&mut outputs, command, stamp)?;
        Ok(outputs)
    }

    /// Tells the own proposal to the process of this rank in each other partition of the command
    /// that is kept, or else of this one.
    #[tactic(auto, unfolding(tp_rules::specs::Process::bumps))]
    pub(crate) fn tell_bumps(
        &self,
        outputs: &mut Outputs,
        command: &Command,
        stamp: Stamp,
    ) -> Result<(), NoMemory>
        ensures { OnOk result (outputs.new ≡ outputs.old ++ bumps self.now.place.topology self.now.place.site
            (kept_or command.now (sheet_of self.now command.now.id).sheet) stamp.0) }
    {
        let kept = command_or(&self.sheets, &self.place, command);
        let names = counterparts(self.alloc, &self.place, kept)?;
        let body = Body::MBump { id: kept.id, stamp };
        send_each(outputs, self.place.name(), names.as_slice(), &body)
    }
}

/// Asks each other rank of the fast quorum for a proposal, and tells the command to the others.
fn ask_for_proposals(
    outputs: &mut Outputs,
    place: &Place,
    command: &Command,
    stamp: Stamp,
) -> Result<(), NoMemory>
    requires { (1 ≤ command.now.home.0) × (command.now.home.0 ≤ place.now.topology.replicas) }
    ensures { OnOk result (outputs.new ≡ outputs.old ++ proposals
        (ring_rule place.now.topology) place.now.site command.now stamp.0) }
{
    for number in 1..place.topology.replicas() + 1 {
        let rank = Rank(number);
        if rank != place.site.rank {
            let site = Site {
                partition: place.site.partition,
                rank,
            };
            outputs.add(Message {
                from: place.name(),
                to: ActorName::Process(site),
                body: asking(place, command, stamp, rank)?,
            })?;
        }
    }
    Ok(())
}

/// What the home tells another rank of a command that is submitted.
fn asking(place: &Place, command: &Command, stamp: Stamp, rank: Rank) -> Result<Body, NoMemory>
    requires home { (1 ≤ command.now.home.0) × (command.now.home.0 ≤ place.now.topology.replicas) }
    requires rank { (1 ≤ rank.0) × (rank.0 ≤ place.now.topology.replicas) }
    ensures { IfOk result (λ body. body ≡ cond (in_ring place.now.topology command.now.home.0 rank.0)
        (Body.MPropose command.now stamp) (Body.MPayload command.now)) }
{
    let command = command.copy()?;
    if place.topology.in_fast_quorum(command.home, rank) {
        Ok(Body::MPropose {
            command,
            floor: stamp,
        })
    } else {
        Ok(Body::MPayload { command })
    }
}
