ghost use Rattle.std.specs.Prelude.{◌≡◌, ◌<◌, ◌-◌, ◌∷◌, [], false, nat_lt, List, IfOk, OnOk};
ghost use Rattle.std.specs.Option.{option_map};
ghost use Rattle.tp_base.specs.Limits.{STAMP_LIMIT as the_limit};
ghost use Rattle.tp_clock.specs.Clocks.{Promised};
ghost use Rattle.tp_rules.specs.Acts.{Act, ProcessAt};
ghost use Rattle.tp_rules.specs.Process.{ProcessState, bumped, on_inner, on_message, proposing, state_after, with_sheet};
ghost use Rattle.tp_rules.specs.Sheet.{Sheet, final_stamp as final_stamp_in, ring_rule};
ghost use Rattle.tp_topology.specs.Shape.{IsSiteOf};
ghost use Rattle.tp_wire.specs.Ranges.{IsInRange};

use crate::place::Place;
use crate::sheets::{Sheets, final_stamp};
use indexmap::IndexMap;
use std::alloc::Global;
use tp_base::{ActorName, CommandId, NoMemory, Pair, STAMP_LIMIT, Sequence, Site, Stamp};
use tp_clock::Clock;
use tp_rules::{Actor, Inner, Outputs};
use tp_topology::Topology;
use tp_wire::{Body, Message};

/// The process of a site. Of the attached promises it keeps those that it has not told yet.
#[derive(Drop)]
pub struct Process {
    pub(crate) alloc: Global,
    pub(crate) place: Place,
    pub(crate) clock: Clock,
    pub(crate) untold: Sequence<Pair>,
    pub(crate) sheets: Sheets,
    pub(crate) spent: bool,
}

impl Process {
    ghost use Rattle.tp_process.specs.State.{Agrees, IsState, Stands, identity};

    /// A process that has taken no message. It takes no memory.
    pub fn new(alloc: Global, topology: &Topology, site: Site) -> Process
        requires { IsSiteOf topology.now site }
        ensures identity { identity result ≡ ProcessAt topology.now site }
        ensures unspent { result.spent ≡ false }
        ensures stands { Stands result [] }
    {
        Process {
            alloc,
            place: Place::new(topology, site),
            clock: Clock::new(),
            untold: Sequence::new(alloc),
            sheets: IndexMap::new(alloc),
            spent: false,
        }
    }

    /// The greatest number that is promised.
    pub fn clock(&self) -> u64
        ensures { (acts : List Act) → Stands self.now acts
            → result ≡ (state_after (ring_rule self.now.place.topology) self.now.place.site acts).clock }
    {
        self.clock.now()
    }

    /// The command's final stamp, where the stamps of all its partitions are known.
    pub fn stamp(&self, id: CommandId) -> Option<Stamp>
        ensures { (acts : List Act) → Stands self.now acts
            → let sheet = (state_after (ring_rule self.now.place.topology) self.now.place.site acts).sheets id
            in option_map (λ t. t.0) result ≡ final_stamp_in self.now.place.topology sheet sheet.command }
    {
        final_stamp(&self.sheets, &self.place, id)
    }

    /// What a step sends that changes nothing.
    pub(crate) fn nothing(&self) -> Outputs
        ensures { result ≡ [] }
    {
        Sequence::new(self.alloc)
    }

    /// What a step sends, with room for so many messages and none yet.
    pub(crate) fn room(&self, messages: usize) -> Result<Outputs, NoMemory>
        ensures { IfOk result (λ outputs. outputs ≡ []) }
    {
        let room = Vec::with_capacity(self.alloc, messages)?;
        Ok(Sequence::from_vec(room))
    }

    /// Whether a proposal's stamp would be below the limit.
    pub(crate) fn has_room(&self) -> bool
        ensures { result ≡ nat_lt self.now.clock.clock (the_limit - 1) }
    {
        self.clock.now() < STAMP_LIMIT - 1
    }

    /// Attaches the stamp that the clock has just proposed to a command.
    pub(crate) fn promise(&mut self, id: CommandId, stamp: Stamp) -> Result<(), NoMemory>
        ensures identity { identity self.new ≡ identity self.old }
        ensures state { OnOk result ((s : ProcessState) → (sheet : Sheet) → (before : Promised)
            → Agrees self.old.place.topology self.old.place.site before.clock before.told self.old.untold
            self.old.sheets (with_sheet id sheet s) → s.clock < stamp.0 → stamp.0 < the_limit
            → self.old.clock ≡ record { clock = stamp.0; told = before.told }
            → IsState self.new (proposing id stamp.0 sheet s)) }
    {
        self.untold.add(Pair { id, stamp })?;
        Ok(())
    }

    /// Promises to none the numbers above the clock up to a stamp.
    pub(crate) fn bump(&mut self, stamp: Stamp)
        ensures identity { identity self.new ≡ identity self.old }
        ensures state { (s : ProcessState) → IsState self.old s → stamp.0 < the_limit
            → IsState self.new (bumped stamp.0 s) }
    {
        if stamp.0 < STAMP_LIMIT {
            self.clock.bump(stamp.0);
        }
    }

    fn take(&mut self, message: &Message) -> Result<Outputs, NoMemory>
        ensures identity { identity self.new ≡ identity self.old }
        ensures outputs { IfOk result (λ outputs. (s : ProcessState) → IsState self.old s → IsInRange message.now
            → outputs ≡ (on_message (ring_rule self.old.place.topology) self.old.place.site message.now s).1) }
        ensures state { OnOk result ((s : ProcessState) → IsState self.old s → IsInRange message.now
            → IsState self.new (on_message (ring_rule self.old.place.topology) self.old.place.site message.now s).0) }
    {
        if !self.place.takes(message) {
            return Ok(self.nothing());
        }
        match &message.body {
            Body::MSubmit { command } => self.on_submit(command),
            Body::MPropose { command, floor } => { self.on_propose(message.from, command, *floor) }
            Body::MPayload { command } => self.on_payload(command),
            Body::MProposeAck { id, stamp } => self.on_propose_ack(message.from, *id, *stamp),
            Body::MBump { id: _, stamp } => Ok(self.on_bump(*stamp)),
            Body::MConsensus {
                command,
                stamp,
                ballot,
            } => self.on_consensus(message.from, command, *stamp, *ballot),
            Body::MConsensusAck { id, ballot } => {
                self.on_consensus_ack(message.from, *id, *ballot)
            }
            Body::MCommit {
                command,
                partition,
                stamp,
            } => self.on_commit(command, *partition, *stamp),
            Body::MRec { command, ballot } => self.on_rec(message.from, command, *ballot),
            Body::MRecAck {
                id,
                stamp,
                made,
                accepted,
                ballot,
            } => self.on_rec_ack(message.from, *id, *stamp, *made, *accepted, *ballot),
            _ => Ok(self.nothing()),
        }
    }

    fn act(&mut self, inner: Inner) -> Result<Outputs, NoMemory>
        ensures identity { identity self.new ≡ identity self.old }
        ensures outputs { IfOk result (λ outputs. (s : ProcessState) → IsState self.old s
            → outputs ≡ (on_inner (ring_rule self.old.place.topology) self.old.place.site inner s).1) }
        ensures state { OnOk result ((s : ProcessState) → IsState self.old s
            → IsState self.new (on_inner (ring_rule self.old.place.topology) self.old.place.site inner s).0) }
    {
        match inner {
            Inner::Announce => self.on_announce(),
            Inner::Recover(id) => self.on_recover(id),
            _ => Ok(self.nothing()),
        }
    }
}

impl Actor for Process {
    ghost use Rattle.std.specs.Prelude.{is_err};
    ghost use Rattle.tp_process.specs.State.{Stands, identity};
    ghost use Rattle.tp_rules.specs.Acts.{Did, Took};
    ghost use Rattle.tp_rules.specs.Rules.{enabled, outputs_of};

    ghost identity_of = { identity };

    ghost is_spent = { λ p. p.spent };

    ghost stands = { Stands };

    fn name(&self) -> ActorName {
        self.place.name()
    }

    fn spent(&self) -> bool {
        self.spent
    }

    fn deliver(&mut self, message: &Message) -> Result<Outputs, NoMemory>
        ensures identity { identity self.new ≡ identity self.old }
        ensures spent { self.new.spent ≡ is_err result }
        ensures outputs { IfOk result (λ outputs. (acts : List Act) → Stands self.old acts → IsInRange message.now
            → outputs ≡ outputs_of (identity self.old) acts (Took message.now)) }
        ensures stands { OnOk result ((acts : List Act) → Stands self.old acts → IsInRange message.now
            → Stands self.new (Took message.now ∷ acts)) }
    {
        let outcome = self.take(message);
        self.spent = outcome.is_err();
        outcome
    }

    fn fire(&mut self, inner: Inner) -> Result<Outputs, NoMemory>
        ensures identity { identity self.new ≡ identity self.old }
        ensures spent { self.new.spent ≡ is_err result }
        ensures outputs { IfOk result (λ outputs. (acts : List Act) → Stands self.old acts
            → outputs ≡ outputs_of (identity self.old) acts (Did inner)) }
        ensures stands { OnOk result ((acts : List Act) → Stands self.old acts → Stands self.new (Did inner ∷ acts)) }
    {
        let outcome = self.act(inner);
        self.spent = outcome.is_err();
        outcome
    }

    fn next_inner(&self) -> Option<Inner>
        ensures { (acts : List Act) → Stands self.now acts → result ≡ enabled (identity self.now) acts }
    {
        if self.clock.told() < self.clock.now() {
            Some(Inner::Announce)
        } else {
            None
        }
    }
}
