ghost use Rattle.std.specs.Prelude.{◌≡◌, ◌≤◌, ◌&&◌};
ghost use Rattle.tp_base.specs.Names.{same_name};
ghost use Rattle.tp_process.specs.Places.{IsPlace};
ghost use Rattle.tp_rules.specs.Addresses.{is_name_of, is_body_at, is_command_at};
ghost use Rattle.tp_topology.specs.Shape.{IsSiteOf};

use tp_base::{ActorName, PartitionId, Rank, Site};
use tp_ops::Command;
use tp_rules::{is_command_at, is_name_of};
use tp_topology::Topology;
use tp_wire::{Body, Message};

/// The site of a process, in the shape of its store.
#[derive(Clone, Copy)]
pub(crate) struct Place {
    pub(crate) topology: Topology,
    pub(crate) site: Site,
    ghost in_shape: { IsPlace topology site },
}

impl Place {
    pub(crate) fn new(topology: &Topology, site: Site) -> Place
        requires { IsSiteOf topology.now site }
        ensures topology { result.topology ≡ topology.now }
        ensures site { result.site ≡ site }
    {
        let (partitions, replicas) = (topology.partitions(), topology.replicas());
        prove!(partitions <= 4 && replicas <= 7);
        Place {
            topology: *topology,
            site,
        }
    }

    pub(crate) fn partition(&self) -> PartitionId
        ensures value { result ≡ self.now.site.partition }
        ensures range { (1 ≤ result.0) × (result.0 ≤ 4) }
    {
        self.site.partition
    }

    pub(crate) fn rank(&self) -> Rank
        ensures value { result ≡ self.now.site.rank }
        ensures range { (1 ≤ result.0) × (result.0 ≤ self.now.topology.replicas) }
    {
        self.site.rank
    }

    pub(crate) fn name(&self) -> ActorName
        ensures { result ≡ ActorName.Process self.now.site }
    {
        ActorName::Process(self.site)
    }

    /// Whether a message is to the process of this place, and names nothing outside the shape.
    pub(crate) fn takes(&self, message: &Message) -> bool
        ensures { result ≡ (same_name message.now.to
            (ActorName.Process self.now.site) && is_name_of self.now.topology message.now.from
            && is_body_at self.now.topology self.now.site.partition.0 message.now.body) }
    {
        message.to == self.name()
            && is_name_of(&self.topology, message.from)
            && self.takes_body(&message.body)
    }

    fn takes_body(&self, body: &Body) -> bool
        ensures { result ≡ is_body_at self.now.topology self.now.site.partition.0 body.now }
    {
        match body {
            Body::MSubmit { command } => self.takes_command(command),
            Body::MPropose { command, floor: _ } => self.takes_command(command),
            Body::MPayload { command } => self.takes_command(command),
            Body::MProposeAck { id: _, stamp: _ } => true,
            Body::MBump { id: _, stamp: _ } => true,
            Body::MConsensus {
                command,
                stamp: _,
                ballot: _,
            } => self.takes_command(command),
            Body::MConsensusAck { id: _, ballot: _ } => true,
            Body::MCommit {
                command,
                partition,
                stamp: _,
            } => self.takes_command(command) && self.topology.has_partition(*partition),
            Body::MRec { command, ballot: _ } => self.takes_command(command),
            Body::MRecAck {
                id: _,
                stamp: _,
                made: _,
                accepted: _,
                ballot: _,
            } => true,
            Body::MPromises {
                lo: _,
                hi: _,
                pairs: _,
            } => true,
            Body::MCommitted { command, stamp: _ } => self.takes_command(command),
            Body::MStable { id: _ } => true,
            Body::MResult {
                id: _,
                partition,
                answers: _,
            } => self.topology.has_partition(*partition),
        }
    }

    /// Whether a command has its home in the shape, and is on this partition.
    fn takes_command(&self, command: &Command) -> bool
        ensures { result ≡ is_command_at self.now.topology self.now.site.partition.0 command.now }
    {
        is_command_at(&self.topology, self.site.partition, command)
    }
}
