ghost use Rattle.std.specs.Prelude.{◌≡◌, ◌≤◌, ◌&&◌, is_some};
ghost use Rattle.std.specs.Option.{option_copied, option_map};
ghost use Rattle.tp_rules.specs.Sheet.{is_fresh, with_command, putting, stamp_of, with_proposal};
ghost use Rattle.tp_sheet.specs.SiteSheet.{blank_at, proposal_of, with_sheet};
ghost use Rattle.tp_topology.specs.Shape.{IsSiteOf};

use std::marker::Model;
use tp_base::{Made, PartitionId, Rank, Site, Stamp};
use tp_choice::RecoveryAnswer;
use tp_ops::Command;
use tp_paxos::{Acceptor, Proposer};
use tp_quorum::{Gather, Known};
use tp_topology::Topology;

/// What the process of a site keeps of one command. The answers to its recovery have a place for
/// each rank, from the first on.
#[derive(Debug, Drop)]
pub struct Sheet {
    pub(crate) topology: Topology,
    pub(crate) site: Site,
    pub(crate) command: Option<Command>,
    pub(crate) proposal: Option<Proposed>,
    pub(crate) acceptor: Acceptor,
    pub(crate) known: Known,
    pub(crate) gathered: Gather,
    pub(crate) answers: [Option<RecoveryAnswer>; 7],
    pub(crate) proposer: Proposer,
}

/// A proposal's stamp, and how it was made.
#[derive(Clone, Copy, Debug)]
pub(crate) struct Proposed {
    pub(crate) stamp: u64,
    pub(crate) made: Made,
}

impl Model for Sheet {
    ghost use Rattle.tp_sheet.specs.SiteSheet.{SiteSheet};

    ghost Value = { SiteSheet };

    ghost use Rattle.tp_sheet.specs.View.{view_of, IsSheet};

    ghost view = { view_of };

    ghost invariant = { IsSheet };
}

impl Sheet {
    /// The sheet of a command that the site has not heard of.
    pub fn new(topology: &Topology, site: Site) -> Sheet
        requires { IsSiteOf topology.now site }
        ensures { result ≡ blank_at topology.now site }
    {
        let (partitions, replicas) = (topology.partitions(), topology.replicas());
        prove!(partitions <= 4 && replicas <= 7);
        Sheet {
            topology: *topology,
            site,
            command: None,
            proposal: None,
            acceptor: Acceptor::new(),
            known: Known::new(),
            gathered: Gather::new(),
            answers: [None; 7],
            proposer: Proposer::new(topology),
        }
    }

    /// The command that is kept.
    pub fn command(&self) -> Option<&Command>
        ensures { option_copied result ≡ self.now.sheet.command }
    {
        self.command.as_ref()
    }

    /// The stamp of the own proposal.
    pub fn proposal(&self) -> Option<Stamp>
        ensures { option_map (λ t. t.0) result ≡ proposal_of self.now.sheet }
    {
        self.proposal.map(|proposed| Stamp(proposed.stamp))
    }

    /// The stamp of a partition, where it is known.
    pub fn stamp(&self, partition: PartitionId) -> Option<Stamp>
        ensures { option_map (λ t. t.0) result ≡ stamp_of self.now.sheet partition.0 }
    {
        if !self.topology.has_partition(partition) {
            return None;
        }
        self.known.get(partition)
    }

    /// Whether there is no proposal and no ballot, and the site's partition has no stamp yet.
    pub fn is_fresh(&self) -> bool
        ensures { result ≡ is_fresh self.now.site.partition.0 self.now.sheet }
    {
        self.proposal.is_none() && self.acceptor.ballot == 0 && !self.knows(self.site.partition)
    }

    /// Keeps a command where none is kept.
    pub fn keep(&mut self, command: Command)
        ensures { self.new ≡ with_sheet (with_command command self.old.sheet) self.old }
    {
        if self.command.is_none() {
            self.command = Some(command);
        }
    }

    /// Keeps a proposal.
    pub fn propose(&mut self, stamp: Stamp, made: Made)
        ensures { self.new ≡ with_sheet (with_proposal stamp.0 made self.old.sheet) self.old }
    {
        self.proposal = Some(Proposed {
            stamp: stamp.0,
            made,
        });
    }

    pub(crate) fn own_rank(&self) -> Rank
        ensures own { result ≡ self.now.site.rank }
        ensures range { (1 ≤ result.0) × (result.0 ≤ self.now.shape.replicas) }
    {
        self.site.rank
    }

    pub(crate) fn knows(&self, partition: PartitionId) -> bool
        ensures { result ≡ is_some (stamp_of self.now.sheet partition.0) }
    {
        self.stamp(partition).is_some()
    }

    /// Puts a stamp to the vote at a ballot, without votes.
    pub(crate) fn put(&mut self, ballot: u64, stamp: Stamp)
        ensures { self.new ≡ with_sheet (putting self.old.shape ballot stamp.0 self.old.sheet) self.old }
    {
        self.proposer.put(ballot, stamp);
    }
}
