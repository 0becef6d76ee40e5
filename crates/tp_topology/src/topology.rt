ghost use Rattle.std.specs.Prelude.{◌≡◌, ◌≤◌, ◌<◌, ◌*◌, ◌↔◌, IfOk, IfErr, IsTrue};
ghost use Rattle.tp_base.specs.Limits.{is_from};
ghost use Rattle.tp_topology.specs.Shape.{IsShape, fast_size, slow_size, recovery_size, majority_size, in_ring, is_site_of};

use std::marker::Model;
use thiserror::Error;
use tp_base::{PartitionId, Rank, Site};

/// How many partitions there are, how many replicas each has, and how many of a partition's
/// replicas may fail.
#[derive(Clone, Copy, Debug, PartialEq, Eq)]
pub struct Topology {
    partitions: u8,
    replicas: u8,
    failures: u8,
}

impl Model for Topology {
    ghost use Rattle.tp_topology.specs.Shape.{Shape, IsShape};

    ghost Value = { Shape };

    ghost view = { λ t. record { partitions = t.partitions; replicas = t.replicas; failures = t.failures } };

    ghost invariant = { λ t. IsShape (record { partitions = t.partitions; replicas = t.replicas; failures = t.failures }) };

    ghost inverse = { λ s. record { partitions = s.partitions; replicas = s.replicas; failures = s.failures } };
}

/// The three numbers that are no shape.
#[derive(Clone, Copy, Debug, PartialEq, Eq, Error)]
#[error("shape {partitions} {replicas} {failures}")]
pub struct BadShape {
    pub partitions: u8,
    pub replicas: u8,
    pub failures: u8,
}

impl Topology {
    /// A shape of 1 to 4 partitions with 3 to 7 replicas each, of which a minority may fail.
    pub fn new(partitions: u8, replicas: u8, failures: u8) -> Result<Topology, BadShape>
        ensures shape { IfOk result (λ t. t
            ≡ record { partitions = partitions; replicas = replicas; failures = failures }) }
        ensures valid { IfOk result (λ t. IsShape t) }
        ensures numbers { IfErr result (λ bad. bad
            ≡ record { partitions = partitions; replicas = replicas; failures = failures }) }
        ensures refused { IfErr result (λ bad. ¬ IsShape
            (record { partitions = partitions; replicas = replicas; failures = failures })) }
    {
        let in_range = 1 <= partitions
            && partitions <= 4
            && 3 <= replicas
            && replicas <= 7
            && 1 <= failures;
        if in_range && failures <= (replicas - 1) / 2 {
            return Ok(Topology {
                partitions,
                replicas,
                failures,
            });
        }
        Err(BadShape {
            partitions,
            replicas,
            failures,
        })
    }

    pub fn partitions(&self) -> u8
        ensures value { result ≡ self.now.partitions }
        ensures range { (1 ≤ result) × (result ≤ 4) }
    {
        self.partitions
    }

    /// The replicas of each partition.
    pub fn replicas(&self) -> u8
        ensures value { result ≡ self.now.replicas }
        ensures range { (3 ≤ result) × (result ≤ 7) }
    {
        self.replicas
    }

    /// How many replicas of a partition may fail.
    pub fn failures(&self) -> u8
        ensures value { result ≡ self.now.failures }
        ensures range { (1 ≤ result) × (2 * result < self.now.replicas) }
    {
        self.failures
    }

    pub fn has_partition(&self, partition: PartitionId) -> bool
        ensures { result ≡ is_from 1 self.now.partitions partition.0 }
    {
        1 <= partition.0 && partition.0 <= self.partitions
    }

    pub fn has_rank(&self, rank: Rank) -> bool
        ensures { result ≡ is_from 1 self.now.replicas rank.0 }
    {
        1 <= rank.0 && rank.0 <= self.replicas
    }

    /// Whether a site is in the shape.
    pub fn has_site(&self, site: Site) -> bool
        ensures { result ≡ is_site_of self.now site }
    {
        self.has_partition(site.partition) && self.has_rank(site.rank)
    }

    /// The members of a fast quorum.
    pub fn fast_size(&self) -> u8
        ensures { result ≡ fast_size self.now }
    {
        self.replicas / 2 + self.failures
    }

    /// The members of a consensus quorum.
    pub fn slow_size(&self) -> u8
        ensures { result ≡ slow_size self.now }
    {
        self.failures + 1
    }

    /// The members of a recovery quorum.
    pub fn recovery_size(&self) -> u8
        ensures { result ≡ recovery_size self.now }
    {
        self.replicas - self.failures
    }

    pub fn majority(&self) -> u8
        ensures { result ≡ majority_size self.now }
    {
        self.replicas / 2 + 1
    }

    /// Whether a rank is of the fast quorum of a home: the first ranks from the home on, round the
    /// ring of ranks, as many as the fast size.
    pub fn in_fast_quorum(&self, home: Rank, rank: Rank) -> bool
        requires home { (1 ≤ home.0) × (home.0 ≤ self.now.replicas) }
        requires rank { (1 ≤ rank.0) × (rank.0 ≤ self.now.replicas) }
        ensures { IsTrue result ↔ IsTrue (in_ring self.now home.0 rank.0) }
    {
        (rank.0 + self.replicas - home.0) % self.replicas < self.fast_size()
    }
}
