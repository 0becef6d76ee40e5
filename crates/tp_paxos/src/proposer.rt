ghost use Rattle.std.specs.Option.{option_map};
ghost use Rattle.std.specs.Prelude.{◌≡◌, ◌≤◌, is_none, length};
ghost use Rattle.tp_paxos.specs.Votes.{count_votes, decision, decision_with, is_put_at, nothing, putting, trying, voted};

use std::marker::Model;
use tp_base::{Rank, Stamp};
use tp_topology::Topology;

/// What a process has tried and put to the vote.
#[derive(Debug, Drop)]
pub struct Proposer {
    topology: Topology,
    tried: u64,
    put: Option<PutStamp>,
}

/// A stamp that is put to the vote at a ballot, and the ranks that voted for it.
#[derive(Clone, Copy, Debug)]
struct PutStamp {
    ballot: u64,
    stamp: Stamp,
    votes: [bool; 7],
}

impl Model for Proposer {
    ghost use Rattle.std.specs.Prelude.{◌≤◌};
    ghost use Rattle.tp_paxos.specs.View.{view_of};
    ghost use Rattle.tp_paxos.specs.Votes.{Proposal};

    ghost Value = { Proposal };

    ghost view = { view_of };

    ghost invariant = { λ p. p.topology.replicas ≤ 7 };
}

impl Proposer {
    /// With nothing tried and nothing put.
    pub fn new(topology: &Topology) -> Proposer
        ensures { result ≡ nothing topology.now }
    {
        let replicas = topology.replicas();
        prove!(replicas <= 7);
        Proposer {
            topology: *topology,
            tried: 0,
            put: None,
        }
    }

    /// The ballot that was tried last.
    pub fn tried(&self) -> u64
        ensures { result ≡ self.now.tried }
    {
        self.tried
    }

    /// Whether nothing is put.
    pub fn is_idle(&self) -> bool
        ensures { result ≡ is_none self.now.put }
    {
        self.put.is_none()
    }

    /// Whether a stamp is put at a ballot.
    pub fn is_put_at(&self, ballot: u64) -> bool
        ensures { result ≡ is_put_at ballot self.now.put }
    {
        match self.put {
            None => false,
            Some(put) => put.ballot == ballot,
        }
    }

    /// Tries a ballot.
    pub fn attempt(&mut self, ballot: u64)
        ensures { self.new ≡ trying ballot self.old }
    {
        self.tried = ballot;
    }

    /// Puts a stamp to the vote at a ballot, without votes.
    pub fn put(&mut self, ballot: u64, stamp: Stamp)
        ensures { self.new ≡ putting ballot stamp.0 self.old }
    {
        self.put = Some(PutStamp {
            ballot,
            stamp,
            votes: [false; 7],
        });
    }

    /// Takes the vote of a rank, where it is at the ballot that is put, and gives the stamp where a
    /// consensus quorum has voted for it.
    pub fn vote(&mut self, rank: Rank, ballot: u64) -> Option<Stamp>
        requires from { 1 ≤ rank.0 }
        requires to { rank.0 ≤ self.old.shape.replicas }
        ensures voted { self.new ≡ voted rank.0 ballot self.old }
        ensures decided { option_map (λ t. t.0) result ≡ decision_with rank.0 ballot self.old }
    {
        let Some(mut put) = self.put else {
            return None;
        };
        if put.ballot != ballot {
            return None;
        }
        put.votes[usize::from(rank.0) - 1] = true;
        self.put = Some(put);
        self.decision()
    }

    /// The stamp that is put, where a consensus quorum has voted for it.
    fn decision(&self) -> Option<Stamp>
        ensures { option_map (λ t. t.0) result ≡ decision self.now.shape self.now.put }
    {
        let Some(put) = self.put else {
            return None;
        };
        let votes = &put.votes[..usize::from(self.topology.replicas())];
        if self.topology.slow_size() <= count_votes(votes) {
            Some(put.stamp)
        } else {
            None
        }
    }
}

/// How many ranks voted.
fn count_votes(votes: &[bool]) -> u8
    requires { length votes.now ≤ 7 }
    ensures { result ≡ count_votes votes.now }
{
    let mut count = 0;
    for vote in votes {
        if *vote {
            count += 1;
        }
    }
    count
}
