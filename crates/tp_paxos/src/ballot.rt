ghost use Rattle.std.specs.Prelude.{◌≡◌, ◌≤◌, ◌<◌, ◌-◌, ℕ};
ghost use Rattle.tp_base.specs.Limits.{STAMP_LIMIT};
ghost use Rattle.tp_topology.specs.Ballots.{next_ballot as next_ballot_of, owner as owner_of};

use tp_base::Rank;
use tp_topology::Topology;

/// The rank that a ballot belongs to.
pub fn owner(topology: &Topology, ballot: u64) -> Rank
    requires { 1 ≤ ballot }
    ensures owner { result.0 ≡ owner_of topology.now ballot }
    ensures range { (1 ≤ result.0) × (result.0 ≤ topology.now.replicas) }
{
    let replicas = u64::from(topology.replicas());
    Rank(((ballot - 1) % replicas) as u8 + 1)
}

/// The least ballot of a rank that is above those of the first coordinators, above the own ballot
/// and above the one tried.
pub fn next_ballot(topology: &Topology, rank: Rank, own: u64, tried: u64) -> u64
    requires some { 1 ≤ rank.0 }
    requires few { rank.0 ≤ topology.now.replicas }
    requires own { own < STAMP_LIMIT - 8 }
    requires tried { tried < STAMP_LIMIT - 8 }
    ensures ballot { result ≡ next_ballot_of topology.now rank.0 own tried }
    ensures above { (topology.now.replicas < result) × (own < result) × (tried < result) }
    ensures owner { owner_of topology.now result ≡ rank.0 }
    ensures least { (b : ℕ) → topology.now.replicas < b → own < b → tried < b → owner_of topology.now b ≡ rank.0 → result ≤ b }
    ensures small { result < STAMP_LIMIT }
{
    let replicas = u64::from(topology.replicas());
    let from = replicas.max(own.max(tried)) + 1;
    from + (u64::from(rank.0) + replicas - ((from - 1) % replicas + 1)) % replicas
}
