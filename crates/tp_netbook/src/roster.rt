ghost use Rattle.std.specs.Prelude.{◌≡◌, ◌<◌, ◌^◌, ◌++◌, ◌≤◌, true, length, map, IfOk, OnOk};
ghost use Rattle.tp_netbook.specs.Places.{place_of, place_of_site};
ghost use Rattle.tp_rules.specs.Journal.{is_known, ranks_of};
ghost use Rattle.tp_rules.specs.Pending.{actors_of, sites_of};
ghost use Rattle.tp_script.specs.Accepted.{IsAccepted};

use std::alloc::Global;
use tp_base::{ActorName, NoMemory, PartitionId, Rank, SessionId, Site};
use tp_script::Script;
use tp_topology::Topology;

/// The place of one of a script's actors, from 0: its sessions, its processes, its executors, each
/// ascending.
pub fn place_of(script: &Script, name: ActorName) -> usize
    requires { is_known script.now name ≡ true }
    ensures { result ≡ place_of script.now name }
{
    let sessions = script.homes.len();
    let sites = usize::from(script.topology.partitions()) * usize::from(script.topology.replicas());
    match name {
        ActorName::Session(session) => usize::from(session.0) - 1,
        ActorName::Process(site) => sessions + place_of_site(&script.topology, site),
        ActorName::Executor(site) => sessions + sites + place_of_site(&script.topology, site),
    }
}

/// The place of a site, from 0.
pub(crate) fn place_of_site(topology: &Topology, site: Site) -> usize
    ensures place { result ≡ place_of_site topology.now site }
    ensures small { result < 2 ^ 32 }
{
    let row = usize::from(site.partition.0).saturating_sub(1);
    row * usize::from(topology.replicas()) + usize::from(site.rank.0).saturating_sub(1)
}

/// All sites of a script, ascending.
pub(crate) fn sites_of(alloc: Global, script: &Script) -> Result<Vec<Site>, NoMemory>
    ensures { IfOk result (λ sites. sites.items ≡ sites_of script.now) }
{
    let mut sites = Vec::new(alloc);
    for p in 1..script.topology.partitions() + 1 {
        add_sites(script, PartitionId(p), &mut sites)?;
    }
    Ok(sites)
}

/// The sites of a partition.
fn add_sites(script: &Script, partition: PartitionId, sites: &mut Vec<Site>) -> Result<(), NoMemory>
    ensures { OnOk result (sites.new.items ≡ sites.old.items ++ ranks_of script.now partition.0) }
{
    for rank in 1..script.topology.replicas() + 1 {
        sites.push(Site {
            partition,
            rank: Rank(rank),
        })?;
    }
    Ok(())
}

/// The script's actors: its sessions, its processes, its executors, each ascending.
pub(crate) fn roster(
    alloc: Global,
    script: &Script,
    sites: &[Site],
) -> Result<Vec<ActorName>, NoMemory>
    requires few { length script.now.homes ≤ 16 }
    requires sites { sites.now ≡ sites_of script.now }
    ensures { IfOk result (λ roster. roster.items ≡ actors_of script.now) }
{
    let mut roster = Vec::new(alloc);
    for s in 1..script.homes.len() as u8 + 1 {
        roster.push(ActorName::Session(SessionId(s)))?;
    }
    for site in sites {
        roster.push(ActorName::Process(*site))?;
    }
    for site in sites {
        roster.push(ActorName::Executor(*site))?;
    }
    Ok(roster)
}
