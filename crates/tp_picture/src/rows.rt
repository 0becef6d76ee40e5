ghost use Rattle.std.specs.List.{flat_map};
ghost use Rattle.std.specs.Prelude.{◌≡◌, ◌++◌, IfOk, OnOk};
ghost use Rattle.tp_base.specs.Lists.{has};
ghost use Rattle.tp_base.specs.Names.{same_name};
ghost use Rattle.tp_picture.specs.Scenes.{chosen, rows_of};
ghost use Rattle.tp_rules.specs.Addresses.{site};
ghost use Rattle.tp_script.specs.Accepted.{IsAccepted};
ghost use Rattle.tp_topology.specs.Counting.{up_to};

use crate::view::View;
use std::alloc::Global;
use tp_base::{ActorName, NoMemory, PartitionId, Rank, SessionId, Site};
use tp_script::Script;

fn is_named(actors: &[ActorName], actor: ActorName) -> bool
    ensures { result ≡ has same_name actor actors.now }
{
    actors.contains(&actor)
}

// An actor's row, where the view shows it.
fn put_row(rows: &mut Vec<ActorName>, view: &View, actor: ActorName) -> Result<(), NoMemory>
    ensures { OnOk result (rows.new.items ≡ rows.old.items ++ chosen view.now actor) }
{
    if view.actors.is_empty() || is_named(view.actors.as_slice(), actor) {
        rows.push(actor)?;
    }
    Ok(())
}

fn put_sessions(rows: &mut Vec<ActorName>, view: &View, sessions: u8) -> Result<(), NoMemory>
    ensures { OnOk result (rows.new.items ≡ rows.old.items
        ++ flat_map (λ s. chosen view.now (ActorName.Session (record { 0 = s }))) (up_to sessions)) }
{
    for i in 0..sessions {
        put_row(rows, view, ActorName::Session(SessionId(i + 1)))?;
    }
    Ok(())
}

fn site(partition: u8, rank: u8) -> Site
    ensures { result ≡ site partition rank }
{
    Site {
        partition: PartitionId(partition),
        rank: Rank(rank),
    }
}

fn put_processes(
    rows: &mut Vec<ActorName>,
    view: &View,
    partition: u8,
    replicas: u8,
) -> Result<(), NoMemory>
    ensures { OnOk result (rows.new.items ≡ rows.old.items
        ++ flat_map (λ k. chosen view.now (ActorName.Process (site partition k))) (up_to replicas)) }
{
    for i in 0..replicas {
        put_row(rows, view, ActorName::Process(site(partition, i + 1)))?;
    }
    Ok(())
}

fn put_executors(
    rows: &mut Vec<ActorName>,
    view: &View,
    partition: u8,
    replicas: u8,
) -> Result<(), NoMemory>
    ensures { OnOk result (rows.new.items ≡ rows.old.items
        ++ flat_map (λ k. chosen view.now (ActorName.Executor (site partition k))) (up_to replicas)) }
{
    for i in 0..replicas {
        put_row(rows, view, ActorName::Executor(site(partition, i + 1)))?;
    }
    Ok(())
}

fn put_partition(
    rows: &mut Vec<ActorName>,
    view: &View,
    partition: u8,
    replicas: u8,
) -> Result<(), NoMemory>
    ensures { OnOk result (rows.new.items ≡ rows.old.items
        ++ (flat_map (λ k. chosen view.now (ActorName.Process (site partition k))) (up_to replicas)
        ++ flat_map (λ k. chosen view.now (ActorName.Executor (site partition k))) (up_to replicas))) }
{
    put_processes(rows, view, partition, replicas)?;
    put_executors(rows, view, partition, replicas)
}

fn put_partitions(
    rows: &mut Vec<ActorName>,
    view: &View,
    partitions: u8,
    replicas: u8,
) -> Result<(), NoMemory>
    ensures { OnOk result (rows.new.items ≡ rows.old.items ++ flat_map
        (λ p. flat_map (λ k. chosen view.now (ActorName.Process (site p k))) (up_to replicas)
        ++ flat_map (λ k. chosen view.now (ActorName.Executor (site p k))) (up_to replicas))
        (up_to partitions)) }
{
    for i in 0..partitions {
        put_partition(rows, view, i + 1, replicas)?;
    }
    Ok(())
}

/// The actors that have rows, from above.
#[tactic(auto, unfolding(crate::specs::Scenes::rows_of))]
pub(crate) fn rows_of(
    alloc: Global,
    script: &Script,
    view: &View,
) -> Result<Vec<ActorName>, NoMemory>
    requires { IsAccepted script.now }
    ensures { IfOk result (λ rows. rows.items ≡ rows_of script.now view.now) }
{
    let mut rows = Vec::new(alloc);
    let topology = &script.topology;
    put_sessions(&mut rows, view, script.homes.len() as u8)?;
    put_partitions(&mut rows, view, topology.partitions(), topology.replicas())?;
    Ok(rows)
}
