ghost use Rattle.std.specs.Prelude.{◌≡◌, ◌++◌, ◌≤◌, [], length, map, IfOk, List, OnOk};
ghost use Rattle.tp_base.specs.Limits.{IsFrom};
ghost use Rattle.tp_base.specs.declared.names.ActorName.{ActorName};
ghost use Rattle.tp_driver.specs.Cast.{AllStand};
ghost use Rattle.tp_rules.specs.Journal.{ranks_of};
ghost use Rattle.tp_cast.specs.Actors.{AreNew, IsNew, Stands, identity, is_spent};
ghost use Rattle.tp_script.specs.Accepted.{IsAccepted, commands_by};

use crate::any_actor::AnyActor;
use std::alloc::Global;
use tp_base::{ActorName, Duplicate, NoMemory, PartitionId, Rank, SessionId, Site};
use tp_executor::Executor;
use tp_process::Process;
use tp_script::{Commands, Script};
use tp_session::Session;

/// The script's actors: its sessions, its processes, its executors, each ascending.
pub fn cast(alloc: Global, script: &Script) -> Result<Vec<AnyActor>, NoMemory>
    requires { IsAccepted script.now }
    ensures { IfOk result (λ actors. AllStand identity is_spent Stands script.now actors.items []) }
{
    let mut actors = Vec::new(alloc);
    for s in 1..script.homes.len() as u8 + 1 {
        actors.push(session(alloc, script, SessionId(s))?)?;
    }
    for p in 1..script.topology.partitions() + 1 {
        add_processes(alloc, script, PartitionId(p), &mut actors)?;
    }
    for p in 1..script.topology.partitions() + 1 {
        add_executors(alloc, script, PartitionId(p), &mut actors)?;
    }
    Ok(actors)
}

// The processes of a partition, ascending.
fn add_processes(
    alloc: Global,
    script: &Script,
    partition: PartitionId,
    actors: &mut Vec<AnyActor>,
) -> Result<(), NoMemory>
    requires { IsFrom 1 script.now.topology.partitions partition.0 }
    ensures { OnOk result ((names : List ActorName) → AreNew script.now names actors.old.items
        → AreNew script.now (names ++ map (λ s. ActorName.Process s)
        (ranks_of script.now partition.0)) actors.new.items) }
{
    for rank in 1..script.topology.replicas() + 1 {
        let site = Site {
            partition,
            rank: Rank(rank),
        };
        let process = Process::new(alloc, &script.topology, site);
        actors.push(AnyActor::Process(process))?;
    }
    Ok(())
}

// The executors of a partition, ascending.
fn add_executors(
    alloc: Global,
    script: &Script,
    partition: PartitionId,
    actors: &mut Vec<AnyActor>,
) -> Result<(), NoMemory>
    requires { IsFrom 1 script.now.topology.partitions partition.0 }
    ensures { OnOk result ((names : List ActorName) → AreNew script.now names actors.old.items
        → AreNew script.now (names ++ map (λ s. ActorName.Executor s)
        (ranks_of script.now partition.0)) actors.new.items) }
{
    for rank in 1..script.topology.replicas() + 1 {
        let site = Site {
            partition,
            rank: Rank(rank),
        };
        let executor = Executor::new(alloc, &script.topology, site)?;
        actors.push(AnyActor::Executor(executor))?;
    }
    Ok(())
}

// A session with its own commands, in order.
fn session(alloc: Global, script: &Script, id: SessionId) -> Result<AnyActor, NoMemory>
    requires known { IsFrom 1 (length script.now.homes) id.0 }
    requires few { length script.now.commands ≤ 1000 }
    ensures { IfOk result (λ session. IsNew script.now (ActorName.Session id) session) }
{
    let commands = commands_of(alloc, script, id)?;
    let home = match script.homes.get(id.0 as usize - 1) {
        Some(home) => *home,
        None => Rank(0),
    };
    Ok(AnyActor::Session(Session::new(alloc, id, home, &script.topology, commands)))
}

fn commands_of(alloc: Global, script: &Script, id: SessionId) -> Result<Commands, NoMemory>
    ensures { IfOk result (λ commands. commands ≡ commands_by id.0 script.now.commands) }
{
    let mut commands = Commands::new(alloc);
    for command in script.commands.as_slice() {
        if command.id.session == id {
            commands.add(command.copy()?)?;
        }
    }
    Ok(commands)
}
