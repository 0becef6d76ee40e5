ghost use Rattle.std.specs.Prelude.{◌≡◌, ◌==◌, ◌++◌, not, filter, map, IfOk, OnOk};
ghost use Rattle.std.specs.List.{flat_map};
ghost use Rattle.tp_base.specs.Names.{same_name};
ghost use Rattle.tp_rules.specs.Addresses.{site, to_each, accessed, others_accessed, processes_of as processes, executors_of as executors};

use crate::place::Place;
use std::alloc::Global;
use tp_base::{ActorName, Duplicate, NoMemory, PartitionId, Rank, Sequence, Site};
use tp_ops::{Command, accesses};
use tp_rules::Outputs;
use tp_topology::Topology;
use tp_wire::{Body, Message};

/// Names of actors, in order.
pub(crate) type Names = Sequence<ActorName>;

/// Sends what one body says to each of several actors.
pub(crate) fn send_each(
    outputs: &mut Outputs,
    from: ActorName,
    names: &[ActorName],
    body: &Body,
) -> Result<(), NoMemory>
    ensures { OnOk result (outputs.new ≡ outputs.old ++ to_each from names.now body.now) }
{
    for name in names {
        outputs.add(Message {
            from,
            to: *name,
            body: body.copy()?,
        })?;
    }
    Ok(())
}

/// The executors of a partition.
pub(crate) fn executors_of(
    alloc: Global,
    topology: &Topology,
    partition: PartitionId,
) -> Result<Names, NoMemory>
    ensures { IfOk result (λ names. names ≡ executors topology.now partition.0) }
{
    let mut names = Sequence::new(alloc);
    for rank in 1..topology.replicas() + 1 {
        names.add(ActorName::Executor(Site {
            partition,
            rank: Rank(rank),
        }))?;
    }
    Ok(names)
}

/// The processes of a partition.
pub(crate) fn processes_of(
    alloc: Global,
    topology: &Topology,
    partition: PartitionId,
) -> Result<Names, NoMemory>
    ensures { IfOk result (λ names. names ≡ processes topology.now partition.0) }
{
    let mut names = Sequence::new(alloc);
    for rank in 1..topology.replicas() + 1 {
        names.add(ActorName::Process(Site {
            partition,
            rank: Rank(rank),
        }))?;
    }
    Ok(names)
}

/// The processes of this rank in the other partitions of a command.
pub(crate) fn counterparts(
    alloc: Global,
    place: &Place,
    command: &Command,
) -> Result<Names, NoMemory>
    ensures { IfOk result (λ names. names ≡ map (λ q. ActorName.Process (site q place.now.site.rank.0))
        (others_accessed place.now.topology command.now place.now.site.partition.0)) }
{
    let mut names = Sequence::new(alloc);
    for number in 1..place.topology.partitions() + 1 {
        let partition = PartitionId(number);
        if accesses(command, place.topology.partitions(), partition)
            && partition != place.site.partition
        {
            names.add(ActorName::Process(Site {
                partition,
                rank: place.site.rank,
            }))?;
        }
    }
    Ok(names)
}

/// The other processes of all partitions of a command.
pub(crate) fn other_processes(
    alloc: Global,
    place: &Place,
    command: &Command,
) -> Result<Names, NoMemory>
    ensures { IfOk result (λ names. names ≡ filter (λ to. not (same_name to (ActorName.Process place.now.site)))
        (flat_map (processes place.now.topology) (accessed place.now.topology command.now))) }
{
    let mut names = Sequence::new(alloc);
    for number in 1..place.topology.partitions() + 1 {
        let partition = PartitionId(number);
        if accesses(command, place.topology.partitions(), partition) {
            add_others(&mut names, place, partition)?;
        }
    }
    Ok(names)
}

/// Adds the processes of a partition, but for that of this place.
fn add_others(names: &mut Names, place: &Place, partition: PartitionId) -> Result<(), NoMemory>
    ensures { OnOk result (names.new ≡ names.old ++ filter
        (λ to. not (same_name to (ActorName.Process place.now.site))) (processes place.now.topology partition.0)) }
{
    for rank in 1..place.topology.replicas() + 1 {
        let site = Site {
            partition,
            rank: Rank(rank),
        };
        if site != place.site {
            names.add(ActorName::Process(site))?;
        }
    }
    Ok(())
}
