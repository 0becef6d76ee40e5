ghost use Rattle.std.specs.Prelude.{◌≡◌, ◌++◌, IfOk, OnOk};
ghost use Rattle.tp_rules.specs.Addresses.{executors_of, to_each};
ghost use Rattle.tp_rules.specs.Executor.{declarations};

use crate::others::reaches;
use std::alloc::Global;
use tp_base::{ActorName, CommandId, NoMemory, PartitionId, Rank, Sequence, Site};
use tp_ops::Command;
use tp_rules::Outputs;
use tp_topology::Topology;
use tp_wire::{Body, Message};

/// Tells all executors of a partition that a command is declared.
fn declare_to(
    outputs: &mut Outputs,
    topology: &Topology,
    site: Site,
    partition: PartitionId,
    id: CommandId,
) -> Result<(), NoMemory>
    ensures { OnOk result (outputs.new ≡ outputs.old ++ to_each (ActorName.Executor site)
        (executors_of topology.now partition.0) (Body.MStable id)) }
{
    for i in 0..topology.replicas() {
        outputs.add(Message {
            from: ActorName::Executor(site),
            to: ActorName::Executor(Site {
                partition,
                rank: Rank(i + 1),
            }),
            body: Body::MStable { id },
        })?;
    }
    Ok(())
}

/// What a site's executor sends where it declares a command.
#[tactic(auto, unfolding(tp_rules::specs::Executor::declarations))]
pub fn declarations(
    alloc: Global,
    topology: &Topology,
    site: Site,
    command: &Command,
) -> Result<Outputs, NoMemory>
    ensures { IfOk result (λ outputs. outputs ≡ declarations topology.now site command.now) }
{
    let mut outputs = Sequence::new(alloc);
    let partitions = topology.partitions();
    for i in 0..partitions {
        let q = PartitionId(i + 1);
        if reaches(partitions, command, site.partition, q) {
            declare_to(&mut outputs, topology, site, q, command.id)?;
        }
    }
    Ok(outputs)
}
