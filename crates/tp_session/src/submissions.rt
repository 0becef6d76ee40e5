ghost use Rattle.std.specs.Prelude.{◌≡◌, IfOk, map};
ghost use Rattle.tp_rules.specs.Addresses.{accessed, message, site, to_each};

use std::alloc::Global;
use tp_base::{ActorName, Duplicate, NoMemory, PartitionId, Rank, Sequence, SessionId, Site};
use tp_ops::{Command, accesses};
use tp_rules::Outputs;
use tp_topology::Topology;
use tp_wire::{Body, Message};

fn submission(
    id: SessionId,
    home: Rank,
    p: PartitionId,
    command: &Command,
) -> Result<Message, NoMemory>
    ensures { IfOk result (λ m. m ≡ message (ActorName.Session id) (ActorName.Process (site p.0 home.0))
        (Body.MSubmit command.now)) }
{
    let site = Site {
        partition: p,
        rank: home,
    };
    Ok(Message {
        from: ActorName::Session(id),
        to: ActorName::Process(site),
        body: Body::MSubmit {
            command: command.copy()?,
        },
    })
}

/// The command, to the process of its home in each partition that it accesses.
pub fn submissions(
    alloc: Global,
    topology: &Topology,
    id: SessionId,
    home: Rank,
    command: &Command,
) -> Result<Outputs, NoMemory>
    ensures { IfOk result (λ outputs. outputs ≡ to_each (ActorName.Session id)
        (map (λ p. ActorName.Process (site p home.0)) (accessed topology.now command.now)) (Body.MSubmit command.now)) }
{
    let mut outputs = Sequence::new(alloc);
    let partitions = topology.partitions();
    for i in 0..partitions {
        let p = PartitionId(i + 1);
        if accesses(command, partitions, p) {
            outputs.add(submission(id, home, p, command)?)?;
        }
    }
    Ok(outputs)
}
