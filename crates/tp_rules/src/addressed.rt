ghost use Rattle.std.specs.Prelude.{◌≡◌};
ghost use Rattle.tp_rules.specs.Addresses.{is_command_at, is_name_of};

use tp_base::{ActorName, PartitionId};
use tp_ops::{Command, accesses};
use tp_topology::Topology;

/// Whether an actor's site, if it is at one, is of the store's shape.
pub fn is_name_of(topology: &Topology, name: ActorName) -> bool
    ensures { result ≡ is_name_of topology.now name }
{
    match name {
        ActorName::Process(site) | ActorName::Executor(site) => topology.has_site(site),
        ActorName::Session(_) => true,
    }
}

/// Whether a command's home is a rank, and it accesses a partition.
pub fn is_command_at(topology: &Topology, p: PartitionId, command: &Command) -> bool
    ensures { result ≡ is_command_at topology.now p.0 command.now }
{
    topology.has_rank(command.home) && accesses(command, topology.partitions(), p)
}
