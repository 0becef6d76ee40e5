ghost use Rattle.std.specs.Prelude.{◌≡◌, ◌≤◌, ◌==◌, ◌&&◌, ◌↔◌, [], not, find, option_map, IsTrue};
ghost use Rattle.tp_mstable.specs.Declarations.{Calls, Keeps, is_heard};
ghost use Rattle.tp_ops.specs.Parts.{is_accessed};
ghost use Rattle.tp_rules.specs.Addresses.{others_accessed};

use tp_base::{CommandId, PartitionId};
use tp_mstable::Declared;
use tp_ops::{Command, accesses};
use tp_topology::Topology;

/// Whether a command accesses another partition.
pub fn reaches(partitions: u8, command: &Command, p: PartitionId, q: PartitionId) -> bool
    requires some { 1 ≤ partitions }
    requires few { partitions ≤ 4 }
    ensures { result ≡ (not (q.0 == p.0) && is_accessed partitions command.now q.0) }
{
    q != p && accesses(command, partitions, q)
}

/// Whether a command accesses no partition but one.
pub fn is_alone(topology: &Topology, p: PartitionId, command: &Command) -> bool
    ensures { IsTrue result ↔ (others_accessed topology.now command.now p.0 ≡ []) }
{
    let partitions = topology.partitions();
    for i in 0..partitions {
        if reaches(partitions, command, p, PartitionId(i + 1)) {
            return false;
        }
    }
    true
}

/// The first other partition of a command that it wasn't heard of from.
pub fn awaited(
    topology: &Topology,
    p: PartitionId,
    declared: &Declared,
    id: CommandId,
    command: &Command,
) -> Option<PartitionId>
    ensures { (calls : Calls) → Keeps declared.now calls
        → option_map (λ q. q.0) result ≡ find (λ q. not (is_heard calls.heard id q))
        (others_accessed topology.now command.now p.0) }
{
    let partitions = topology.partitions();
    for i in 0..partitions {
        let q = PartitionId(i + 1);
        if reaches(partitions, command, p, q) && !declared.has(id, q) {
            return Some(q);
        }
    }
    None
}
