ghost use Rattle.std.specs.Prelude.{◌≡◌, ◌≤◌, length};
ghost use Rattle.tp_ops.specs.Parts.{is_accessed, ops_on};

use crate::command::Command;
use tp_base::{PartitionId, partition_of};

/// Whether some operation of a command is on a partition.
#[tactic(auto, unfolding(crate::specs::Parts::is_accessed))]
pub fn accesses(c: &Command, partitions: u8, p: PartitionId) -> bool
    requires some { 1 ≤ partitions }
    requires few { partitions ≤ 4 }
    ensures { result ≡ is_accessed partitions c.now p.0 }
{
    c.ops
        .as_slice()
        .iter()
        .any(|op| partition_of(op.key(), partitions) == p)
}

/// How many operations of a command are on a partition.
#[tactic(auto, unfolding(crate::specs::Parts::ops_on))]
pub fn count_on(c: &Command, partitions: u8, p: PartitionId) -> usize
    requires some { 1 ≤ partitions }
    requires few { partitions ≤ 4 }
    ensures { result ≡ length (ops_on partitions p.0 c.now.ops) }
{
    let mut count = 0usize;
    for op in c.ops.as_slice() {
        if partition_of(op.key(), partitions) == p {
            count += 1;
        }
    }
    count
}
