ghost use Rattle.std.specs.Prelude.{◌≡◌, ◌≤◌};
ghost use Rattle.tp_base.specs.Partition.{partition_number};

use crate::names::PartitionId;

/// The partition that a key belongs to.
pub fn partition_of(key: &[u8], partitions: u8) -> PartitionId
    requires some { 1 ≤ partitions }
    requires few { partitions ≤ 4 }
    ensures { result.0 ≡ partition_number key.now partitions }
{
    let mut total = 0u128;
    for byte in key {
        total += u128::from(*byte);
    }
    // A remainder of 64 bits is one instruction; a sum of 128 takes a key of more than 2^56 bytes.
    let rest = match u64::try_from(total) {
        Ok(total) => (total % u64::from(partitions)) as u8,
        Err(_) => (total % u128::from(partitions)) as u8,
    };
    PartitionId(rest + 1)
}
