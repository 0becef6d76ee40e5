use tp_base::{PartitionId, Stamp};

/// Why the committed command with the least key is not executed yet: the first that holds.
#[derive(Clone, Copy, Debug, PartialEq, Eq)]
pub enum Why {
    /// No committed command waits.
    Nothing,
    /// Its stamp is above the greatest stable number.
    NotStable { stamp: Stamp, threshold: u64 },
    /// It is on several partitions, and not declared here.
    NotDeclared,
    /// The least other partition that it is on and that has not declared it.
    Waits(PartitionId),
}
