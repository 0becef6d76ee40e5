use tp_base::{Made, Rank, Stamp};

/// What the process of a rank answers to a recovery: the stamp that it accepted with its ballot, or
/// its proposal and 0.
#[derive(Clone, Copy, Debug, PartialEq, Eq)]
pub struct RecoveryAnswer {
    pub rank: Rank,
    pub stamp: Stamp,
    pub made: Made,
    pub accepted: u64,
}
