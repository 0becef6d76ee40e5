//! The names that every layer speaks of, lists of them, and fields of bytes.
#![tactic(auto)]

mod cut;
mod names;
mod partition;
mod put;
mod sequence;
mod shared;

pub use cut::{Cut, CutFault};
pub use names::{
    ActorName, CommandId, Key, Made, NoMemory, Pair, PartitionId, Rank, STAMP_LIMIT, SessionId,
    Site, Stamp,
};
pub use partition::partition_of;
pub use put::Put;
pub use sequence::{Bytes, Duplicate, Picks, Sequence};
pub use shared::{Pairs, Shared};
