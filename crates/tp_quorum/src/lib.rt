//! What a fast quorum's proposals decide, and the stamps of the partitions.
#![tactic(auto)]

mod choice;
mod gather;
mod known;

pub use choice::FastChoice;
pub use gather::Gather;
pub use known::Known;
