//! The shape of the replicated store, and the sizes of its quorums.
#![tactic(auto)]

mod topology;

pub use topology::{BadShape, Topology};
