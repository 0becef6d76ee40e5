//! The committed commands that wait for their execution.
#![tactic(auto)]

mod queue;

pub use queue::Queue;
