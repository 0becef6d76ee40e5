//! The clock of a process: which stamps it proposes, and which of its promises it has told.
#![tactic(auto)]

mod clock;

pub use clock::Clock;
