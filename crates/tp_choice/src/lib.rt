//! What a process answers to a recovery, and the stamp that a recovery chooses from the answers.
#![tactic(auto)]

mod answer;
mod recovery;

pub use answer::RecoveryAnswer;
pub use recovery::choose;
