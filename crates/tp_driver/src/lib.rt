//! Runs a script's actors one step at a time.
#![tactic(auto)]

mod acting;
mod choice;
mod steps;

pub use acting::act;
pub use steps::drive;
