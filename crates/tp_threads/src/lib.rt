//! Runs a script's actors beside each other, each on a thread of its own.
#![tactic(auto)]

mod ending;
mod starting;
mod threads;

pub use threads::run_on_threads;
