//! The journal: one entry for each step of a run.
#![tactic(auto)]

mod journal;

pub use journal::{Journal, output};
