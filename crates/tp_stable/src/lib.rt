//! Which stamps are stable at an executor.
#![tactic(auto)]

mod stability;

pub use stability::{is_stable, threshold};
