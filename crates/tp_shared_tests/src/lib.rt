//! Two threads that write one journal in turn, and a site that crashes. Everything here is for tests.
#![tactic(auto)]

mod crash;
mod scripts;
mod sessions;
mod turns;

pub use crash::after_a_crash;
pub use scripts::{small, small_session};
pub use sessions::submit;
pub use turns::{both, idle};

#[cfg(test)]
mod tests;
