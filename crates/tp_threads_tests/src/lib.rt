//! The gate that actors pass, on one thread, on two and in whole runs, and actors that are watched: they want memory at a
//! step, or two of them take a message at once. Everything here is for tests.
#![tactic(auto)]

mod passing;
mod runs;
mod watch;
mod watched;

pub use passing::both_pass;
pub use runs::{Ended, drive_watched, is_run, read, run_gated, run_watched, wants_memory};
pub use watch::{Side, Watch};
pub use watched::{Watched, watch_all};

#[cfg(test)]
mod gates;
#[cfg(test)]
mod memory;
#[cfg(test)]
mod tests;
