//! An executor: it learns which commands are committed and which promises were made, executes the
//! committed commands in the order of their keys, and sends the answers to the sessions.
#![tactic(auto)]

mod declaration;
mod executor;
mod others;
mod why;

pub use executor::Executor;
pub use why::Why;
