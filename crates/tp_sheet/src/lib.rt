//! What a process keeps of one command, and what each piece of the rules changes of it.
#![tactic(auto)]

mod acknowledge;
mod answers;
mod learn;
mod recover;
mod sheet;
mod vote;

pub use sheet::Sheet;
