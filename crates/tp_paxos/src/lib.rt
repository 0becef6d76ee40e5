//! The consensus on one stamp: what an acceptor accepts, which votes decide, and whose each ballot
//! is.
#![tactic(auto)]

mod acceptor;
mod ballot;
mod proposer;

pub use acceptor::Acceptor;
pub use ballot::{next_ballot, owner};
pub use proposer::Proposer;
