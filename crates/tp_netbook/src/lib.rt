//! The steps that may come next in a run: the plan lines that are due, the messages that wait, and
//! the actors' own steps.
#![tactic(auto)]

mod inbox;
mod ledger;
mod line;
mod netbook;
mod output;
mod own_steps;
mod packed;
mod roster;
mod watch;

pub use inbox::Inbox;
pub use ledger::Ledger;
pub use netbook::Netbook;
pub use own_steps::OwnSteps;
pub use roster::place_of;
