//! A client session: it submits its commands in order, keeps the answers of their partitions, and
//! tells the reply to each command.
#![tactic(auto)]

mod answered;
mod session;
mod submissions;

pub use session::Session;
