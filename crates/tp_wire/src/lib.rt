//! The messages that actors send to each other, and their bytes.
#![tactic(auto)]

mod bodies;
mod codec;
mod commands;
mod fault;
mod fields;
mod message;
mod names;
mod writing;

pub use codec::{decode, encode};
pub use fault::{WireCause, WireError, WireFault};
pub use message::{Body, Message};
