//! Operations on the store, their answers, and the commands that are made of them.
#![tactic(auto)]

mod access;
mod command;
mod operation;
mod parts;

pub use access::{accesses, count_on};
pub use command::Command;
pub use operation::{Answer, Answers, Op, Ops};
pub use parts::{Parts, merge};
