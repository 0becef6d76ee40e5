//! Actors that work beside each other, each at its own desk of a shared journal.
#![tactic(auto)]

mod acting;
mod bells;
mod cell;
mod post;
mod step;
mod threads;
mod working;

pub use cell::{Cell, CellState};
pub use threads::rounds;
pub use working::work;
