//! The shared journal: a journal that several desks write in turn. Whoever holds the turn has the whole
//! history in hand, and what a desk has seen never shrinks.
#![tactic(auto)]

mod desk;
mod entering;
mod fetching;
mod law;
mod looking;
mod shared;
mod steps;
mod view;

pub use desk::Desk;
pub use entering::EnterFault;
pub use shared::{BeginFault, Shared};
