//! The fates that a plan gives to outputs, by their numbers on their routes, and what is left of each
//! output: its deliveries, or its loss.
#![tactic(auto)]

mod deliveries;
mod fate;
mod route;

pub use deliveries::{Deliveries, Left, Slot};
pub use fate::{Fate, Fates};
pub use route::{Route, Routes};
