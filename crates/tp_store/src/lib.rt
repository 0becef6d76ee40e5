//! The contents of a partition's replica.
#![tactic(auto)]

mod store;

pub use store::Store;
