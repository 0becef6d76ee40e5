//! Which commands an executor has declared stable, and which those of the other partitions have.
#![tactic(auto)]

mod declared;

pub use declared::Declared;
