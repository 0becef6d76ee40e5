//! A growable list of bits, in which the set bit of a rank is found by counts over blocks.
#![tactic(auto)]

mod bits;
mod tally;

pub use bits::Bits;
