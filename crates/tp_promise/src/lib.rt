//! What an executor was told of the promises of its partition's processes, and how far they count.
#![tactic(auto)]

mod book;
mod page;
mod pairs;
mod ranges;

pub use book::Book;
