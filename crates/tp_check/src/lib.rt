//! Checks a journal that is given: it is a run of the script, or its first illegal entry and the cause.
#![tactic(auto)]

mod cause;
mod checker;
mod laws;
mod printer;
mod same;
mod verdict;

pub use checker::check;
pub use laws::law_causes;
pub use printer::print_verdict;
pub use verdict::{EntryCause, Verdict};
