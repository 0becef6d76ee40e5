//! The texts that say what a run came to.
#![tactic(auto)]

mod commands;
mod events;
mod executions;
mod first_results;
mod journal;
mod line;
mod orders;
mod outcome;
mod replies;
mod reply;
mod report_text;
mod results;
mod site;
mod sites;
mod summary_text;
mod words;

pub use report_text::report;
pub use summary_text::summary;
