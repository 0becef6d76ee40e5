//! A journal's text: the entries of a run with the messages that they send, read and printed.
#![tactic(auto)]

mod draft;
mod entry;
mod fault;
mod printer;
mod reader;
mod words;

pub use fault::{JournalCause, JournalError, JournalFault};
pub use printer::print_journal;
pub use reader::read_journal;
