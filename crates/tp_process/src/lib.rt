//! The process of a site: it proposes stamps for commands, decides them, and announces what it
//! promised.
#![tactic(auto)]

mod acknowledgement;
mod addresses;
mod announcement;
mod commit;
mod consensus;
mod place;
mod process;
mod recovery;
mod sheets;
mod submission;

pub use process::Process;
