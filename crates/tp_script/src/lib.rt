//! Scripts: the shape, the sessions with their commands, the plan of what goes wrong, and the picks.
#![tactic(auto)]

mod commands;
mod draft;
mod fault;
mod line;
mod names;
mod operations;
mod plan;
mod printer;
mod reader;
mod script;
mod setup;
mod words;

pub use fault::{ScriptCause, ScriptError, ScriptFault};
pub use printer::print_script;
pub use reader::read_script;
pub use script::{Commands, Homes, Plan, PlanLine, Script};
