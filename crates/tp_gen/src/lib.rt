//! The script of a number: a load of commands for measuring, the same each time.
#![tactic(auto)]

mod commands;
mod generator;

pub use generator::gen_script;
