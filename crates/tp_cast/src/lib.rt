//! The script's actors, each of its sort, as the trait asks.
#![tactic(auto)]

mod actors;
mod any_actor;

pub use actors::cast;
pub use any_actor::AnyActor;
