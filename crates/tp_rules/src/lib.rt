//! The rules of the actors, as definitions, what an actor is, and which messages it takes at all.
#![tactic(auto)]

mod actor;
mod addressed;
mod event;

pub use actor::Actor;
pub use addressed::{is_command_at, is_name_of};
pub use event::{Entries, Entry, Event, Inner, Item, Outputs, Parcel, Parcels};
