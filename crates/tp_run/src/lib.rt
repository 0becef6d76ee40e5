//! The program's words, from the bytes of the input to those of the output.
#![tactic(auto)]

mod both;
mod call;
mod finished;
mod looking;
mod plain;
mod reading;
mod serving;
mod text;
mod threaded;
mod top;

pub use call::Call;
pub use finished::{Cause, Finished};
pub use plain::tempo_plain;
pub use reading::{Given, read_to_check};
pub use serving::{Answer, finish, refused, without_cause};
pub use text::INPUT_LIMIT;
pub use threaded::tempo_run;
pub use top::tempo;
pub use tp_cast::AnyActor;
