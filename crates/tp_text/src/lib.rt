//! Texts of lines and words: read from left to right, and written.
#![tactic(auto)]

mod cut;
mod fault;
mod framing;
mod hexadecimal;
mod lines;
mod names;
mod numbers;
mod words;
mod written;

pub use cut::halves;
pub use fault::{Refusal, TextError, TextFault};
pub use framing::{HeaderCauses, LineReader, take_header, take_line, take_lines};
pub use hexadecimal::{HexFault, hex};
pub use lines::{LineFault, Lines};
pub use names::{put_actor, put_id, put_number, put_site};
pub use numbers::{NumberFault, number, number_from};
pub use words::{Words, take_end};
pub use written::Text;
