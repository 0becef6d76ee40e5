//! The outside, as traits that count their faults: a source of bytes and a sink for them, over memory or over std.
//! And the gate that threads pass, at which a test makes one wait.
#![tactic(auto)]

mod calls;
mod gate;
mod memory;
mod sink;
mod source;
mod standard;
mod sure;
mod whole;

pub use gate::{Gate, HoldGate, OpenGate};
pub use memory::{MemorySink, MemorySource};
pub use sink::{Sink, WriteFault};
pub use source::{Failed, Source};
pub use standard::{StdSink, StdSource};
pub use sure::{SureSink, SureSource};
pub use whole::{ReadError, read_to_limit, write_all};
