use thiserror::Error;
use tp_text::{TextError, TextFault};

/// Why a line is faulty.
#[derive(Clone, Copy, Debug, PartialEq, Eq, Error)]
pub enum ScriptCause {
    /// Line 1 isn't `tempo 1`.
    #[error("header")]
    Header,
    /// Line 1 names a later format.
    #[error("newer")]
    Newer,
    /// The input ends before the line does.
    #[error("missing")]
    Missing,
    /// A word that may not stand there, a missing or a further one.
    #[error("word")]
    Word,
    /// No number of the range.
    #[error("number")]
    Number,
    /// Outside the ranges of a shape, or a site outside the shape.
    #[error("shape")]
    Shape,
    #[error("key")]
    Key,
    #[error("value")]
    Value,
    /// A session that isn't the next one, or a session or command that isn't there.
    #[error("session")]
    Session,
    /// A plan line that an earlier one speaks of already.
    #[error("duplicate")]
    Duplicate,
    /// More than there may be.
    #[error("limit {count} {limit}")]
    Limit { count: u64, limit: u64 },
}

/// The first faulty line of a script, from 1, and its first fault.
pub type ScriptFault = TextFault<ScriptCause>;

/// Why no script was read.
pub type ScriptError = TextError<ScriptCause>;

// Why a part of a line was not read.
pub(crate) type Refusal = tp_text::Refusal<ScriptCause>;
