use thiserror::Error;
use tp_text::{TextError, TextFault};
use tp_wire::WireFault;

/// Why a line is faulty.
#[derive(Clone, Copy, Debug, PartialEq, Eq, Error)]
pub enum JournalCause {
    /// The first line isn't `journal 1`.
    #[error("header")]
    Header,
    /// The first line names a later format.
    #[error("newer")]
    Newer,
    /// The input ends before the line does.
    #[error("missing")]
    Missing,
    /// A word that may not stand there, a missing or a further one.
    #[error("word")]
    Word,
    /// No number of the range.
    #[error("number")]
    Number,
    /// An output that is no hexadecimal.
    #[error("hex")]
    Hex,
    /// An output whose bytes are no message.
    #[error("{0}")]
    Wire(WireFault),
}

/// The first faulty line of a journal's text, counted in the whole input, and its first fault.
pub type JournalFault = TextFault<JournalCause>;

/// Why no journal was read.
pub type JournalError = TextError<JournalCause>;

// Why a part of a line was not read.
pub(crate) type Refusal = tp_text::Refusal<JournalCause>;
