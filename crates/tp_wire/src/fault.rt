ghost use Rattle.std.specs.Prelude.{◌≡◌};
ghost use Rattle.tp_wire.specs.declared.fault.WireError.TheVariants.{NoMemory as Memory};

use std::alloc::{AllocError, AllocFailed};
use thiserror::Error;

/// Where bytes stop being a message: the first byte of the first faulty field, counted from 0.
#[derive(Clone, Copy, Debug, PartialEq, Eq, Error)]
#[error("wire {place} {cause}")]
pub struct WireFault {
    pub place: u64,
    pub cause: WireCause,
}

/// Why a field is faulty.
#[derive(Clone, Copy, Debug, PartialEq, Eq, Error)]
pub enum WireCause {
    /// The bytes end before the field does.
    #[error("short")]
    Short,
    /// The first byte is no kind of message.
    #[error("kind")]
    Kind,
    /// The field is complete, and its value isn't allowed.
    #[error("range")]
    Range,
    /// Bytes follow the message.
    #[error("trailing")]
    Trailing,
}

/// Why no message was decoded.
#[derive(Clone, Copy, Debug, PartialEq, Eq, Error)]
pub enum WireError {
    #[error("{0}")]
    Fault(WireFault),
    #[error("memory")]
    NoMemory,
}

impl From<tp_base::NoMemory> for WireError {
    ghost from_gives = { λ _ e. e ≡ Memory };

    fn from(_: tp_base::NoMemory) -> Self {
        WireError::NoMemory
    }
}

impl From<AllocError> for WireError {
    ghost from_gives = { λ _ e. e ≡ Memory };

    fn from(_: AllocError) -> Self {
        WireError::NoMemory
    }
}

impl<T: Drop> From<AllocFailed<T>> for WireError {
    ghost from_gives = { λ _ e. e ≡ Memory };

    fn from(_: AllocFailed<T>) -> Self {
        WireError::NoMemory
    }
}
