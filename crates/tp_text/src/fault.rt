ghost use Rattle.std.specs.Prelude.{◌≡◌};
ghost use Rattle.tp_text.specs.declared.fault.Refusal.TheVariants.{Memory};

use std::alloc::{AllocError, AllocFailed};
use std::error::Error;
use std::fmt;
use tp_base::NoMemory;

/// The first faulty line of a text, counted from 1 in the whole input, and its first fault.
#[derive(Clone, Copy, Debug, PartialEq, Eq)]
pub struct TextFault<C> {
    pub line: u64,
    pub cause: C,
}

impl<C: fmt::Display> fmt::Display for TextFault<C> {
    fn fmt<W: fmt::Write>(&self, f: &mut fmt::Formatter<W>) -> fmt::Result {
        write!(f, "line {}: {}", self.line, self.cause)
    }
}

impl<C: fmt::Debug + fmt::Display + Drop> Error for TextFault<C> {}

/// Why no text was read.
#[derive(Clone, Copy, Debug, PartialEq, Eq)]
pub enum TextError<C> {
    Fault(TextFault<C>),
    NoMemory,
}

impl<C: fmt::Display> fmt::Display for TextError<C> {
    fn fmt<W: fmt::Write>(&self, f: &mut fmt::Formatter<W>) -> fmt::Result {
        match self {
            TextError::Fault(fault) => write!(f, "{fault}"),
            TextError::NoMemory => write!(f, "memory"),
        }
    }
}

impl<C: fmt::Debug + fmt::Display + Drop> Error for TextError<C> {}

/// Why a part of a line was not read.
#[derive(Clone, Copy, Debug, PartialEq, Eq)]
pub enum Refusal<C> {
    Memory,
    Cause(C),
}

impl<C> From<NoMemory> for Refusal<C> {
    ghost from_gives = { λ _ e. e ≡ Memory };

    fn from(_: NoMemory) -> Self {
        Refusal::Memory
    }
}

impl<C> From<AllocError> for Refusal<C> {
    ghost from_gives = { λ _ e. e ≡ Memory };

    fn from(_: AllocError) -> Self {
        Refusal::Memory
    }
}

impl<C, T: Drop> From<AllocFailed<T>> for Refusal<C> {
    ghost from_gives = { λ _ e. e ≡ Memory };

    fn from(_: AllocFailed<T>) -> Self {
        Refusal::Memory
    }
}
