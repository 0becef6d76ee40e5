ghost use Rattle.std.specs.Prelude.{◌≡◌, ℕ, List, [], ◌∷◌, ◌++◌, ◌<◌, ◌≤◌, Some, IsOk, IfOk, IsOkAnd, OnErr, IsErrOf, length, min, take, drop};
ghost use Rattle.std.specs.Io.{ReadsAtMost, WritesAtMost};
ghost use Rattle.std.specs.Io.KnownBytes.{ReadConsumes, WriteAppends};
ghost use Rattle.tp_outside.specs.Causes.{HasCause, read_failed};

use crate::{Failed, Sink, Source, WriteFault};
use std::alloc::Global;
use std::marker::Model;
use tp_base::Bytes;

/// A source over memory that never fails. Contracts see it as the bytes that are left.
#[derive(Drop)]
pub struct SureSource {
    bytes: Bytes,
    place: usize,
}

impl Model for SureSource {
    ghost use Rattle.std.specs.Prelude.{List, ℕ, ◌≤◌, drop, length};

    ghost Value = { List ℕ };

    ghost view = { λ s. drop s.place s.bytes };

    ghost invariant = { λ s. s.place ≤ length s.bytes };
}

impl SureSource {
    pub fn new(bytes: Bytes) -> Self
        ensures { result ≡ bytes }
    {
        SureSource { bytes, place: 0 }
    }

    /// The bytes that are left to be read.
    pub fn left(&self) -> &[u8]
        ensures { result.now ≡ self.now }
    {
        &self.bytes.as_slice()[self.place..]
    }
}

impl Source for SureSource {
    ghost left = { λ s. Some s };

    ghost ended = { λ s. s ≡ [] };

    ghost faults = { λ _. 0 };

    fn read(&mut self, buf: &mut [u8]) -> Result<usize, Failed>
        ensures bound { ReadsAtMost result buf.new }
        ensures bytes { ReadConsumes (Some self.old) (Some self.new) result buf.new }
        ensures end { IfOk result (λ n. n ≡ 0 → 0 < length buf.new → self.new ≡ []) }
        ensures cause { HasCause 0 0 result read_failed }

        // It gives as many as there are and as fit.
        ensures count { IsOkAnd result (λ n. n ≡ min (length buf.old) (length self.old)) }
        ensures front { IfOk result (λ n. buf.new ≡ take n self.old ++ drop n buf.old) }
        ensures left { IfOk result (λ n. self.new ≡ drop n self.old) }
    {
        let left = &self.bytes.as_slice()[self.place..];
        let count = copy_front(left, buf);
        self.place += count;
        Ok(count)
    }
}

// Copies as much as is there and fits, and answers how much.
fn copy_front(from: &[u8], to: &mut [u8]) -> usize
    ensures count { result ≡ min (length to.old) (length from.now) }
    ensures front { to.new ≡ take result from.now ++ drop result to.old }
{
    let count = to.len().min(from.len());
    to[..count].copy_from_slice(&from[..count]);
    count
}

/// A sink over memory that never fails. Contracts see it as the bytes that were written.
#[derive(Drop)]
pub struct SureSink {
    bytes: Vec<u8>,
}

impl Model for SureSink {
    ghost use Rattle.std.specs.Prelude.{List, ℕ};

    ghost Value = { List ℕ };

    ghost view = { λ s. s.bytes.items };
}

impl SureSink {
    pub fn new(alloc: Global) -> Self
        ensures { result ≡ [] }
    {
        SureSink {
            bytes: Vec::new(alloc),
        }
    }

    /// The bytes that were written.
    pub fn written(&self) -> &[u8]
        ensures { result.now ≡ self.now }
    {
        &self.bytes
    }

    /// The bytes that were written. It takes no memory.
    pub fn into_bytes(self) -> Bytes
        ensures { result ≡ self }
    {
        Bytes::from_vec(self.bytes)
    }
}

impl Sink for SureSink {
    ghost written = { λ s. Some s };

    ghost faults = { λ _. 0 };

    fn write(&mut self, bytes: &[u8]) -> Result<usize, WriteFault>
        ensures bound { WritesAtMost result bytes.now }
        ensures some { IfOk result (λ n. 0 < length bytes.now → 1 ≤ n) }
        ensures bytes { WriteAppends (Some self.old) (Some self.new) result bytes.now }
        ensures cause { HasCause 0 0 result WriteFault.Failed }

        // It takes the whole piece where there is memory.
        ensures whole { IfOk result (λ n. n ≡ length bytes.now) }
        ensures written { IfOk result (λ n. self.new ≡ self.old ++ bytes.now) }
        ensures memory { OnErr result (IsErrOf result WriteFault.NoMemory) }
    {
        match self.bytes.extend_from_slice(bytes) {
            Ok(()) => Ok(bytes.len()),
            Err(_) => Err(WriteFault::NoMemory),
        }
    }
}
