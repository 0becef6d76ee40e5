ghost use Rattle.std.specs.Prelude.{◌≡◌, ◌↔◌, ℕ, List, [], ◌∷◌, ◌++◌, ◌<◌, ◌≤◌, Some, Contains, IsErr, IfOk, OnErr, IsErrOf, length, min, take, drop};
ghost use Rattle.std.specs.Io.{ReadsAtMost, WritesAtMost};
ghost use Rattle.std.specs.Io.KnownBytes.{ReadConsumes, WriteAppends};
ghost use Rattle.tp_outside.specs.Causes.{HasCause, read_failed, raised};

use crate::calls::Calls;
use crate::{Failed, Sink, Source, SureSink, SureSource, WriteFault};
use std::alloc::Global;
use std::marker::Model;
use tp_base::{Bytes, Picks};

/// A source over memory. Its reads are numbered from 1, and those of some numbers fail.
#[derive(Drop)]
pub struct MemorySource {
    inner: SureSource,
    calls: Calls,
}

impl Model for MemorySource {
    ghost use Rattle.tp_outside.specs.Memory.{Input};

    ghost Value = { Input };

    ghost view = { λ s. record { left = s.inner; failing = s.calls.failing; calls = s.calls.made; faults = s.calls.faults } };
}

impl MemorySource {
    pub fn new(bytes: Bytes, failing: Picks) -> Self
        ensures { result ≡ record { left = bytes; failing = failing; calls = 0; faults = 0 } }
    {
        MemorySource {
            inner: SureSource::new(bytes),
            calls: Calls::new(failing),
        }
    }

    /// The bytes that are left to be read.
    pub fn left(&self) -> &[u8]
        ensures { result.now ≡ self.now.left }
    {
        self.inner.left()
    }
}

impl Source for MemorySource {
    ghost left = { λ s. Some s.left };

    ghost ended = { λ s. s.left ≡ [] };

    ghost faults = { λ s. s.faults };

    fn read(&mut self, buf: &mut [u8]) -> Result<usize, Failed>
        ensures bound { ReadsAtMost result buf.new }
        ensures bytes { ReadConsumes (Some self.old.left) (Some self.new.left) result buf.new }
        ensures end { IfOk result (λ n. n ≡ 0 → 0 < length buf.new → self.new.left ≡ []) }
        ensures cause { HasCause self.old.faults self.new.faults result read_failed }

        ensures fails { IsErr result ↔ Contains self.old.failing (raised self.old.calls) }
        ensures failed { OnErr result (self.new
            ≡ record self.old { calls = raised self.old.calls; faults = raised self.old.faults }) }

        // It gives as many as there are and as fit.
        ensures count { IfOk result (λ n. n ≡ min (length buf.old) (length self.old.left)) }
        ensures front { IfOk result (λ n. buf.new ≡ take n self.old.left ++ drop n buf.old) }
        ensures read { IfOk result (λ n. self.new
            ≡ record self.old { left = drop n self.old.left; calls = raised self.old.calls }) }
    {
        if self.calls.next_fails() {
            return Err(Failed);
        }
        self.inner.read(buf)
    }
}

/// A sink over memory. Its writes are numbered from 1, those of some numbers fail, and each takes at most one piece.
#[derive(Drop)]
pub struct MemorySink {
    inner: SureSink,
    piece: usize,
    calls: Calls,
}

impl Model for MemorySink {
    ghost use Rattle.std.specs.Prelude.{◌≤◌};
    ghost use Rattle.tp_outside.specs.Memory.{Output};

    ghost Value = { Output };

    ghost view = { λ s. record { written = s.inner; piece = s.piece; failing = s.calls.failing; calls = s.calls.made; faults = s.calls.faults } };

    ghost invariant = { λ s. 1 ≤ s.piece };
}

impl MemorySink {
    pub fn new(alloc: Global, piece: usize, failing: Picks) -> Self
        requires { 1 ≤ piece }
        ensures { result ≡ record { written = []; piece = piece; failing = failing; calls = 0; faults = 0 } }
    {
        MemorySink {
            inner: SureSink::new(alloc),
            piece,
            calls: Calls::new(failing),
        }
    }

    /// The bytes that were written.
    pub fn written(&self) -> &[u8]
        ensures { result.now ≡ self.now.written }
    {
        self.inner.written()
    }

    /// The bytes that were written. It takes no memory.
    pub fn into_bytes(self) -> Bytes
        ensures { result ≡ self.written }
    {
        self.inner.into_bytes()
    }
}

impl Sink for MemorySink {
    ghost written = { λ s. Some s.written };

    ghost faults = { λ s. s.faults };

    fn write(&mut self, bytes: &[u8]) -> Result<usize, WriteFault>
        ensures bound { WritesAtMost result bytes.now }
        ensures some { IfOk result (λ n. 0 < length bytes.now → 1 ≤ n) }
        ensures bytes { WriteAppends (Some self.old.written) (Some self.new.written) result bytes.now }
        ensures cause { HasCause self.old.faults self.new.faults result WriteFault.Failed }

        ensures fails { IsErrOf result WriteFault.Failed ↔ Contains self.old.failing (raised self.old.calls) }
        ensures failed { IsErrOf result WriteFault.Failed → self.new
            ≡ record self.old { calls = raised self.old.calls; faults = raised self.old.faults } }
        ensures memory { IsErrOf result WriteFault.NoMemory
            → self.new ≡ record self.old { calls = raised self.old.calls } }

        // It takes as much as one piece, where there is memory.
        ensures count { IfOk result (λ n. n ≡ min (length bytes.now) self.old.piece) }
        ensures written { IfOk result (λ n. self.new
            ≡ record self.old { written = self.old.written ++ take n bytes.now; calls = raised self.old.calls }) }
    {
        if self.calls.next_fails() {
            return Err(WriteFault::Failed);
        }
        let count = bytes.len().min(self.piece);
        self.inner.write(&bytes[..count])
    }
}
