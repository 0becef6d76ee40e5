ghost use Rattle.std.specs.Prelude.{◌≡◌, ◌<◌, ◌≤◌, IfErr, IfOk, IfSome, OnOk, OnErr, length, take};
ghost use Rattle.std.specs.Io.KnownBytes.{Appends, Consumes, IsAtEnd};
ghost use Rattle.tp_outside.specs.Causes.{HasCause};
ghost use Rattle.tp_outside.specs.declared.whole.ReadError.{ReadError};
ghost use Rattle.tp_outside.specs.Bytes.{TakesAtMost, TakesFewer, AppendsFront};

use crate::{Sink, Source, WriteFault};
use std::alloc::Global;
use thiserror::Error;
use tp_base::Bytes;

/// Why an input was not read.
#[derive(Clone, Copy, Debug, PartialEq, Eq, Error)]
pub enum ReadError {
    #[error("failed")]
    Failed,
    #[error("memory")]
    NoMemory,
}

const CHUNK: usize = 4096;

/// Reads to the end of the input, or until this many bytes were read.
pub fn read_to_limit<S: Source>(
    alloc: Global,
    source: &mut S,
    limit: usize,
) -> Result<Bytes, ReadError>
    ensures first { IfOk result (λ bytes. IfSome (S.left source.old) (λ left. bytes ≡ take limit left)) }
    ensures rest { IfOk result (λ bytes. Consumes (S.left source.old) (S.left source.new) bytes) }
    ensures most { IfOk result (λ bytes. length bytes ≤ limit) }
    ensures end { IfOk result (λ bytes. length bytes < limit → S.ended source.new × IsAtEnd (S.left source.new)) }

    // After a refusal too, what was taken is the front of what was left.
    ensures taken { TakesAtMost limit (S.left source.old) (S.left source.new) }

    // A read fails only where fewer bytes than the limit were taken.
    ensures below { IfErr result (λ error. error ≡ ReadError.Failed
        → TakesFewer limit (S.left source.old) (S.left source.new)) }
    ensures cause { HasCause (S.faults source.old) (S.faults source.new) result ReadError.Failed }
{
    let mut bytes = Vec::new(alloc);
    let mut chunk = [0u8; CHUNK];
    while bytes.len() < limit {
        let room = CHUNK.min(limit - bytes.len());
        let Ok(count) = source.read(&mut chunk[..room]) else {
            return Err(ReadError::Failed);
        };
        if count == 0 {
            break;
        }
        if bytes.extend_from_slice(&chunk[..count]).is_err() {
            return Err(ReadError::NoMemory);
        }
    }
    Ok(Bytes::from_vec(bytes))
}

/// Writes all the bytes, offering the sink each time all that are left.
pub fn write_all<K: Sink>(sink: &mut K, bytes: &[u8]) -> Result<(), WriteFault>
    ensures all { OnOk result (Appends (K.written sink.old) (K.written sink.new) bytes.now) }
    ensures front { OnErr result (AppendsFront (K.written sink.old) (K.written sink.new) bytes.now) }
    ensures cause { HasCause (K.faults sink.old) (K.faults sink.new) result WriteFault.Failed }
{
    let mut rest = bytes;
    while !rest.is_empty() {
        let count = sink.write(rest)?;
        rest = &rest[count..];
    }
    Ok(())
}
