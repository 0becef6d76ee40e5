//! Sources and sinks that fail, and those of std.

ghost use Rattle.std.specs.Prelude.{◌≡◌, [], ◌∷◌, IfOk, IfSome, IfNone, OnOk, OnErr, IsErrOf};
ghost use Rattle.std.specs.Io.KnownBytes.{Appends, Consumes, IsAtEnd, Keeps};
ghost use Rattle.tp_outside.specs.Causes.{HasCause, read_failed};

use std::alloc::{AllocError, Global};
use std::io;
use std::io::Read;
use std::test::Fail;
use tp_base::{Bytes, Picks};
use tp_outside::{
    Failed, MemorySink, MemorySource, ReadError, Sink, Source, StdSink, StdSource, SureSink,
    SureSource, WriteFault, read_to_limit, write_all,
};

// The next byte, or none at the end.
fn next_byte<S: Source>(source: &mut S) -> Result<Option<u8>, Failed>
    ensures byte { IfOk result (λ next. IfSome next (λ byte.
        Consumes (S.left source.old) (S.left source.new) (byte ∷ []))) }
    ensures end { IfOk result (λ next. IfNone next (S.ended source.new × IsAtEnd (S.left source.new))) }
    ensures lost { OnErr result (Keeps (S.left source.old) (S.left source.new)) }
    ensures cause { HasCause (S.faults source.old) (S.faults source.new) result read_failed }
{
    let mut byte = [0u8];
    let count = source.read(&mut byte)?;
    Ok(if count == 0 { None } else { Some(byte[0]) })
}

fn put_byte<K: Sink>(sink: &mut K, byte: u8) -> Result<(), WriteFault>
    ensures written { OnOk result (Appends (K.written sink.old) (K.written sink.new) (byte ∷ [])) }
    ensures refused { OnErr result (Keeps (K.written sink.old) (K.written sink.new)) }
    ensures cause { HasCause (K.faults sink.old) (K.faults sink.new) result WriteFault.Failed }
{
    sink.write(&[byte])?;
    Ok(())
}

// Over a source that never fails no failure is answered.
fn sure_bytes(alloc: Global, source: &mut SureSource, limit: usize) -> Result<Bytes, ReadError>
    ensures { ¬ IsErrOf result ReadError.Failed }
{
    read_to_limit(alloc, source, limit)
}

fn bytes_of(alloc: Global, bytes: &[u8]) -> Result<Bytes, AllocError> {
    Ok(Bytes::from_vec(bytes.to_vec(alloc)?))
}

fn picks_of(alloc: Global, picks: &[u32]) -> Result<Picks, AllocError> {
    Ok(Picks::from_vec(picks.to_vec(alloc)?))
}

#[derive(Drop)]
struct Broken;

impl Read for Broken {
    fn read(&mut self, _buf: &mut [u8]) -> io::Result<usize> {
        Err(io::Error::from(io::ErrorKind::BrokenPipe))
    }
}

#[test]
fn a_memory_sink_takes_pieces_and_fails_by_number(rt: HostRuntime) -> Result<(), Fail> {
    let alloc = rt.alloc();
    let mut sink = MemorySink::new(alloc, 16, picks_of(alloc, &[2])?);
    let text = b"report 1\nreply 1.1 none\n";
    assert_eq!(rt; write_all(&mut sink, text), Err(WriteFault::Failed));
    assert_eq!(rt; sink.written(), b"report 1\nreply 1".as_slice());
    assert_eq!(rt; put_byte(&mut sink, b'.'), Ok(()));
    assert_eq!(rt;
        sink.into_bytes().as_slice(),
        b"report 1\nreply 1.".as_slice()
    );
    Ok(())
}

#[test]
fn a_memory_source_fails_by_number(rt: HostRuntime) -> Result<(), Fail> {
    let alloc = rt.alloc();
    let mut source = MemorySource::new(bytes_of(alloc, b"tempo 1\n")?, picks_of(alloc, &[1])?);
    assert_eq!(rt; next_byte(&mut source), Err(Failed));
    assert_eq!(rt; source.left(), b"tempo 1\n".as_slice());
    assert_eq!(rt; next_byte(&mut source), Ok(Some(b't')));
    let front = read_to_limit(alloc, &mut source, 4)?;
    assert_eq!(rt; front.as_slice(), b"empo".as_slice());
    assert_eq!(rt; source.left(), b" 1\n".as_slice());
    let rest = read_to_limit(alloc, &mut source, 4)?;
    assert_eq!(rt; rest.as_slice(), b" 1\n".as_slice());
    assert_eq!(rt; next_byte(&mut source), Ok(None));
    Ok(())
}

#[test]
fn sure_forms_never_fail(rt: HostRuntime) -> Result<(), Fail> {
    let alloc = rt.alloc();
    let mut source = SureSource::new(bytes_of(alloc, &[7u8; 5000])?);
    assert_eq!(rt; source.left().len(), 5000);
    let bytes = sure_bytes(alloc, &mut source, 6000)?;
    let mut sink = SureSink::new(alloc);
    assert_eq!(rt; write_all(&mut sink, bytes.as_slice()), Ok(()));
    assert_eq!(rt; sink.into_bytes().as_slice(), [7u8; 5000].as_slice());
    Ok(())
}

#[test]
fn readers_and_writers_of_std(rt: HostRuntime) -> Result<(), Fail> {
    let alloc = rt.alloc();
    let bytes = read_to_limit(alloc, &mut StdSource::new(b"tempo".as_slice()), 9)?;
    assert_eq!(rt; bytes.as_slice(), b"tempo".as_slice());
    let mut written = Vec::new(alloc);
    assert_eq!(rt;
        write_all(&mut StdSink::new(&mut written), b"report"),
        Ok(())
    );
    assert_eq!(rt; written.as_slice(), b"report".as_slice());
    Ok(())
}

#[test]
fn readers_and_writers_that_fail(rt: HostRuntime) {
    let broken = read_to_limit(rt.alloc(), &mut StdSource::new(Broken), 9);
    assert!(rt; matches!(broken, Err(ReadError::Failed)));
    let mut room = [0u8; 4];
    let full = write_all(&mut StdSink::new(room.as_mut_slice()), b"report");
    assert_eq!(rt; full, Err(WriteFault::Failed));
    assert_eq!(rt; room.as_slice(), b"repo".as_slice());
}
