//! A sink that wants memory at one of its writes, under each word that prints what came of a script.

ghost use Rattle.std.specs.Prelude.{Some};

use crate::runs::{Ended, ONE_PUT, REPORT, bytes_of, front, words_of};
use std::alloc::{AllocError, Global};
use std::sync::Wait;
use std::test::Fail;
use std::thread::Threads;
use tp_base::Picks;
use tp_outside::{MemorySource, OpenGate, Sink, SureSink, WriteFault};
use tp_run::tempo;

// A sink over memory. A write takes 16 bytes at most, and after so many of them there is no memory.
#[derive(Drop)]
struct ScarceSink {
    inner: SureSink,
    writes: u32,
}

impl Sink for ScarceSink {
    ghost written = { λ s. Some s.inner };

    ghost faults = { λ _. 0 };

    fn write(&mut self, bytes: &[u8]) -> Result<usize, WriteFault> {
        if self.writes == 0 {
            return Err(WriteFault::NoMemory);
        }
        self.writes -= 1;
        let count = bytes.len().min(16);
        self.inner.write(&bytes[..count])
    }
}

// What stands behind so many bytes, or nothing where there are fewer.
fn behind(bytes: &[u8], count: usize) -> &[u8] {
    &bytes[count.min(bytes.len())..]
}

// A word with an input, over a sink that takes so many writes.
fn call<R: Threads + Wait + Sync>(
    rt: &R,
    alloc: Global,
    word: &str,
    input: &[u8],
    writes: u32,
) -> Result<Ended, AllocError> {
    let words = words_of(alloc, word)?;
    let none = Picks::from_vec(Vec::new(alloc));
    let mut input = MemorySource::new(bytes_of(alloc, input)?, none);
    let mut out = ScarceSink {
        inner: SureSink::new(alloc),
        writes,
    };
    let finished = tempo(rt, alloc, words.as_slice(), &mut input, &mut out, &OpenGate);
    Ok(Ended {
        finished,
        written: out.inner.into_bytes(),
    })
}

#[test]
fn a_write_without_memory_ends_the_call(rt: HostRuntime) -> Result<(), Fail> {
    let alloc = rt.alloc();
    let traced = call(&rt, alloc, "trace", ONE_PUT, u32::MAX)?;
    let mut checked = ONE_PUT.to_vec(alloc)?;
    checked.extend_from_slice(behind(traced.written.as_slice(), REPORT.len()))?;
    let cases: [(&str, &[u8], &[u8]); 3] = [
        ("step", ONE_PUT, REPORT),
        ("run", ONE_PUT, REPORT),
        ("check", &checked, b"yes 28\n"),
    ];
    for (word, input, answer) in cases {
        for writes in 0..6u32 {
            let written = 16 * writes as usize;
            let ended = call(&rt, alloc, word, input, writes)?;
            if written < answer.len() {
                assert!(rt; ended.is(6, 28, front(answer, written)), "{word} {writes}");
                assert!(rt; ended.says(alloc, "memory")?, "{word} {writes}");
            } else {
                assert!(rt; ended.is(0, 28, answer), "{word} {writes}");
            }
        }
    }
    Ok(())
}
