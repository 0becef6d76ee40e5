//! Whole runs, over memory.

use std::alloc::{AllocError, Global};
use std::test::Fail;
use tp_base::{Bytes, Picks};
use tp_outside::{MemorySink, MemorySource};
use tp_run::{Finished, tempo_plain};

/// The script of one put.
pub const ONE_PUT: &[u8] = b"tempo 1\nshape 1 3 1\nsession 1 1\ncommand 1 put 61 31\nend\n";

/// Its report, in every order of its steps: six pieces of 16 bytes, the last one shorter.
pub const REPORT: &[u8] = b"report 1\nreply 1.1 none\norder 1.1 1.1@1\norder 1.2 1.1@1\n\
                            order 1.3 1.1@1\nline 1.1\nopen 0\nend\n";

/// The bytes of a list of its own.
pub fn bytes_of(alloc: Global, bytes: &[u8]) -> Result<Bytes, AllocError> {
    Ok(Bytes::from_vec(bytes.to_vec(alloc)?))
}

fn picks_of(alloc: Global, picks: &[u32]) -> Result<Picks, AllocError> {
    Ok(Picks::from_vec(picks.to_vec(alloc)?))
}

/// The words of a call that has one.
pub fn words_of(alloc: Global, word: &str) -> Result<Vec<String>, AllocError> {
    let mut words = Vec::new(alloc);
    words.push(String::from_str(alloc, word)?)?;
    Ok(words)
}

/// What a call ended with, and what it wrote.
#[derive(Drop)]
pub struct Ended {
    pub finished: Finished,
    pub written: Bytes,
}

impl Ended {
    /// Whether it ended with this status and so many entries, and wrote this.
    pub fn is(&self, status: u8, entries: usize, written: &[u8]) -> bool {
        self.finished.status == status
            && self.finished.journal.entries().len() == entries
            && self.written.as_slice() == written
    }

    /// Whether its cause has this text.
    pub fn says(&self, alloc: Global, wanted: &str) -> Result<bool, Fail> {
        match &self.finished.cause {
            Some(cause) => Ok(format!(in alloc; "{cause}")?.as_str() == wanted),
            None => Ok(false),
        }
    }
}

// The word `step` with the script of one put, over memory where these calls fail and a write takes 16 bytes at most.
fn call(alloc: Global, reads: &[u32], writes: &[u32]) -> Result<Ended, AllocError> {
    let words = words_of(alloc, "step")?;
    let mut input = MemorySource::new(bytes_of(alloc, ONE_PUT)?, picks_of(alloc, reads)?);
    let mut out = MemorySink::new(alloc, 16, picks_of(alloc, writes)?);
    let finished = tempo_plain(alloc, words.as_slice(), &mut input, &mut out);
    Ok(Ended {
        finished,
        written: out.into_bytes(),
    })
}

/// So many bytes of the front, or all where there are fewer.
pub fn front(bytes: &[u8], count: usize) -> &[u8] {
    &bytes[..count.min(bytes.len())]
}

#[test]
fn each_failing_write_ends_the_run(rt: HostRuntime) -> Result<(), Fail> {
    for before in 0..6u8 {
        let ended = call(rt.alloc(), &[], &[u32::from(before) + 1])?;
        let written = front(REPORT, 16 * usize::from(before));
        assert!(rt;
            ended.is(5, 28, written) && ended.says(rt.alloc(), "write fault")?,
            "{before}"
        );
    }
    let whole = call(rt.alloc(), &[], &[7])?;
    assert!(rt; whole.is(0, 28, REPORT));
    Ok(())
}

// At the first call nothing was read, at the second all of the text was.
#[test]
fn a_failing_read_ends_the_call(rt: HostRuntime) -> Result<(), Fail> {
    for failing in [1, 2] {
        let ended = call(rt.alloc(), &[failing], &[])?;
        assert!(rt; ended.is(4, 0, b"") && ended.says(rt.alloc(), "read fault")?);
    }
    Ok(())
}
