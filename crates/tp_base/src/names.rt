use std::alloc::{AllocError, AllocFailed};
use thiserror::Error;

/// A part of the store, from 1.
#[derive(Clone, Copy, Debug, PartialEq, Eq, PartialOrd, Ord, Hash)]
pub struct PartitionId(pub u8);

/// A replica's place within its partition, from 1.
#[derive(Clone, Copy, Debug, PartialEq, Eq, PartialOrd, Ord, Hash)]
pub struct Rank(pub u8);

/// A client session, from 1.
#[derive(Clone, Copy, Debug, PartialEq, Eq, PartialOrd, Ord, Hash)]
pub struct SessionId(pub u8);

/// Stamps and ballots stay below this.
pub const STAMP_LIMIT: u64 = 1 << 48;

/// A logical time, from 1.
#[derive(Clone, Copy, Debug, PartialEq, Eq, PartialOrd, Ord, Hash)]
pub struct Stamp(pub u64);

/// A command's identifier: its session, and its number among that session's commands, from 1.
/// Ordered by session, then number.
#[derive(Clone, Copy, Debug, PartialEq, Eq, PartialOrd, Ord, Hash)]
pub struct CommandId {
    pub session: SessionId,
    pub number: u32,
}

/// What a replica's commands are executed in the order of: by stamp, then identifier.
#[derive(Clone, Copy, Debug, PartialEq, Eq, PartialOrd, Ord, Hash)]
pub struct Key {
    pub stamp: Stamp,
    pub id: CommandId,
}

/// One replica of one partition. Ordered by partition, then rank.
#[derive(Clone, Copy, Debug, PartialEq, Eq, PartialOrd, Ord, Hash)]
pub struct Site {
    pub partition: PartitionId,
    pub rank: Rank,
}

/// A promise that is attached to a command.
#[derive(Clone, Copy, Debug, PartialEq, Eq, Hash)]
pub struct Pair {
    pub id: CommandId,
    pub stamp: Stamp,
}

/// How a process came to its proposal.
#[derive(Clone, Copy, Debug, PartialEq, Eq, Hash)]
pub enum Made {
    Proposal,
    Recovery,
}

/// One of the actors: a site's process, its executor, or a session.
#[derive(Clone, Copy, Debug, PartialEq, Eq, Hash)]
pub enum ActorName {
    Process(Site),
    Executor(Site),
    Session(SessionId),
}

/// There was no memory for it.
#[derive(Clone, Copy, Debug, PartialEq, Eq, Error)]
#[error("memory")]
pub struct NoMemory;

impl From<AllocError> for NoMemory {
    fn from(_: AllocError) -> Self {
        NoMemory
    }
}

impl<T: Drop> From<AllocFailed<T>> for NoMemory {
    fn from(_: AllocFailed<T>) -> Self {
        NoMemory
    }
}
