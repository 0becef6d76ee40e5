use std::alloc::Global;
use tp_base::{
    ActorName, CommandId, Duplicate, Made, NoMemory, PartitionId, Rank, Sequence, SessionId, Site,
    Stamp,
};
use tp_ops::{Command, Op, Ops};
use tp_wire::{Body, Message};

/// The command that each story is about.
pub(crate) const ID: CommandId = CommandId {
    session: SessionId(1),
    number: 1,
};

/// What happens to a process next: a message about the story's command comes from a rank of the
/// first partition, or the process makes a step of its own.
#[derive(Clone, Copy, Debug)]
pub(crate) enum Cue {
    /// The command's session submits it.
    MSubmit,
    MPropose {
        from: u8,
        floor: u64,
    },
    MPayload {
        from: u8,
    },
    MProposeAck {
        from: u8,
        stamp: u64,
    },
    /// Another command's proposal, told by the process of the same rank in the second partition.
    MBump {
        stamp: u64,
    },
    MConsensus {
        from: u8,
        stamp: u64,
        ballot: u64,
    },
    MConsensusAck {
        from: u8,
        ballot: u64,
    },
    /// The first rank of a partition tells its partition's stamp.
    MCommit {
        partition: u8,
        stamp: u64,
    },
    MRec {
        from: u8,
        ballot: u64,
    },
    MRecAck {
        from: u8,
        stamp: u64,
        made: Made,
        accepted: u64,
        ballot: u64,
    },
    Recover,
    /// It announces what it promised, if it may.
    Announce,
    Crash,
}

/// `put 62 31`, which is on the first partition, also where there are two. Its home has rank 1.
pub(crate) fn put_b(alloc: Global) -> Result<Command, NoMemory> {
    let mut ops = Sequence::new(alloc);
    ops.add(put(alloc, 0x62)?)?;
    Ok(Command {
        id: ID,
        home: Rank(1),
        ops: Ops::new(alloc, ops)?,
    })
}

/// `put 62 31 ; put 61 31`, which is on both of two partitions. Its home has rank 1.
pub(crate) fn put_both(alloc: Global) -> Result<Command, NoMemory> {
    let mut ops = Sequence::new(alloc);
    ops.add(put(alloc, 0x62)?)?;
    ops.add(put(alloc, 0x61)?)?;
    Ok(Command {
        id: ID,
        home: Rank(1),
        ops: Ops::new(alloc, ops)?,
    })
}

fn put(alloc: Global, key: u8) -> Result<Op, NoMemory> {
    let mut op = (Sequence::new(alloc), Sequence::new(alloc));
    op.0.add(key)?;
    op.1.add(0x31)?;
    Ok(Op::Put {
        key: op.0,
        value: op.1,
    })
}

/// The message of a cue, to a process of the first partition. None for a step of its own.
pub(crate) fn message_of(
    cue: Cue,
    to: Site,
    command: &Command,
) -> Result<Option<Message>, NoMemory> {
    let Some(body) = body_of(cue, command)? else {
        return Ok(None);
    };
    Ok(Some(Message {
        from: sender(cue, to),
        to: ActorName::Process(to),
        body,
    }))
}

fn sender(cue: Cue, to: Site) -> ActorName {
    match cue {
        Cue::MPropose { from, .. }
        | Cue::MPayload { from }
        | Cue::MProposeAck { from, .. }
        | Cue::MConsensus { from, .. }
        | Cue::MConsensusAck { from, .. }
        | Cue::MRec { from, .. }
        | Cue::MRecAck { from, .. } => process(1, from),
        Cue::MCommit { partition, .. } => process(partition, 1),
        Cue::MBump { .. } => process(2, to.rank.0),
        Cue::MSubmit | Cue::Recover | Cue::Announce | Cue::Crash => ActorName::Session(ID.session),
    }
}

fn process(partition: u8, rank: u8) -> ActorName {
    ActorName::Process(Site {
        partition: PartitionId(partition),
        rank: Rank(rank),
    })
}

fn body_of(cue: Cue, command: &Command) -> Result<Option<Body>, NoMemory> {
    let command = command.copy()?;
    let body = match cue {
        Cue::MSubmit => Body::MSubmit { command },
        Cue::MPropose { floor, .. } => Body::MPropose {
            command,
            floor: Stamp(floor),
        },
        Cue::MPayload { .. } => Body::MPayload { command },
        Cue::MProposeAck { stamp, .. } => Body::MProposeAck {
            id: ID,
            stamp: Stamp(stamp),
        },
        Cue::MBump { stamp } => Body::MBump {
            id: CommandId {
                session: SessionId(9),
                number: 1,
            },
            stamp: Stamp(stamp),
        },
        Cue::MConsensus { stamp, ballot, .. } => Body::MConsensus {
            command,
            stamp: Stamp(stamp),
            ballot,
        },
        Cue::MConsensusAck { ballot, .. } => Body::MConsensusAck { id: ID, ballot },
        Cue::MCommit { partition, stamp } => Body::MCommit {
            command,
            partition: PartitionId(partition),
            stamp: Stamp(stamp),
        },
        Cue::MRec { ballot, .. } => Body::MRec { command, ballot },
        Cue::MRecAck {
            from: _,
            stamp,
            made,
            accepted,
            ballot,
        } => Body::MRecAck {
            id: ID,
            stamp: Stamp(stamp),
            made,
            accepted,
            ballot,
        },
        Cue::Recover | Cue::Announce | Cue::Crash => return Ok(None),
    };
    Ok(Some(body))
}
