use tp_base::{ActorName, CommandId, Duplicate, Made, NoMemory, Pairs, PartitionId, Stamp};
use tp_ops::{Answers, Command};

/// A message, with its sender and its addressee.
#[derive(Debug, Drop)]
pub struct Message {
    pub from: ActorName,
    pub to: ActorName,
    pub body: Body,
}

/// What a message says, one variant a kind.
#[derive(Debug, Drop)]
pub enum Body {
    /// A session submits a command.
    MSubmit {
        command: Command,
    },
    /// The home asks a member of the fast quorum for a proposal of at least the floor.
    MPropose {
        command: Command,
        floor: Stamp,
    },
    /// The home tells the command to the others.
    MPayload {
        command: Command,
    },
    /// A member of the fast quorum tells its proposal.
    MProposeAck {
        id: CommandId,
        stamp: Stamp,
    },
    /// A proposal is told to the process of the same rank in another partition.
    MBump {
        id: CommandId,
        stamp: Stamp,
    },
    /// A stamp is put to the vote at a ballot.
    MConsensus {
        command: Command,
        stamp: Stamp,
        ballot: u64,
    },
    /// A vote for what was put at a ballot.
    MConsensusAck {
        id: CommandId,
        ballot: u64,
    },
    /// A partition's stamp of a command is told.
    MCommit {
        command: Command,
        partition: PartitionId,
        stamp: Stamp,
    },
    /// A process recovers a command at a ballot.
    MRec {
        command: Command,
        ballot: u64,
    },
    /// The answer to a recovery: the accepted stamp with its ballot, or the proposal and 0.
    MRecAck {
        id: CommandId,
        stamp: Stamp,
        made: Made,
        accepted: u64,
        ballot: u64,
    },
    /// A process announces its promises above `lo` up to `hi`, of which `pairs` are attached.
    MPromises {
        lo: u64,
        hi: u64,
        pairs: Pairs,
    },
    /// A process tells its executor a command's final stamp.
    MCommitted {
        command: Command,
        stamp: Stamp,
    },
    /// A command is stable in the sender's partition.
    MStable {
        id: CommandId,
    },
    /// The answers of a partition's operations.
    MResult {
        id: CommandId,
        partition: PartitionId,
        answers: Answers,
    },
}

impl Duplicate for Message {
    fn copy(&self) -> Result<Self, NoMemory> {
        Ok(Message {
            from: self.from,
            to: self.to,
            body: self.body.copy()?,
        })
    }
}

impl Duplicate for Body {
    fn copy(&self) -> Result<Self, NoMemory> {
        let body = match self {
            Body::MSubmit { command } => Body::MSubmit {
                command: command.copy()?,
            },
            Body::MPropose { command, floor } => Body::MPropose {
                command: command.copy()?,
                floor: *floor,
            },
            Body::MPayload { command } => Body::MPayload {
                command: command.copy()?,
            },
            Body::MProposeAck { id, stamp } => Body::MProposeAck {
                id: *id,
                stamp: *stamp,
            },
            Body::MBump { id, stamp } => Body::MBump {
                id: *id,
                stamp: *stamp,
            },
            Body::MConsensus {
                command,
                stamp,
                ballot,
            } => Body::MConsensus {
                command: command.copy()?,
                stamp: *stamp,
                ballot: *ballot,
            },
            Body::MConsensusAck { id, ballot } => Body::MConsensusAck {
                id: *id,
                ballot: *ballot,
            },
            Body::MCommit {
                command,
                partition,
                stamp,
            } => Body::MCommit {
                command: command.copy()?,
                partition: *partition,
                stamp: *stamp,
            },
            Body::MRec { command, ballot } => Body::MRec {
                command: command.copy()?,
                ballot: *ballot,
            },
            Body::MRecAck {
                id,
                stamp,
                made,
                accepted,
                ballot,
            } => Body::MRecAck {
                id: *id,
                stamp: *stamp,
                made: *made,
                accepted: *accepted,
                ballot: *ballot,
            },
            Body::MPromises { lo, hi, pairs } => Body::MPromises {
                lo: *lo,
                hi: *hi,
                pairs: pairs.copy()?,
            },
            Body::MCommitted { command, stamp } => Body::MCommitted {
                command: command.copy()?,
                stamp: *stamp,
            },
            Body::MStable { id } => Body::MStable { id: *id },
            Body::MResult {
                id,
                partition,
                answers,
            } => Body::MResult {
                id: *id,
                partition: *partition,
                answers: answers.copy()?,
            },
        };
        Ok(body)
    }
}
