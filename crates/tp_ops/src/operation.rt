ghost use Rattle.std.specs.Prelude.{◌≡◌};
ghost use Rattle.tp_ops.specs.Parts.{key_of};

use tp_base::{Bytes, Duplicate, NoMemory, Shared};

/// An operation on one key.
#[derive(Debug, Drop)]
pub enum Op {
    Get { key: Bytes },
    Put { key: Bytes, value: Bytes },
    Del { key: Bytes },
    Cas { key: Bytes, old: Bytes, new: Bytes },
}

/// A command's operations, or those of one partition.
pub type Ops = Shared<Op>;

/// What an operation answers: the value before or none, or whether it had an effect.
#[derive(Debug, Drop)]
pub enum Answer {
    Missing,
    Value(Bytes),
    Yes,
    No,
}

/// The answers to a list of operations, in their order.
pub type Answers = Shared<Answer>;

impl Op {
    /// The key that it reads or writes.
    pub fn key(&self) -> &[u8]
        ensures { result.now ≡ key_of self.now }
    {
        match self {
            Op::Get { key } => key.as_slice(),
            Op::Put { key, value: _ } => key.as_slice(),
            Op::Del { key } => key.as_slice(),
            Op::Cas {
                key,
                old: _,
                new: _,
            } => key.as_slice(),
        }
    }
}

impl Duplicate for Answer {
    fn copy(&self) -> Result<Self, NoMemory> {
        match self {
            Answer::Missing => Ok(Answer::Missing),
            Answer::Value(value) => Ok(Answer::Value(value.copy()?)),
            Answer::Yes => Ok(Answer::Yes),
            Answer::No => Ok(Answer::No),
        }
    }
}
