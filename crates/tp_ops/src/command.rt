use crate::operation::Ops;
use tp_base::{CommandId, Duplicate, NoMemory, Rank};

/// A client's command. Its home is the rank of the processes that it is submitted to.
#[derive(Debug, Drop)]
pub struct Command {
    pub id: CommandId,
    pub home: Rank,
    pub ops: Ops,
}

impl Duplicate for Command {
    fn copy(&self) -> Result<Self, NoMemory> {
        Ok(Command {
            id: self.id,
            home: self.home,
            ops: self.ops.copy()?,
        })
    }
}
