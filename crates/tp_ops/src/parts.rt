ghost use Rattle.std.specs.Bool.{OnTrue, OnFalse};
ghost use Rattle.std.specs.Prelude.{◌≡◌, ◌≤◌, Some, None, replicate, is_none, slice_get, IfOk};
ghost use Rattle.std.specs.Option.{option_copied};
ghost use Rattle.tp_base.specs.Tables.{kept_at, with_nth};
ghost use Rattle.tp_ops.specs.Parts.{answers_in, merged};

use crate::command::Command;
use crate::operation::{Answer, Answers};
use std::alloc::Global;
use std::marker::Model;
use tp_base::{Duplicate, NoMemory, PartitionId, Sequence, partition_of};

/// The answers of up to four partitions, the first of each.
#[derive(Debug, Drop)]
pub struct Parts {
    answers: [Option<Answers>; 4],
}

impl Model for Parts {
    ghost use Rattle.std.specs.Prelude.{◌≡◌, List, Option, length};
    ghost use Rattle.tp_ops.specs.declared.operation.Answer.{Answer};

    ghost Value = { List (Option (List Answer)) };

    ghost view = { λ p. p.answers };

    ghost invariant = { λ p. length p.answers ≡ 4 };
}

impl Parts {
    /// Without answers. It takes no memory.
    pub fn new() -> Self
        ensures { result ≡ replicate 4 None }
    {
        Parts {
            answers: [None, None, None, None],
        }
    }

    /// Keeps the answers of a partition, where none are kept of it, and tells whether it did.
    pub fn put(&mut self, p: PartitionId, answers: Answers) -> bool
        requires from { 1 ≤ p.0 }
        requires to { p.0 ≤ 4 }
        ensures new { result ≡ is_none (kept_at self.old p.0) }
        ensures kept { OnTrue result (self.new ≡ with_nth self.old p.0 (Some answers)) }
        ensures same { OnFalse result (self.new ≡ self.old) }
    {
        let i = usize::from(p.0) - 1;
        if self.answers[i].is_some() {
            return false;
        }
        self.answers[i] = Some(answers);
        true
    }

    /// The answers of a partition, None where there are none.
    pub fn get(&self, p: PartitionId) -> Option<&Answers>
        requires from { 1 ≤ p.0 }
        requires to { p.0 ≤ 4 }
        ensures { option_copied result ≡ kept_at self.now p.0 }
    {
        self.answers[usize::from(p.0) - 1].as_ref()
    }

    fn answer(&self, p: PartitionId, i: usize) -> Option<&Answer>
        requires from { 1 ≤ p.0 }
        requires to { p.0 ≤ 4 }
        ensures { option_copied result ≡ slice_get (answers_in self.now p.0) i }
    {
        match self.get(p) {
            Some(answers) => answers.get(i),
            None => None,
        }
    }
}

/// The answers of all partitions in the order of a command's operations: for each operation the
/// next answer of its partition, where there is one left.
pub fn merge(alloc: Global, c: &Command, partitions: u8, parts: &Parts) -> Result<Answers, NoMemory>
    requires some { 1 ≤ partitions }
    requires few { partitions ≤ 4 }
    ensures { IfOk result (λ answers. answers ≡ merged partitions c.now.ops (answers_in parts.now)) }
{
    let mut merged = Sequence::new(alloc);
    let mut taken = [0usize; 4];
    for op in c.ops.as_slice() {
        let p = partition_of(op.key(), partitions);
        let place = usize::from(p.0) - 1;
        if let Some(answer) = parts.answer(p, taken[place]) {
            merged.add(answer.copy()?)?;
            taken[place] += 1;
        }
    }
    Answers::new(alloc, merged)
}
