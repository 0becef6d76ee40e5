ghost use Rattle.std.specs.Option.{option_copied};
ghost use Rattle.std.specs.Prelude.{◌≡◌, ◌≤◌, Some, None, IfOk, OnOk};
ghost use Rattle.tp_ops.specs.Parts.{ops_on};
ghost use Rattle.tp_ops.specs.Store.{after, after_all, answer_of, answers_of, empty, holds, value_before, with_value, yes_or_no};
ghost use Rattle.tp_store.specs.Values.{contents_of};

use std::alloc::Global;
use std::collections::BTreeMap;
use tp_base::{Bytes, Duplicate, NoMemory, PartitionId, Sequence, partition_of};
use tp_ops::{Answer, Answers, Command, Op};

/// The value of each key that is there.
#[derive(Drop)]
pub struct Store {
    alloc: Global,
    values: BTreeMap<Vec<u8>, Bytes>,
}

impl Store {
    /// Without keys. It takes no memory.
    pub fn new(alloc: Global) -> Store
        ensures { contents_of result ≡ empty }
    {
        Store {
            alloc,
            values: BTreeMap::new(alloc),
        }
    }

    /// The value of a key, None where it has none.
    pub fn get(&self, key: &[u8]) -> Option<&Bytes>
        ensures { option_copied result ≡ contents_of self.now key.now }
    {
        self.values.get(key)
    }

    /// Does those operations of a command that are on a partition, in order, and answers each.
    #[tactic(auto, unfolding(tp_ops::specs::Parts::ops_on))]
    pub fn apply(
        &mut self,
        c: &Command,
        partitions: u8,
        p: PartitionId,
    ) -> Result<Answers, NoMemory>
        requires some { 1 ≤ partitions }
        requires few { partitions ≤ 4 }
        ensures answers { IfOk result (λ answers. answers ≡ answers_of (ops_on partitions p.0 c.now.ops) (contents_of self.old)) }
        ensures contents { OnOk result (contents_of self.new ≡ after_all (ops_on partitions p.0 c.now.ops) (contents_of self.old)) }
    {
        let mut answers = Sequence::new(self.alloc);
        for op in c.ops.as_slice() {
            if partition_of(op.key(), partitions) == p {
                answers.add(self.perform(op)?)?;
            }
        }
        Answers::new(self.alloc, answers)
    }

    /// Does an operation, and answers it.
    fn perform(&mut self, op: &Op) -> Result<Answer, NoMemory>
        ensures answer { IfOk result (λ answer. answer ≡ answer_of op.now (contents_of self.old)) }
        ensures contents { OnOk result (contents_of self.new ≡ after op.now (contents_of self.old)) }
    {
        match op {
            Op::Get { key } => self.value(key),
            Op::Put { key, value } => {
                let before = self.value(key)?;
                self.put(key, value)?;
                Ok(before)
            }
            Op::Del { key } => {
                let there = self.get(key.as_slice()).is_some();
                self.delete(key);
                Ok(yes_or_no(there))
            }
            Op::Cas { key, old, new } => {
                let holds = self.holds(key, old);
                if holds {
                    self.put(key, new)?;
                }
                Ok(yes_or_no(holds))
            }
        }
    }

    /// The value that is there, or none.
    fn value(&self, key: &Bytes) -> Result<Answer, NoMemory>
        ensures { IfOk result (λ answer. answer ≡ value_before (contents_of self.now key.now)) }
    {
        match self.get(key.as_slice()) {
            Some(value) => Ok(Answer::Value(value.copy()?)),
            None => Ok(Answer::Missing),
        }
    }

    fn holds(&self, key: &Bytes, value: &Bytes) -> bool
        ensures { result ≡ holds (contents_of self.now key.now) value.now }
    {
        match self.get(key.as_slice()) {
            Some(there) => there.as_slice() == value.as_slice(),
            None => false,
        }
    }

    fn put(&mut self, key: &Bytes, value: &Bytes) -> Result<(), NoMemory>
        ensures { OnOk result (contents_of self.new ≡ with_value key.now (Some value.now) (contents_of self.old)) }
    {
        let stored = Vec::from_slice(self.alloc, key.as_slice())?;
        self.values.insert(stored, value.copy()?)?;
        Ok(())
    }

    fn delete(&mut self, key: &Bytes)
        ensures { contents_of self.new ≡ with_value key.now None (contents_of self.old) }
    {
        self.values.remove(key.as_slice());
    }
}

fn yes_or_no(b: bool) -> Answer
    ensures { result ≡ yes_or_no b }
{
    if b { Answer::Yes } else { Answer::No }
}
