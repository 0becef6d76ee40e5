ghost use Rattle.std.specs.Option.{option_map};
ghost use Rattle.std.specs.Prelude.{◌≡◌, not, IfOk, OnOk, OnErr};
ghost use Rattle.tp_queue.specs.Waiting.{Calls, Entry, IsAfter, IsLeast, left, none, was_put, with_put, with_taken};

use indexmap::IndexSet;
use std::alloc::Global;
use std::collections::BTreeMap;
use tp_base::{CommandId, Key, NoMemory};
use tp_ops::Command;

/// Committed commands in the order of their keys. A command that was taken is not put again.
#[derive(Drop)]
pub struct Queue {
    waiting: BTreeMap<Key, Command>,
    ids: IndexSet<CommandId>,
}

impl Queue {
    /// Without commands. It takes no memory.
    pub fn new(alloc: Global) -> Queue
        ensures { IsAfter result none }
    {
        Queue {
            waiting: BTreeMap::new(alloc),
            ids: IndexSet::new(alloc),
        }
    }

    /// Puts a command, where its identifier was never put before, and tells whether it did.
    pub fn put(&mut self, key: Key, command: Command) -> Result<bool, NoMemory>
        ensures first { IfOk result (λ new. (calls : Calls) → IsAfter self.old calls → new ≡ not (was_put key.id calls)) }
        ensures put { IfOk result (λ new. (calls : Calls) → IsAfter self.old calls → IsAfter self.new (with_put new (record { key = key; command = command }) calls)) }
        ensures same { OnErr result ((calls : Calls) → IsAfter self.old calls → IsAfter self.new calls) }
    {
        if self.ids.contains(&key.id) {
            return Ok(false);
        }
        self.ids.reserve(1)?;
        self.waiting.insert(key, command)?;
        self.ids.insert(key.id)?;
        Ok(true)
    }

    /// The command with the least key.
    pub fn head(&self) -> Option<(Key, &Command)>
        ensures { (calls : Calls) → IsAfter self.now calls → IsLeast (option_map (λ p. record { key = p.0; command = p.1.now }) result) (left calls) }
    {
        match self.waiting.first_key_value() {
            Some((key, command)) => Some((*key, command)),
            None => None,
        }
    }

    /// Takes the command with the least key.
    pub fn pop(&mut self) -> Option<(Key, Command)>
        ensures least { (calls : Calls) → IsAfter self.old calls → IsLeast (option_map (λ p. record { key = p.0; command = p.1 }) result) (left calls) }
        ensures taken { (calls : Calls) → IsAfter self.old calls → IsAfter self.new (with_taken (option_map (λ p. record { key = p.0; command = p.1 }) result) calls) }
    {
        self.waiting.pop_first()
    }
}
