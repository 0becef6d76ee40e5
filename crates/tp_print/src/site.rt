ghost use Rattle.std.specs.Option.{option_or};
ghost use Rattle.std.specs.Prelude.{◌≡◌, [], ◌∷◌, ◌||◌, cond, List, Some, None, OnOk};
ghost use Rattle.indexmap.specs.IndexMap.{get};
ghost use Rattle.tp_base.specs.Names.{same_id};
ghost use Rattle.tp_base.specs.declared.names.CommandId.{CommandId};
ghost use Rattle.tp_base.specs.declared.names.Site.{Site};
ghost use Rattle.tp_print.specs.Recorded.{AreMore, IsRecorded, commits_sent};
ghost use Rattle.tp_rules.specs.Journal.{is_crash};
ghost use Rattle.tp_rules.specs.Outcome.{at_end, executed_by};
ghost use Rattle.tp_rules.specs.declared.event.Entry.{Entry};

use crate::events::{executed, is_crash, is_executor, is_process};
use indexmap::IndexMap;
use std::alloc::Global;
use tp_base::{CommandId, NoMemory, Site};
use tp_rules::{Entry, Outputs};
use tp_wire::{Body, Message};

/// What a site did by a journal: the commands that it executed, in order, the stamp that its process
/// first committed each command with, and whether it crashed.
#[derive(Drop)]
pub struct SiteRecord {
    pub executed: Vec<CommandId>,
    pub stamps: IndexMap<CommandId, u64>,
    pub crashed: bool,
}

fn note_commit(
    stamps: &mut IndexMap<CommandId, u64>,
    id: CommandId,
    stamp: u64,
) -> Result<(), NoMemory>
    ensures { OnOk result ((q : CommandId)
        → get same_id stamps.new q ≡ option_or (get same_id stamps.old q) (cond (same_id id q) (Some stamp) None)) }
{
    if !stamps.contains_key(&id) {
        stamps.insert(id, stamp)?;
    }
    Ok(())
}

fn note_message(stamps: &mut IndexMap<CommandId, u64>, message: &Message) -> Result<(), NoMemory>
    ensures { OnOk result (AreMore stamps.old (λ s. commits_sent s (message.now ∷ [])) stamps.new) }
{
    match &message.body {
        Body::MCommitted { command, stamp } => note_commit(stamps, command.id, stamp.0),
        _ => Ok(()),
    }
}

fn note_commits(stamps: &mut IndexMap<CommandId, u64>, outputs: &Outputs) -> Result<(), NoMemory>
    ensures { OnOk result (AreMore stamps.old (λ s. commits_sent s outputs.now) stamps.new) }
{
    for message in outputs.as_slice() {
        note_message(stamps, message)?;
    }
    Ok(())
}

impl SiteRecord {
    /// Of an empty journal. It takes no memory.
    pub fn new(alloc: Global) -> Self
        ensures { (s : Site) → IsRecorded [] s result }
    {
        SiteRecord {
            executed: Vec::new(alloc),
            stamps: IndexMap::new(alloc),
            crashed: false,
        }
    }

    fn note_process(&mut self, entry: &Entry) -> Result<(), NoMemory>
        ensures executed { OnOk result (self.new.executed ≡ self.old.executed) }
        ensures stamps { OnOk result (AreMore self.old.stamps (λ s. commits_sent s entry.now.outputs) self.new.stamps) }
        ensures crashed { OnOk result (self.new.crashed ≡ (is_crash entry.now.event || self.old.crashed)) }
    {
        if is_crash(entry.event) {
            self.crashed = true;
        }
        note_commits(&mut self.stamps, &entry.outputs)
    }

    fn note_executor(&mut self, entry: &Entry) -> Result<(), NoMemory>
        ensures executed { OnOk result
            (self.new.executed.items ≡ at_end self.old.executed.items (executed_by entry.now.event)) }
        ensures stamps { OnOk result (self.new.stamps ≡ self.old.stamps) }
        ensures crashed { OnOk result (self.new.crashed ≡ self.old.crashed) }
    {
        if let Some(id) = executed(entry.event) {
            self.executed.push(id)?;
        }
        Ok(())
    }

    /// Goes on with the next entry.
    pub fn note(&mut self, site: Site, entry: &Entry) -> Result<(), NoMemory>
        ensures { OnOk result ((older : List Entry) → IsRecorded older site self.old
            → IsRecorded (entry.now ∷ older) site self.new) }
    {
        if is_process(entry.actor, site) {
            self.note_process(entry)?;
            return Ok(());
        }
        if is_executor(entry.actor, site) {
            self.note_executor(entry)?;
            return Ok(());
        }
        Ok(())
    }
}
