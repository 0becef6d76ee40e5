ghost use Rattle.std.specs.Prelude.{◌≡◌, [], ◌∷◌, reverse, IfOk, OnOk};
ghost use Rattle.tp_print.specs.Outcomes.{IsOutcome};
ghost use Rattle.tp_rules.specs.Outcome.{executed_by, once_at_end};

use crate::events::executed;
use crate::results::{Results, note_delivery};
use crate::sites::{Sites, note_site};
use indexmap::{IndexMap, IndexSet};
use std::alloc::Global;
use tp_base::{CommandId, NoMemory};
use tp_rules::{Entry, Event};

/// What a journal comes to: what each site did, the commands in the order in which each was first
/// executed, and what the sessions were given first.
#[derive(Drop)]
pub struct Outcome<'a> {
    pub sites: Sites,
    pub line: IndexSet<CommandId>,
    pub results: Results<'a>,
}

fn note_execution(line: &mut IndexSet<CommandId>, event: Event) -> Result<(), NoMemory>
    ensures { OnOk result (line.new.keys ≡ once_at_end line.old.keys (executed_by event)) }
{
    if let Some(id) = executed(event) {
        line.insert(id)?;
    }
    Ok(())
}

impl<'a> Outcome<'a> {
    /// Of an empty journal. It takes no memory.
    fn new(alloc: Global) -> Self
        ensures { IsOutcome [] result }
    {
        Outcome {
            sites: IndexMap::new(alloc),
            line: IndexSet::new(alloc),
            results: IndexMap::new(alloc),
        }
    }

    /// Goes on with the next entry. The entries before it are given.
    fn note(&mut self, alloc: Global, before: &'a [Entry], entry: &Entry) -> Result<(), NoMemory>
        ensures { OnOk result (IsOutcome (reverse before.now) self.old
            → IsOutcome (entry.now ∷ reverse before.now) self.new) }
    {
        note_site(alloc, &mut self.sites, entry)?;
        note_execution(&mut self.line, entry.event)?;
        note_delivery(&mut self.results, before, entry)?;
        Ok(())
    }
}

/// What a journal comes to, in one pass over it.
pub fn outcome_of<'a>(alloc: Global, entries: &'a [Entry]) -> Result<Outcome<'a>, NoMemory>
    ensures { IfOk result (λ outcome. IsOutcome (reverse entries.now) outcome) }
{
    let mut outcome = Outcome::new(alloc);
    for i in 0..entries.len() {
        outcome.note(alloc, &entries[..i], &entries[i])?;
    }
    Ok(outcome)
}
