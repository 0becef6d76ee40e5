ghost use Rattle.std.specs.Prelude.{◌≡◌, ◌+◌, ◌<◌, [], ◌∷◌, ◌++◌, length, position, IfOk, IfSome, OnOk, OnErr};
ghost use Rattle.std.specs.Option.{option_copied};
ghost use Rattle.tp_journal.specs.Entered.{first_crash, is_crash_of, output_in};

use std::alloc::Global;
use std::marker::Model;
use tp_base::{ActorName, NoMemory, Site};
use tp_rules::{Entries, Entry, Event, Inner};
use tp_wire::Message;

/// The entries of a run, in order, numbered from 1.
#[derive(Debug, Drop)]
pub struct Journal {
    entries: Entries,
}

impl Model for Journal {
    ghost use Rattle.std.specs.Prelude.{List};
    ghost use Rattle.tp_rules.specs.declared.event.Entry.{Entry};

    ghost Value = { List Entry };

    ghost view = { λ j. j.entries };
}

impl Journal {
    /// The empty journal. It takes no memory.
    pub fn new(alloc: Global) -> Journal
        ensures { result ≡ [] }
    {
        Journal {
            entries: Entries::new(alloc),
        }
    }

    /// The journal with these entries. It takes no memory.
    pub fn of(entries: Entries) -> Journal
        ensures { result ≡ entries }
    {
        Journal { entries }
    }

    /// Appends an entry, and gives the new length.
    pub fn enter(&mut self, entry: Entry) -> Result<u64, NoMemory>
        ensures entered { OnOk result (self.new ≡ self.old ++ entry ∷ []) }
        ensures length { IfOk result (λ n. n ≡ length self.new) }
        ensures same { OnErr result (self.new ≡ self.old) }
    {
        self.entries.add(entry)?;
        Ok(self.entries.len() as u64)
    }

    pub fn entries(&self) -> &Entries
        ensures { result.now ≡ self.now }
    {
        &self.entries
    }

    /// The number of the entry by which a site crashed first.
    pub fn crashed(&self, site: Site) -> Option<u64>
        ensures { result ≡ first_crash site self.now }
    {
        match place_of_crash(self.entries.as_slice(), site) {
            Some(place) => Some(place as u64 + 1),
            None => None,
        }
    }

    /// The message at a place of an entry, both from 1.
    pub fn output(&self, entry: u64, place: u64) -> Option<&Message>
        ensures { option_copied result ≡ output_in self.now entry place }
    {
        output(self.entries.as_slice(), entry, place)
    }
}

/// The message at a place of one of some entries, both from 1.
pub fn output(entries: &[Entry], entry: u64, place: u64) -> Option<&Message>
    ensures { option_copied result ≡ output_in entries.now entry place }
{
    if entry == 0 || place == 0 {
        return None;
    }
    let sender = entries.get(entry as usize - 1)?;
    sender.outputs.get(place as usize - 1)
}

// Where a site crashed first, from 0.
fn place_of_crash(entries: &[Entry], site: Site) -> Option<usize>
    ensures place { result ≡ position (is_crash_of site) entries.now }
    ensures within { IfSome result (λ i. i < length entries.now) }
{
    entries.iter().position(|entry| is_crash_of(entry, site))
}

fn is_crash_of(entry: &Entry, site: Site) -> bool
    ensures { result ≡ is_crash_of site entry.now }
{
    entry.actor == ActorName::Process(site) && matches!(entry.event, Event::Inner(Inner::Crash))
}
