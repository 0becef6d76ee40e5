ghost use Rattle.std.specs.Option.{option_copied};
ghost use Rattle.std.specs.Prelude.{◌≡◌, ◌<◌, ◌+◌, ◌^◌, ◌++◌, ◌∷◌, ◌↔◌, [], true, List, length, reverse, IfOk, IsTrue, OnOk};
ghost use Rattle.tp_fates.specs.Deliveries.{left_in};
ghost use Rattle.tp_netbook.specs.Ledger.{AreSeen, IsLedger, KeepsPlan, Sends, due_line, is_alive, is_left, left_after, may_come, watch_of};
ghost use Rattle.tp_fates.specs.declared.deliveries.Slot.{Slot as SlotValue};
ghost use Rattle.tp_rules.specs.Journal.{is_known, is_live, numbered};
ghost use Rattle.tp_rules.specs.Runs.{FollowsLine, FollowsPlan, IsRun};
ghost use Rattle.tp_rules.specs.declared.event.Entry.{Entry as EntryValue};
ghost use Rattle.tp_script.specs.Accepted.{IsAccepted};
ghost use Rattle.tp_script.specs.declared.script.Script.{Script as ScriptValue};

use crate::netbook::watches;
use crate::roster::{place_of_site, sites_of};
use crate::watch::{Watch, is_planned};
use std::alloc::Global;
use tp_base::{ActorName, NoMemory, Site};
use tp_fates::{Deliveries, Fates, Left, Route, Routes, Slot};
use tp_rules::{Entry, Event, Inner, Outputs};
use tp_script::Script;
use tp_topology::Topology;
use tp_wire::Message;

/// What a plan says of any next entry: who lives, whose line is due, and what is left of each output,
/// looked up by its numbers.
#[derive(Debug, Drop)]
pub struct Ledger {
    topology: Topology,
    sites: Vec<Watch>,
    fates: Fates,
    routes: Routes,
    deliveries: Deliveries,
    entries: u64,
}

impl Ledger {
    /// Of the empty journal of a script.
    pub fn new(alloc: Global, script: &Script) -> Result<Ledger, NoMemory>
        requires { IsAccepted script.now }
        ensures { IfOk result (IsLedger script.now []) }
    {
        let sites = sites_of(alloc, script)?;
        Ok(Ledger {
            topology: script.topology,
            sites: watches(alloc, script, sites.as_slice())?,
            fates: Fates::new(alloc, script.plan.as_slice())?,
            routes: Routes::new(alloc),
            deliveries: Deliveries::new(alloc),
            entries: 0,
        })
    }

    /// Whether an actor lives: its site hasn't crashed.
    pub fn is_live(&self, actor: ActorName) -> bool
        ensures { (script : ScriptValue) (journal : List EntryValue) → IsLedger script journal self.now
            → is_known script actor ≡ true → result ≡ is_live (reverse journal) actor }
    {
        self.is_alive(actor)
    }

    /// Whether an entry is as the plan has it: the line that is due or none, and a delivery or a loss
    /// that is left.
    pub fn follows_plan(&self, entry: &Entry) -> bool
        ensures { (script : ScriptValue) (journal : List EntryValue) → IsLedger script journal self.now
            → is_known script entry.now.actor ≡ true → IsTrue result ↔ FollowsPlan script (reverse journal) entry.now }
    {
        self.follows_line(entry.actor, entry.event) && self.follows_fate(entry.event)
    }

    /// Takes the next entry of the journal. After an error the ledger isn't used again.
    pub fn entered(&mut self, entry: &Entry) -> Result<(), NoMemory>
        ensures { OnOk result ((script : ScriptValue) (journal : List EntryValue) → IsLedger script journal self.old
            → IsAccepted script → IsRun script (journal ++ entry.now ∷ []) → length journal + 1 < 2 ^ 64
            → IsLedger script (journal ++ entry.now ∷ []) self.new) }
    {
        self.take(entry.event);
        self.count(entry.actor, entry.event);
        self.entries = self.entries.saturating_add(1);
        self.send(&entry.outputs)?;
        Ok(())
    }

    fn watch(&self, site: Site) -> Option<&Watch>
        ensures { option_copied result ≡ watch_of self.now site }
    {
        self.sites.get(place_of_site(&self.topology, site))
    }

    fn is_alive(&self, actor: ActorName) -> bool
        ensures { result ≡ is_alive self.now actor }
    {
        match actor {
            ActorName::Process(site) | ActorName::Executor(site) => match self.watch(site) {
                Some(watch) => watch.live,
                None => false,
            },
            ActorName::Session(_) => true,
        }
    }

    /// The line of an actor that is due.
    fn due(&self, actor: ActorName) -> Option<Inner>
        ensures { result ≡ due_line self.now actor }
    {
        match actor {
            ActorName::Process(site) => self.watch(site)?.due(),
            ActorName::Executor(_) | ActorName::Session(_) => None,
        }
    }

    /// Whether an event is that of the line that is due, or no line's.
    fn follows_line(&self, actor: ActorName, event: Event) -> bool
        ensures { IsTrue result ↔ FollowsLine (due_line self.now actor) event }
    {
        match self.due(actor) {
            Some(inner) => event == Event::Inner(inner),
            None => !is_planned(event),
        }
    }

    /// Whether a delivery or a loss is left.
    fn follows_fate(&self, event: Event) -> bool
        ensures { result ≡ is_left self.now event }
    {
        match event {
            Event::Deliver { entry, place } => may_come(
                self.deliveries.of(Slot { entry, place }),
                false,
            ),
            Event::Dropped { entry, place } => may_come(
                self.deliveries.of(Slot { entry, place }),
                true,
            ),
            Event::Inner(_) => true,
        }
    }

    /// Takes an event from what is left.
    fn take(&mut self, event: Event)
        ensures left { (slot : SlotValue)
            → left_in self.new.deliveries slot ≡ left_after event slot (left_in self.old.deliveries slot) }
        ensures rest { KeepsPlan self.old self.new }
        ensures routes { self.new.routes ≡ self.old.routes }
    {
        match event {
            Event::Deliver { entry, place } => self.deliveries.take(Slot { entry, place }, false),
            Event::Dropped { entry, place } => self.deliveries.take(Slot { entry, place }, true),
            Event::Inner(_) => {}
        }
    }

    /// Counts an entry at the watch of its process.
    fn count(&mut self, actor: ActorName, event: Event)
        ensures sites { AreSeen actor event self.old self.old.sites.items self.new.sites.items }
        ensures topology { self.new.topology ≡ self.old.topology }
        ensures fates { self.new.fates ≡ self.old.fates }
        ensures routes { self.new.routes ≡ self.old.routes }
        ensures deliveries { self.new.deliveries ≡ self.old.deliveries }
        ensures entries { self.new.entries ≡ self.old.entries }
    {
        let ActorName::Process(site) = actor else {
            return;
        };
        let place = place_of_site(&self.topology, site);
        if place < self.sites.len() {
            self.sites[place].enter(event);
        }
    }

    /// Adds the outputs of the newest entry.
    fn send(&mut self, outputs: &Outputs) -> Result<(), NoMemory>
        ensures sends { OnOk result (Sends (numbered self.old.entries 1 outputs.now) self.old self.new) }
        ensures rest { OnOk result (KeepsPlan self.old self.new) }
    {
        for i in 0..outputs.len() {
            self.send_one(i as u64 + 1, &outputs.as_slice()[i])?;
        }
        Ok(())
    }

    /// Counts an output, and adds what is left of it.
    fn send_one(&mut self, place: u64, message: &Message) -> Result<(), NoMemory>
        ensures sends { OnOk result
            (Sends (record { entry = self.old.entries; place = place; message = message.now } ∷ []) self.old self.new) }
        ensures rest { OnOk result (KeepsPlan self.old self.new) }
    {
        let (from, to) = (message.from, message.to);
        let fate = self.fates.of_next(&mut self.routes, Route { from, to })?;
        let entry = self.entries;
        self.deliveries.add(Slot { entry, place }, fate)?;
        Ok(())
    }
}

/// Whether a loss, or a delivery, may come now of what is left of an output.
fn may_come(left: Option<Left>, loss: bool) -> bool
    ensures { result ≡ may_come loss left }
{
    match left {
        Some(left) => left.is_of(loss) && left.times > 0,
        None => true,
    }
}
