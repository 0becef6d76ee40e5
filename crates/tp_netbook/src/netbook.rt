ghost use Rattle.std.specs.Option.{option_copied};
ghost use Rattle.std.specs.Prelude.{◌≡◌, ◌<◌, ◌+◌, ◌^◌, ◌++◌, ◌∷◌, [], true, ℕ, Bool, List, Some, length, map, reverse, slice_get, IfOk, OnOk};
ghost use Rattle.tp_bits.specs.Bits.{AreBits};
ghost use Rattle.tp_netbook.specs.Netbook.{Adds, AreCounted, AreNext, ArePlaced, AreReady, AreAllFree, AreReadyBut, AreWatches, IsFreeRight, IsNetbook, KeepsMarks, KeepsRest, Lists, Turns, TurnsByPlan, are_free, deliveries, due_items, home_of, is_alive, is_free, is_ready, is_undue, lines, marked, may_turn, own_item, own_items, watch_of};
ghost use Rattle.tp_netbook.specs.Outputs.{packed, passed};
ghost use Rattle.tp_rules.specs.Journal.{numbered};
ghost use Rattle.tp_rules.specs.Pending.{pending, sites_of};
ghost use Rattle.tp_rules.specs.Runs.{IsRun};
ghost use Rattle.tp_rules.specs.declared.event.Entry.{Entry as EntryValue};
ghost use Rattle.tp_script.specs.Accepted.{IsAccepted};
ghost use Rattle.tp_script.specs.declared.script.Script.{Script as ScriptValue};

use crate::line::lines_of;
use crate::output::{Inbox, Output, place_in};
use crate::own_steps::OwnSteps;
use crate::packed::Packed;
use crate::roster::{place_of_site, roster, sites_of};
use crate::watch::Watch;
use std::alloc::Global;
use tp_base::{ActorName, NoMemory, Site};
use tp_bits::Bits;
use tp_fates::{Fates, Route, Routes};
use tp_rules::{Entry, Event, Inner, Item, Outputs};
use tp_script::Script;
use tp_topology::Topology;
use tp_wire::Message;

/// What may come next after a journal, in the order of the pending list.
#[derive(Debug, Drop)]
pub struct Netbook {
    topology: Topology,
    sites: Vec<Watch>,
    roster: Vec<ActorName>,
    fates: Fates,
    routes: Routes,
    outputs: Vec<Packed>,
    starts: Vec<usize>,
    inboxes: Vec<Inbox>,
    ready: Bits,
    // How many plan lines are due.
    due: usize,
    // Whether each site lives, and no line of its process is due.
    all_free: bool,
    entries: u64,
}

impl Netbook {
    /// Of the empty journal of a script.
    pub fn new(alloc: Global, script: &Script) -> Result<Netbook, NoMemory>
        requires { IsAccepted script.now }
        ensures { IfOk result (IsNetbook script.now []) }
    {
        let sites = sites_of(alloc, script)?;
        let watches = watches(alloc, script, sites.as_slice())?;
        Ok(Netbook {
            topology: script.topology,
            roster: roster(alloc, script, sites.as_slice())?,
            due: count_due(&watches),
            all_free: are_free(&watches),
            sites: watches,
            fates: Fates::new(alloc, script.plan.as_slice())?,
            routes: Routes::new(alloc),
            outputs: Vec::new(alloc),
            starts: Vec::new(alloc),
            inboxes: inboxes(alloc, sites.as_slice())?,
            ready: Bits::new(alloc),
            entries: 0,
        })
    }

    /// How many steps may come next.
    pub fn pending(&self, next: &OwnSteps) -> u64
        ensures { (script : ScriptValue) (journal : List EntryValue) → IsNetbook script journal self.now
            → IsAccepted script → IsRun script journal → AreNext script journal next.now
            → result ≡ length (pending script (reverse journal)) }
    {
        let others = (self.due as u64).saturating_add(self.count_own(next));
        self.count_deliveries().saturating_add(others)
    }

    /// One of the steps that may come next, counted from 0.
    pub fn item(&self, next: &OwnSteps, index: u64) -> Option<Item>
        ensures { (script : ScriptValue) (journal : List EntryValue) → IsNetbook script journal self.now
            → IsAccepted script → IsRun script journal → AreNext script journal next.now
            → result ≡ slice_get (pending script (reverse journal)) index }
    {
        let index = index as usize;
        if let Some(line) = self.line(index) {
            return Some(line);
        }
        let index = index.saturating_sub(self.due);
        if let Some(delivery) = self.delivery(index) {
            return Some(delivery);
        }
        let index = index.saturating_sub(self.count_deliveries() as usize);
        self.own(next, index)
    }

    /// Takes the next entry of the journal. After an error the netbook isn't used again.
    pub fn entered(&mut self, entry: &Entry) -> Result<(), NoMemory>
        ensures { OnOk result ((script : ScriptValue) (journal : List EntryValue) → IsNetbook script journal self.old
            → IsAccepted script → IsRun script (journal ++ entry.now ∷ []) → length journal + 1 < 2 ^ 64
            → IsNetbook script (journal ++ entry.now ∷ []) self.new) }
    {
        self.settle(entry.event);
        let turned = self.count(entry.actor, entry.event);
        self.refresh(turned);
        self.entries = self.entries.saturating_add(1);
        self.starts.push(self.outputs.len())?;
        self.add(&entry.outputs)?;
        Ok(())
    }

    fn watch(&self, site: Site) -> Option<&Watch>
        ensures { option_copied result ≡ watch_of self.now site }
    {
        self.sites.get(place_of_site(&self.topology, site))
    }

    fn is_alive(&self, actor: ActorName) -> bool
        ensures { result ≡ is_alive self.now actor }
    {
        match actor {
            ActorName::Process(site) | ActorName::Executor(site) => match self.watch(site) {
                Some(watch) => watch.live,
                None => false,
            },
            ActorName::Session(_) => true,
        }
    }

    fn is_undue(&self, actor: ActorName) -> bool
        ensures { result ≡ is_undue self.now actor }
    {
        match actor {
            ActorName::Process(site) => match self.watch(site) {
                Some(watch) => watch.due().is_none(),
                None => false,
            },
            ActorName::Executor(_) | ActorName::Session(_) => true,
        }
    }

    /// Whether an actor lives and no line of its is due.
    fn is_free(&self, actor: ActorName) -> bool
        ensures { result ≡ is_free self.now actor }
    {
        self.is_alive(actor) && self.is_undue(actor)
    }

    fn line(&self, index: usize) -> Option<Item>
        ensures { self.now.due ≡ length (lines self.now) → result ≡ slice_get (lines self.now) index }
    {
        if index >= self.due {
            return None;
        }
        let mut left = index;
        for watch in &self.sites {
            if let Some(item) = watch.item() {
                if left == 0 {
                    return Some(item);
                }
                left -= 1;
            }
        }
        None
    }

    fn count_deliveries(&self) -> u64
        ensures count { AreReady self.now → result ≡ length (deliveries self.now) }
        ensures few { AreReady self.now → result < 2 ^ 63 }
    {
        self.ready.count_ones()
    }

    fn delivery(&self, index: usize) -> Option<Item>
        ensures { AreReady self.now → result ≡ slice_get (deliveries self.now) index }
    {
        let place = self.ready.select(index as u64)?;
        let kept = self.outputs.get(place)?;
        let output = kept.output();
        Some(Item {
            actor: output.to,
            event: output.event(),
        })
    }

    /// Whether an output may be delivered or lost now.
    fn is_ready(&self, output: &Output) -> bool
        ensures { result ≡ is_ready self.now output.now }
    {
        self.is_free(output.to) && output.left > 0
    }

    fn count_own(&self, next: &OwnSteps) -> u64
        ensures { IsFreeRight self.now → length next.now ≡ length self.now.roster.items
            → result ≡ length (own_items self.now next.now) }
    {
        if self.all_free {
            next.count()
        } else {
            self.count_among(next.as_slice())
        }
    }

    fn count_among(&self, next: &[Option<Inner>]) -> u64
        ensures { result ≡ length (own_items self.now next.now) }
    {
        let many = self
            .roster
            .iter()
            .zip(next)
            .filter_map(|own| self.own_item(*own.0, *own.1))
            .count();
        many as u64
    }

    fn own(&self, next: &OwnSteps, index: usize) -> Option<Item>
        ensures { IsFreeRight self.now → length next.now ≡ length self.now.roster.items
            → result ≡ slice_get (own_items self.now next.now) index }
    {
        if self.all_free {
            self.own_at(next, index)
        } else {
            self.own_among(next.as_slice(), index)
        }
    }

    /// An actor's own step, by how many are there before it.
    fn own_at(&self, next: &OwnSteps, index: usize) -> Option<Item>
        ensures { AreAllFree self.now → length next.now ≡ length self.now.roster.items
            → result ≡ slice_get (own_items self.now next.now) index }
    {
        let place = next.select(index as u64)?;
        let actor = self.roster.get(place)?;
        let inner = next.as_slice().get(place)?;
        self.own_item(*actor, *inner)
    }

    fn own_among(&self, next: &[Option<Inner>], index: usize) -> Option<Item>
        ensures { result ≡ slice_get (own_items self.now next.now) index }
    {
        let mut left = index;
        for k in 0..self.roster.len().min(next.len()) {
            if let Some(item) = self.own_item(self.roster[k], next[k]) {
                if left == 0 {
                    return Some(item);
                }
                left -= 1;
            }
        }
        None
    }

    /// An actor's own step, where it is free.
    fn own_item(&self, actor: ActorName, inner: Option<Inner>) -> Option<Item>
        ensures { result ≡ own_item self.now (actor, inner) }
    {
        let inner = inner?;
        if !self.is_free(actor) {
            return None;
        }
        Some(Item {
            actor,
            event: Event::Inner(inner),
        })
    }

    /// Takes the delivery or the loss of an output.
    fn settle(&mut self, event: Event)
        ensures outputs { ArePlaced self.old → self.new.outputs.items ≡ map (passed event) self.old.outputs.items }
        ensures ready { AreReady self.old → AreReady self.new }
        ensures rest { KeepsRest self.old self.new }
        ensures routes { self.new.routes ≡ self.old.routes }
        ensures inboxes { self.new.inboxes ≡ self.old.inboxes }
    {
        let Some(place) = place_in(&self.starts, event) else {
            return;
        };
        if place < self.outputs.len() {
            self.outputs[place].take(event);
            self.mark(place);
        }
    }

    /// Marks whether an output may be delivered or lost now.
    fn mark(&mut self, place: usize)
        ensures ready { (bits : List Bool) → AreBits bits self.old.ready
            → AreBits (marked self.old place bits) self.new.ready }
        ensures rest { KeepsRest self.old self.new }
        ensures outputs { self.new.outputs ≡ self.old.outputs }
        ensures routes { self.new.routes ≡ self.old.routes }
        ensures inboxes { self.new.inboxes ≡ self.old.inboxes }
    {
        if place < self.outputs.len() {
            let ready = self.is_ready(&self.outputs[place].output());
            self.ready.set(place, ready);
        }
    }

    /// Marks the outputs to a site anew.
    fn refresh(&mut self, turned: Option<usize>)
        ensures ready { AreReadyBut self.old turned → AreReady self.new }
        ensures rest { KeepsRest self.old self.new }
        ensures outputs { self.new.outputs ≡ self.old.outputs }
        ensures routes { self.new.routes ≡ self.old.routes }
        ensures inboxes { self.new.inboxes ≡ self.old.inboxes }
    {
        let Some(home) = turned else {
            return;
        };
        if home >= self.inboxes.len() {
            return;
        }
        for k in 0..self.inboxes[home].places.len() {
            let place = self.inboxes[home].places[k];
            self.mark(place);
        }
    }

    /// Counts an entry at the watch of its process, and gives the site's place where it turned: where its
    /// process or its executor is free now and wasn't, or the other way round.
    fn count(&mut self, actor: ActorName, event: Event) -> Option<usize>
        ensures sites { AreCounted actor event self.old self.old.sites.items self.new.sites.items }
        ensures turned { Turns result self.old self.new }
        ensures plan { TurnsByPlan actor event result self.old }
        ensures due { self.old.due ≡ length (lines self.old) → self.new.due ≡ length (lines self.new) }
        ensures free { self.old.all_free ≡ are_free self.old.sites.items
            → self.new.all_free ≡ are_free self.new.sites.items }
        ensures topology { self.new.topology ≡ self.old.topology }
        ensures outputs { self.new.outputs ≡ self.old.outputs }
        ensures starts { self.new.starts ≡ self.old.starts }
        ensures inboxes { self.new.inboxes ≡ self.old.inboxes }
        ensures ready { self.new.ready ≡ self.old.ready }
        ensures roster { self.new.roster ≡ self.old.roster }
        ensures fates { self.new.fates ≡ self.old.fates }
        ensures routes { self.new.routes ≡ self.old.routes }
        ensures entries { self.new.entries ≡ self.old.entries }
    {
        let ActorName::Process(site) = actor else {
            return None;
        };
        let place = place_of_site(&self.topology, site);
        if place >= self.sites.len() {
            return None;
        }
        if self.sites[place].enter(event) {
            self.due = count_due(&self.sites);
            self.all_free = are_free(&self.sites);
            Some(place)
        } else {
            None
        }
    }

    /// Adds the outputs of the newest entry.
    fn add(&mut self, outputs: &Outputs) -> Result<(), NoMemory>
        ensures adds { OnOk result (Adds (numbered self.old.entries 1 outputs.now) self.old self.new) }
        ensures marks { OnOk result (KeepsMarks self.old self.new) }
        ensures rest { OnOk result (KeepsRest self.old self.new) }
    {
        for i in 0..outputs.len() {
            self.add_output(i as u64 + 1, &outputs.as_slice()[i])?;
        }
        Ok(())
    }

    /// Counts an output, and adds it with its fate.
    fn add_output(&mut self, place: u64, message: &Message) -> Result<(), NoMemory>
        ensures adds { OnOk result
            (Adds (record { entry = self.old.entries; place = place; message = message.now } ∷ []) self.old self.new) }
        ensures marks { OnOk result (KeepsMarks self.old self.new) }
        ensures rest { OnOk result (KeepsRest self.old self.new) }
    {
        let (from, to) = (message.from, message.to);
        let fate = self.fates.of_next(&mut self.routes, Route { from, to })?;
        self.push(Output::new(self.entries, place, to, fate))?;
        Ok(())
    }

    /// The place of an actor's site, where the plan has a line for that.
    fn listed_at(&self, actor: ActorName) -> Option<usize>
        ensures { (home : ℕ) → home_of self.now.topology actor ≡ Some home → may_turn self.now home ≡ true
            → result ≡ Some home }
    {
        let home = home_of(&self.topology, actor)?;
        let watch = self.sites.get(home)?;
        if watch.lines.is_empty() {
            return None;
        }
        Some(home)
    }

    /// Adds an output: to all of them, to its site's inbox, and whether it may be delivered or lost now.
    fn push(&mut self, output: Output) -> Result<(), NoMemory>
        ensures outputs { OnOk result (self.new.outputs.items ≡ self.old.outputs.items ++ packed output ∷ []) }
        ensures marks { OnOk result (KeepsMarks self.old self.new) }
        ensures rest { OnOk result (KeepsRest self.old self.new) }
        ensures routes { OnOk result (self.new.routes ≡ self.old.routes) }
    {
        let ready = self.is_ready(&output);
        self.ready.push(ready)?;
        let place = self.outputs.len();
        let home = self.listed_at(output.to);
        self.outputs.push(Packed::new(output))?;
        list(&mut self.inboxes, home, place)?;
        Ok(())
    }
}

/// How many lines are due.
fn count_due(sites: &[Watch]) -> usize
    ensures { result ≡ length (due_items sites.now) }
{
    sites.iter().filter_map(|watch| watch.item()).count()
}

/// Whether each site lives, and no line of its process is due.
fn are_free(sites: &[Watch]) -> bool
    ensures { result ≡ are_free sites.now }
{
    sites.iter().all(|watch| watch.is_free())
}

/// The place of an actor's site, if it is at one.
fn home_of(topology: &Topology, actor: ActorName) -> Option<usize>
    ensures { result ≡ home_of topology.now actor }
{
    match actor {
        ActorName::Process(site) | ActorName::Executor(site) => Some(place_of_site(topology, site)),
        ActorName::Session(_) => None,
    }
}

/// Puts an output into the inbox of a site, if there is one.
fn list(inboxes: &mut Vec<Inbox>, home: Option<usize>, place: usize) -> Result<(), NoMemory>
    ensures { OnOk result (Lists home place inboxes.old.items inboxes.new.items) }
{
    let Some(home) = home else {
        return Ok(());
    };
    if home < inboxes.len() {
        inboxes[home].places.push(place)?;
    }
    Ok(())
}

/// An empty inbox for each site.
fn inboxes(alloc: Global, sites: &[Site]) -> Result<Vec<Inbox>, NoMemory>
    ensures { IfOk result (λ inboxes. length inboxes.items ≡ length sites.now) }
{
    let mut inboxes = Vec::new(alloc);
    for _site in sites {
        inboxes.push(Inbox {
            places: Vec::new(alloc),
        })?;
    }
    Ok(inboxes)
}

/// One watch of each site.
pub(crate) fn watches(
    alloc: Global,
    script: &Script,
    sites: &[Site],
) -> Result<Vec<Watch>, NoMemory>
    requires { sites.now ≡ sites_of script.now }
    ensures { IfOk result (λ watches. AreWatches script.now [] watches.items) }
{
    let mut watches = Vec::new(alloc);
    for site in sites {
        watches.push(Watch {
            site: *site,
            live: true,
            made: 0,
            lines: lines_of(alloc, script, *site)?,
            came: 0,
        })?;
    }
    Ok(watches)
}
