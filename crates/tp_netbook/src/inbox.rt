ghost use Rattle.std.specs.Option.{option_copied};
ghost use Rattle.std.specs.Prelude.{◌≡◌, ◌++◌, ◌∷◌, [], true, List, None, Some, IfOk, IfSome, OnOk, reverse};
ghost use Rattle.tp_base.specs.declared.names.ActorName.{ActorName as ActorValue};
ghost use Rattle.tp_netbook.specs.Inbox.{AreCountedBy, FollowsNext, HasDone, HasNoneLeft, IsInbox, IsWatchOf, StandsIn, Takes, coming, entries_by, message_for, next_event, sent_to, settled, waiting_among, waits};
ghost use Rattle.tp_rules.specs.Journal.{is_live, output_at};
ghost use Rattle.tp_rules.specs.Runs.{IsRun};
ghost use Rattle.tp_rules.specs.declared.event.Entry.{Entry as EntryValue};
ghost use Rattle.tp_rules.specs.declared.event.Event.TheVariants.{Deliver};
ghost use Rattle.tp_rules.specs.declared.event.Parcel.{Parcel as ParcelValue};
ghost use Rattle.tp_script.specs.declared.script.Script.{Script as ScriptValue};

use crate::line::lines_of;
use crate::output::Output;
use crate::watch::Watch;
use std::alloc::Global;
use std::collections::VecDeque;
use tp_base::{ActorName, Duplicate, NoMemory};
use tp_fates::{Fates, Route, Routes};
use tp_rules::{Event, Parcel, Parcels};
use tp_script::Script;
use tp_wire::Message;

/// A message that waits for its addressee.
#[derive(Debug, Drop)]
pub(crate) struct Waiting {
    pub output: Output,
    pub message: Message,
}

/// What one actor may do next, by the messages that it was given and its own entries.
#[derive(Debug, Drop)]
pub struct Inbox {
    // A process's.
    watch: Option<Watch>,
    fates: Fates,
    routes: Routes,
    waiting: VecDeque<Waiting>,
}

impl Inbox {
    /// Of an actor that was given nothing yet and made no entry.
    pub fn new(alloc: Global, script: &Script, actor: ActorName) -> Result<Inbox, NoMemory>
        ensures { IfOk result (IsInbox script.now actor [] []) }
    {
        Ok(Inbox {
            watch: watch_of(alloc, script, actor)?,
            fates: Fates::new(alloc, script.plan.as_slice())?,
            routes: Routes::new(alloc),
            waiting: VecDeque::new(alloc),
        })
    }

    /// Takes further messages to the actor, in the order in which they were sent. After an error the inbox isn't used
    /// again.
    pub fn take(&mut self, parcels: Parcels) -> Result<(), NoMemory>
        ensures { OnOk result (Takes parcels self.old self.new) }
    {
        self.add_all(parcels.as_slice())
    }

    /// What the actor does next: its plan line that is due, or else what becomes of its oldest message. It takes no
    /// memory.
    pub fn next(&self) -> Option<Event>
        ensures next { (script : ScriptValue) (actor : ActorValue) (parcels : List ParcelValue) (own : List EntryValue)
            → IsInbox script actor parcels own self.now → result ≡ next_event script actor parcels own }
        ensures follows { (script : ScriptValue) (journal : List EntryValue) (actor : ActorValue) → IsRun script journal
            → StandsIn script journal actor self.now → IfSome result (FollowsNext script (reverse journal) actor) }
        ensures quiet { (script : ScriptValue) (journal : List EntryValue) (actor : ActorValue) → IsRun script journal
            → StandsIn script journal actor self.now → is_live (reverse journal) actor ≡ true → result ≡ None
            → HasNoneLeft script (reverse journal) actor }
    {
        self.coming()
    }

    /// The oldest message that waits, where it has these numbers.
    pub fn message(&self, entry: u64, place: u64) -> Option<&Message>
        ensures oldest { (script : ScriptValue) (actor : ActorValue) (parcels : List ParcelValue)
            (own : List EntryValue) → IsInbox script actor parcels own self.now
            → option_copied result ≡ message_for (waiting_among script own [] parcels) entry place }
        ensures sent { (script : ScriptValue) (journal : List EntryValue) (actor : ActorValue) → IsRun script journal
            → StandsIn script journal actor self.now
            → next_event script actor (sent_to actor (reverse journal)) (entries_by actor (reverse journal))
            ≡ Some (Deliver entry place) → option_copied result ≡ output_at (reverse journal) entry place }
    {
        self.oldest(entry, place)
    }

    /// Takes the actor's next entry: the one that comes next, or a step that the actor makes by itself.
    pub fn done(&mut self, event: Event)
        ensures { HasDone event self.old self.new }
    {
        self.count(event);
        self.settle(event);
    }

    // What the inbox says comes next.
    fn coming(&self) -> Option<Event>
        ensures { result ≡ coming self.now.watch self.now.waiting.items }
    {
        if let Some(watch) = &self.watch {
            if !watch.live {
                return None;
            }
            if let Some(inner) = watch.due() {
                return Some(Event::Inner(inner));
            }
        }
        let first = self.waiting.front()?;
        Some(first.output.event())
    }

    fn oldest(&self, entry: u64, place: u64) -> Option<&Message>
        ensures { option_copied result ≡ message_for self.now.waiting.items entry place }
    {
        let first = self.waiting.front()?;
        if first.output.entry != entry || first.output.place != place {
            return None;
        }
        Some(&first.message)
    }

    fn add_all(&mut self, parcels: &[Parcel]) -> Result<(), NoMemory>
        ensures { OnOk result (Takes parcels.now self.old self.new) }
    {
        for k in 0..parcels.len() {
            self.add(&parcels[k])?;
        }
        Ok(())
    }

    // Counts a message, and finds its fate.
    fn add(&mut self, parcel: &Parcel) -> Result<(), NoMemory>
        ensures { OnOk result (Takes (parcel.now ∷ []) self.old self.new) }
    {
        let (from, to) = (parcel.message.from, parcel.message.to);
        let fate = self.fates.of_next(&mut self.routes, Route { from, to })?;
        let output = Output::new(parcel.entry, parcel.place, to, fate);
        self.push(output, &parcel.message)?;
        Ok(())
    }

    // Adds a message that waits.
    fn push(&mut self, output: Output, message: &Message) -> Result<(), NoMemory>
        ensures waiting { OnOk result (self.new.waiting.items ≡ self.old.waiting.items ++ waits output message.now) }
        ensures watch { OnOk result (self.new.watch ≡ self.old.watch) }
        ensures fates { OnOk result (self.new.fates ≡ self.old.fates) }
        ensures routes { OnOk result (self.new.routes ≡ self.old.routes) }
    {
        if output.left > 0 {
            let message = message.copy()?;
            self.waiting.push_back(Waiting { output, message })?;
        }
        Ok(())
    }

    // Counts an entry of the actor.
    fn count(&mut self, event: Event)
        ensures watch { AreCountedBy event self.old.watch self.new.watch }
        ensures fates { self.new.fates ≡ self.old.fates }
        ensures routes { self.new.routes ≡ self.old.routes }
        ensures waiting { self.new.waiting ≡ self.old.waiting }
    {
        if let Some(watch) = &mut self.watch {
            let _ = watch.enter(event);
        }
    }

    // Takes the delivery or the loss of the oldest message.
    fn settle(&mut self, event: Event)
        ensures waiting { self.new.waiting.items ≡ settled event self.old.waiting.items }
        ensures watch { self.new.watch ≡ self.old.watch }
        ensures fates { self.new.fates ≡ self.old.fates }
        ensures routes { self.new.routes ≡ self.old.routes }
    {
        let Some(mut first) = self.waiting.pop_front() else {
            return;
        };
        first.output.take(event);
        if first.output.left > 0 {
            self.waiting.push_front_reserved(first);
        }
    }
}

// A process's watch, before its first entry.
fn watch_of(alloc: Global, script: &Script, actor: ActorName) -> Result<Option<Watch>, NoMemory>
    ensures { IfOk result (IsWatchOf script.now [] actor) }
{
    let ActorName::Process(site) = actor else {
        return Ok(None);
    };
    Ok(Some(Watch {
        site,
        live: true,
        made: 0,
        lines: lines_of(alloc, script, site)?,
        came: 0,
    }))
}
