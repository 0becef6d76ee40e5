// These functions do nothing: each tells that numbers are those of their types, so that a run's entries have a text.
ghost use Rattle.std.specs.Prelude.{◌≤◌};
ghost use Rattle.tp_base.specs.Lists.{Each};
ghost use Rattle.tp_entry.specs.Journals.{IsEntry, IsEvent, IsJournal};
ghost use Rattle.tp_entry.specs.Kinds.{IsActorName, IsCommandName, IsPart, most, most_place};
ghost use Rattle.tp_rules.specs.declared.event.Event.TheVariants.{Inner as OfItself};
ghost use Rattle.tp_run.specs.Traces.{CountsFromOne, IsTraced};

use tp_base::{ActorName, CommandId};
use tp_rules::{Entry, Event, Inner};

/// The entries have a text where their messages have bytes and their numbers count from 1.
pub fn look(entries: &[Entry])
    requires { Each IsTraced entries.now }
    ensures { IsJournal entries.now }
{
    for entry in entries {
        look_at(entry);
    }
}

fn look_at(entry: &Entry)
    requires { IsTraced entry.now }
    ensures { IsEntry entry.now }
{
    look_at_actor(entry.actor);
    look_at_event(entry.event);
}

fn look_at_actor(actor: ActorName)
    ensures { IsActorName actor }
{
    match actor {
        ActorName::Process(site) => {
            part(site.partition.0);
            part(site.rank.0);
        }
        ActorName::Executor(site) => {
            part(site.partition.0);
            part(site.rank.0);
        }
        ActorName::Session(session) => part(session.0),
    }
}

fn look_at_event(event: Event)
    requires { CountsFromOne event }
    ensures { IsEvent event }
{
    match event {
        Event::Deliver { entry, place } => {
            count(entry);
            count(place);
        }
        Event::Dropped { entry, place } => {
            count(entry);
            count(place);
        }
        Event::Inner(inner) => look_at_inner(inner),
    }
}

fn look_at_inner(inner: Inner)
    ensures { IsEvent (OfItself inner) }
{
    match inner {
        Inner::Submit(n) => number(n),
        Inner::Recover(id) => look_at_id(id),
        Inner::Declare(id) => look_at_id(id),
        Inner::Execute(id) => look_at_id(id),
        Inner::Announce | Inner::Crash => {}
    }
}

fn look_at_id(id: CommandId)
    ensures { IsCommandName id }
{
    part(id.session.0);
    number(id.number);
}

fn part(_n: u8)
    ensures { IsPart _n }
{}

fn number(_n: u32)
    ensures { _n ≤ most }
{}

fn count(_n: u64)
    ensures { _n ≤ most_place }
{}
