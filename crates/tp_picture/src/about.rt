ghost use Rattle.std.specs.List.{list_any};
ghost use Rattle.std.specs.Option.{option_copied};
ghost use Rattle.std.specs.Prelude.{◌≡◌};
ghost use Rattle.tp_base.specs.Names.{same_id};
ghost use Rattle.tp_picture.specs.About.{has_pair, is_about, is_chosen_entry, is_chosen_message, is_entry_about, is_event_about, is_sent_about, names};
ghost use Rattle.tp_rules.specs.Journal.{is_crash};

use crate::sign::{sign_of, sign_of_step};
use tp_base::{ActorName, CommandId, Pair};
use tp_journal::output;
use tp_rules::{Entry, Event, Inner};
use tp_wire::{Body, Message};

fn names(id: CommandId, named: Option<CommandId>) -> bool
    ensures { result ≡ names id named }
{
    match named {
        Some(named) => named == id,
        None => false,
    }
}

fn is_for(id: CommandId, pair: &Pair) -> bool
    ensures { result ≡ same_id pair.now.id id }
{
    pair.id == id
}

fn any_pair(id: CommandId, pairs: &[Pair]) -> bool
    ensures { result ≡ list_any (λ pair. same_id pair.id id) pairs.now }
{
    pairs.iter().any(|pair| is_for(id, pair))
}

fn has_pair(id: CommandId, body: &Body) -> bool
    ensures { result ≡ has_pair id body.now }
{
    match body {
        Body::MPromises {
            lo: _,
            hi: _,
            pairs,
        } => any_pair(id, pairs.as_slice()),
        _ => false,
    }
}

fn is_about(id: CommandId, message: &Message) -> bool
    ensures { result ≡ is_about id message.now }
{
    has_pair(id, &message.body) || names(id, sign_of(&message.body).id)
}

fn is_sent_about(id: CommandId, message: Option<&Message>) -> bool
    ensures { result ≡ is_sent_about id (option_copied message.entry) }
{
    match message {
        Some(message) => is_about(id, message),
        None => false,
    }
}

/// Whether an event is a crash.
pub(crate) fn is_crash(event: Event) -> bool
    ensures { result ≡ is_crash event }
{
    matches!(event, Event::Inner(Inner::Crash))
}

fn is_event_about(entries: &[Entry], id: CommandId, actor: ActorName, event: Event) -> bool
    ensures { result ≡ is_event_about entries.now id actor event }
{
    match event {
        Event::Deliver { entry, place } => is_sent_about(id, output(entries, entry, place)),
        Event::Dropped { entry, place } => is_sent_about(id, output(entries, entry, place)),
        Event::Inner(step) => is_crash(event) || names(id, sign_of_step(actor, step).id),
    }
}

fn any_about(id: CommandId, messages: &[Message]) -> bool
    ensures { result ≡ list_any (is_about id) messages.now }
{
    messages.iter().any(|message| is_about(id, message))
}

fn is_entry_about(entries: &[Entry], id: CommandId, entry: &Entry) -> bool
    ensures { result ≡ is_entry_about entries.now id entry.now }
{
    is_event_about(entries, id, entry.actor, entry.event) || any_about(id, entry.outputs.as_slice())
}

/// Whether a message is about the command that is chosen, if one is.
pub(crate) fn is_chosen_message(only: Option<CommandId>, message: &Message) -> bool
    ensures { result ≡ is_chosen_message only message.now }
{
    match only {
        Some(id) => is_about(id, message),
        None => true,
    }
}

/// Whether an entry is about the command that is chosen, if one is.
pub(crate) fn is_chosen_entry(entries: &[Entry], only: Option<CommandId>, entry: &Entry) -> bool
    ensures { result ≡ is_chosen_entry entries.now only entry.now }
{
    match only {
        Some(id) => is_entry_about(entries, id, entry),
        None => true,
    }
}
