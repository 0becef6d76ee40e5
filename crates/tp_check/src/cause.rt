ghost use Rattle.std.specs.Prelude.{◌≡◌, ◌↔◌, ◌++◌, ◌∷◌, [], List, None, reverse, IfOk, IfSome, IsTrue};
ghost use Rattle.tp_base.specs.Names.{same_name};
ghost use Rattle.tp_check.specs.Causes.{IsCause};
ghost use Rattle.tp_check.specs.Steps.{IsAble, IsAllowed, message_flaw, output_flaw};
ghost use Rattle.tp_driver.specs.Cast.{AllStand};
ghost use Rattle.tp_netbook.specs.Ledger.{IsLedger};
ghost use Rattle.tp_rules.specs.Acts.{Act};
ghost use Rattle.tp_rules.specs.Journal.{is_known, output_at};
ghost use Rattle.tp_rules.specs.Runs.{IsLegal, IsRun};
ghost use Rattle.tp_script.specs.Accepted.{IsAccepted};

use crate::same::difference;
use crate::verdict::EntryCause;
use std::alloc::Global;
use tp_base::{ActorName, NoMemory};
use tp_driver::act;
use tp_journal::output;
use tp_netbook::{Ledger, place_of};
use tp_rules::{Actor, Entry, Event, Inner, Item};
use tp_script::Script;
use tp_wire::Message;

/// The cause of an entry after some others, if it has one. Else its actor has made the step.
pub(crate) fn cause_of<A: Actor>(
    alloc: Global,
    script: &Script,
    earlier: &[Entry],
    ledger: &Ledger,
    actors: &mut [A],
    entry: &Entry,
) -> Result<Option<EntryCause>, NoMemory>
    requires accepted { IsAccepted script.now }
    requires run { IsRun script.now earlier.now }
    requires ledger { IsLedger script.now earlier.now ledger.now }
    requires cast { AllStand A.identity_of A.is_spent A.stands script.now actors.old earlier.now }
    ensures cause { IfOk result (λ cause. IfSome cause (IsCause script.now (reverse earlier.now) entry.now)) }
    ensures legal { IfOk result (λ cause. cause ≡ None → IsLegal script.now (reverse earlier.now) entry.now) }
    ensures cast { IfOk result (λ cause. cause ≡ None
        → AllStand A.identity_of A.is_spent A.stands script.now actors.new (earlier.now ++ entry.now ∷ [])) }
{
    if let Some(cause) = step_flaw(script, earlier, ledger, actors, entry) {
        return Ok(Some(cause));
    }
    let item = Item {
        actor: entry.actor,
        event: entry.event,
    };
    let outputs = act(alloc, script, earlier, actors, item)?;
    match difference(entry.outputs.as_slice(), outputs.as_slice()) {
        Some(place) => Ok(Some(EntryCause::Outputs { place })),
        None => Ok(None),
    }
}

/// The cause for which the step of an entry may not come now, whatever it sends.
fn step_flaw<A: Actor>(
    script: &Script,
    earlier: &[Entry],
    ledger: &Ledger,
    actors: &[A],
    entry: &Entry,
) -> Option<EntryCause>
    requires ledger { IsLedger script.now earlier.now ledger.now }
    requires cast { AllStand A.identity_of A.is_spent A.stands script.now actors.now earlier.now }
    ensures cause { IfSome result (IsCause script.now (reverse earlier.now) entry.now) }
    ensures allowed { result ≡ None → IsAllowed script.now (reverse earlier.now) entry.now }
{
    if !is_known(script, entry.actor) {
        return Some(EntryCause::Stranger);
    }
    if !ledger.is_live(entry.actor) {
        return Some(EntryCause::Dead);
    }
    if let Some(cause) = message_flaw(earlier, entry) {
        return Some(cause);
    }
    let home = place_of(script, entry.actor);
    prove!(home < actors.len());
    if !ledger.follows_plan(entry) {
        return Some(EntryCause::Plan);
    }
    if !is_able(&actors[home], entry.event) {
        return Some(EntryCause::NotEnabled);
    }
    None
}

/// Whether an actor is one of the script's.
fn is_known(script: &Script, actor: ActorName) -> bool
    ensures { result ≡ is_known script.now actor }
{
    match actor {
        ActorName::Process(site) | ActorName::Executor(site) => script.topology.has_site(site),
        ActorName::Session(session) => {
            1 <= session.0 && usize::from(session.0) <= script.homes.len()
        }
    }
}

/// What is wrong with the message that an entry delivers or loses.
fn message_flaw(earlier: &[Entry], entry: &Entry) -> Option<EntryCause>
    ensures { result ≡ message_flaw (reverse earlier.now) entry.now.actor entry.now.event }
{
    match entry.event {
        Event::Deliver {
            entry: sender,
            place,
        } => output_flaw(earlier, sender, place, entry.actor),
        Event::Dropped {
            entry: sender,
            place,
        } => output_flaw(earlier, sender, place, entry.actor),
        Event::Inner(_) => None,
    }
}

fn output_flaw(earlier: &[Entry], sender: u64, place: u64, actor: ActorName) -> Option<EntryCause>
    ensures { result ≡ output_flaw actor (output_at (reverse earlier.now) sender place) }
{
    let Some(message) = output(earlier, sender, place) else {
        return Some(EntryCause::Message);
    };
    if is_to(message, actor) {
        None
    } else {
        Some(EntryCause::Addressee)
    }
}

fn is_to(message: &Message, actor: ActorName) -> bool
    ensures { result ≡ same_name message.now.to actor }
{
    message.to == actor
}

/// Whether an actor may make a step of its own, but for those that the plan asks for.
fn is_able<A: Actor>(actor: &A, event: Event) -> bool
    ensures { (acts : List Act) → A.stands actor.now acts
        → IsTrue result ↔ IsAble (A.identity_of actor.now) acts event }
{
    match event {
        Event::Deliver { .. } | Event::Dropped { .. } => true,
        Event::Inner(Inner::Recover(_) | Inner::Crash) => true,
        Event::Inner(inner) => actor.next_inner() == Some(inner),
    }
}
