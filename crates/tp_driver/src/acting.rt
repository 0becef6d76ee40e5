ghost use Rattle.std.specs.Prelude.{◌≡◌, ◌++◌, ◌∷◌, [], reverse, IfOk, OnOk};
ghost use Rattle.tp_driver.specs.Cast.{AllStand};
ghost use Rattle.tp_driver.specs.Driving.{MayCome};
ghost use Rattle.tp_script.specs.Accepted.{IsAccepted};
ghost use Rattle.tp_rules.specs.Runs.{IsRun, outputs_in};
ghost use Rattle.tp_rules.specs.declared.event.Entry.{Entry as EntryValue};
ghost use Rattle.tp_rules.specs.declared.event.Event.TheVariants.{Deliver, Dropped, Inner as OfItself};

use std::alloc::Global;
use tp_base::{ActorName, NoMemory};
use tp_journal::output;
use tp_netbook::place_of;
use tp_rules::{Actor, Entry, Event, Inner, Item, Outputs};
use tp_script::Script;

/// Lets an actor of the script make a step after some entries, and gives what it sends.
pub fn act<A: Actor>(
    alloc: Global,
    script: &Script,
    earlier: &[Entry],
    actors: &mut [A],
    item: Item,
) -> Result<Outputs, NoMemory>
    requires accepted { IsAccepted script.now }
    requires run { IsRun script.now earlier.now }
    requires cast { AllStand A.identity_of A.is_spent A.stands script.now actors.old earlier.now }
    requires may { MayCome script.now earlier.now item }
    ensures outputs { IfOk result
        (λ outputs. outputs ≡ outputs_in script.now (reverse earlier.now) item.actor item.event) }
    ensures cast { OnOk result ((e : EntryValue) → e.actor ≡ item.actor → e.event ≡ item.event
        → AllStand A.identity_of A.is_spent A.stands script.now actors.new (earlier.now ++ e ∷ [])) }
{
    match item.event {
        Event::Deliver { entry, place } => deliver(
            alloc, script, earlier, actors, item.actor, entry, place,
        ),
        Event::Dropped { entry: _, place: _ } => Ok(Outputs::new(alloc)),
        Event::Inner(inner) => fire(script, earlier, actors, item.actor, inner),
    }
}

// The addressee of an output takes it.
fn deliver<A: Actor>(
    alloc: Global,
    script: &Script,
    earlier: &[Entry],
    actors: &mut [A],
    to: ActorName,
    entry: u64,
    place: u64,
) -> Result<Outputs, NoMemory>
    requires accepted { IsAccepted script.now }
    requires run { IsRun script.now earlier.now }
    requires cast { AllStand A.identity_of A.is_spent A.stands script.now actors.old earlier.now }
    requires may { MayCome script.now earlier.now (record { actor = to; event = Deliver entry place }) }
    ensures outputs { IfOk result
        (λ outputs. outputs ≡ outputs_in script.now (reverse earlier.now) to (Deliver entry place)) }
    ensures cast { OnOk result ((e : EntryValue) → e.actor ≡ to → e.event ≡ Deliver entry place
        → AllStand A.identity_of A.is_spent A.stands script.now actors.new (earlier.now ++ e ∷ [])) }
{
    let Some(message) = output(earlier, entry, place) else {
        return Ok(Outputs::new(alloc));
    };
    let home = place_of(script, to);
    prove!(home < actors.len());
    let actor = &mut actors[home];
    let outputs = actor.deliver(message)?;
    Ok(outputs)
}

// An actor makes a step of its own.
fn fire<A: Actor>(
    script: &Script,
    earlier: &[Entry],
    actors: &mut [A],
    name: ActorName,
    inner: Inner,
) -> Result<Outputs, NoMemory>
    requires accepted { IsAccepted script.now }
    requires run { IsRun script.now earlier.now }
    requires cast { AllStand A.identity_of A.is_spent A.stands script.now actors.old earlier.now }
    requires may { MayCome script.now earlier.now (record { actor = name; event = OfItself inner }) }
    ensures outputs { IfOk result
        (λ outputs. outputs ≡ outputs_in script.now (reverse earlier.now) name (OfItself inner)) }
    ensures cast { OnOk result ((e : EntryValue) → e.actor ≡ name → e.event ≡ OfItself inner
        → AllStand A.identity_of A.is_spent A.stands script.now actors.new (earlier.now ++ e ∷ [])) }
{
    let home = place_of(script, name);
    prove!(home < actors.len());
    let actor = &mut actors[home];
    let outputs = actor.fire(inner)?;
    Ok(outputs)
}
