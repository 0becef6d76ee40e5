ghost use Rattle.std.specs.Prelude.{◌≡◌, ◌<◌, ◌++◌, ◌∷◌, [], List, false, reverse, IfOk, IsTrue, OnOk};
ghost use Rattle.tp_driver.specs.Cast.{AllStand};
ghost use Rattle.tp_driver.specs.Driving.{IsDriven, MayCome};
ghost use Rattle.tp_netbook.specs.Netbook.{AreNext, IsNetbook};
ghost use Rattle.tp_script.specs.Accepted.{IsAccepted};
ghost use Rattle.tp_rules.specs.Left.{left};
ghost use Rattle.tp_rules.specs.Pending.{IsQuiet};
ghost use Rattle.tp_rules.specs.Runs.{IsRun, outputs_in};
ghost use Rattle.tp_rules.specs.declared.event.Entry.{Entry as EntryValue};
ghost use Rattle.tp_script.specs.declared.script.Script.{Script as ScriptValue};

use crate::acting::act;
use crate::choice::choose;
use std::alloc::Global;
use tp_base::NoMemory;
use tp_journal::Journal;
use tp_netbook::{Netbook, OwnSteps, place_of};
use tp_rules::{Actor, Entry, Inner, Item, Outputs};
use tp_script::Script;

/// Enters one step after the other until nothing is pending: each is the one that the next pick
/// chooses. The actors are the script's, in the order of its roster.
pub fn drive<A: Actor>(
    alloc: Global,
    script: &Script,
    journal: &mut Journal,
    actors: &mut [A],
) -> Result<(), NoMemory>
    requires accepted { IsAccepted script.now }
    requires empty { journal.old ≡ [] }
    requires cast { AllStand A.identity_of A.is_spent A.stands script.now actors.old journal.old }
    ensures driven { IsDriven script.now journal.new }
    ensures quiet { OnOk result (IsQuiet script.now journal.new) }
    ensures cast { OnOk result (AllStand A.identity_of A.is_spent A.stands script.now actors.new journal.new) }
{
    let mut netbook = Netbook::new(alloc, script)?;
    let steps = next_steps(alloc, actors)?;
    let mut next = OwnSteps::new(alloc, steps)?;
    while turn(alloc, script, journal, &mut netbook, actors, &mut next)? {}
    Ok(())
}

// The step of its own that each actor may make.
fn next_steps<A: Actor>(alloc: Global, actors: &[A]) -> Result<Vec<Option<Inner>>, NoMemory>
    ensures { IfOk result (λ next. (script : ScriptValue) (journal : List EntryValue)
        → AllStand A.identity_of A.is_spent A.stands script actors.now journal → AreNext script journal next.items) }
{
    let mut next = Vec::new(alloc);
    for actor in actors {
        next.push(actor.next_inner())?;
    }
    Ok(next)
}

// The next step, if any is pending.
fn turn<A: Actor>(
    alloc: Global,
    script: &Script,
    journal: &mut Journal,
    netbook: &mut Netbook,
    actors: &mut [A],
    next: &mut OwnSteps,
) -> Result<bool, NoMemory>
    requires accepted { IsAccepted script.now }
    requires driven { IsDriven script.now journal.old }
    requires netbook { IsNetbook script.now journal.old netbook.old }
    requires cast { AllStand A.identity_of A.is_spent A.stands script.now actors.old journal.old }
    requires next { AreNext script.now journal.old next.old }
    ensures driven { IsDriven script.now journal.new }
    ensures netbook { OnOk result (IsNetbook script.now journal.new netbook.new) }
    ensures cast { OnOk result (AllStand A.identity_of A.is_spent A.stands script.now actors.new journal.new) }
    ensures next { OnOk result (AreNext script.now journal.new next.new) }
    ensures falls { IfOk result (λ went. IsTrue went
        → left script.now (reverse journal.new) < left script.now (reverse journal.old)) }
    ensures quiet { IfOk result (λ went. went ≡ false → IsQuiet script.now journal.new) }
{
    let Some(item) = choose(script, journal, netbook, next) else {
        return Ok(false);
    };
    let outputs = act_after(alloc, script, journal, actors, item)?;
    let home = place_of(script, item.actor);
    prove!(home < actors.len());
    next.set(home, actors[home].next_inner());
    let entry = Entry {
        actor: item.actor,
        event: item.event,
        outputs,
    };
    netbook.entered(&entry)?;
    journal.enter(entry)?;
    Ok(true)
}

// An actor makes a step after a journal, and gives what it sends.
fn act_after<A: Actor>(
    alloc: Global,
    script: &Script,
    journal: &Journal,
    actors: &mut [A],
    item: Item,
) -> Result<Outputs, NoMemory>
    requires accepted { IsAccepted script.now }
    requires run { IsRun script.now journal.now }
    requires cast { AllStand A.identity_of A.is_spent A.stands script.now actors.old journal.now }
    requires may { MayCome script.now journal.now item }
    ensures outputs { IfOk result
        (λ outputs. outputs ≡ outputs_in script.now (reverse journal.now) item.actor item.event) }
    ensures cast { OnOk result ((e : EntryValue) → e.actor ≡ item.actor → e.event ≡ item.event
        → AllStand A.identity_of A.is_spent A.stands script.now actors.new (journal.now ++ e ∷ [])) }
{
    act(alloc, script, journal.entries().as_slice(), actors, item)
}
