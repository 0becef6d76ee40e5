ghost use Rattle.std.specs.Prelude.{◌≡◌, false, IfSome, Some};
ghost use Rattle.tp_rules.specs.Runs.{IsRun};
ghost use Rattle.tp_base.specs.declared.names.ActorName.TheVariants.{Process, Executor};
ghost use Rattle.tp_shared_tests.specs.Small.{HasCrashed, IsFresh, IsSame, IsSmall, site};

use crate::scripts::SITE;
use std::alloc::Global;
use std::sync::Wait;
use tp_base::ActorName;
use tp_journal::Journal;
use tp_rules::{Event, Inner, Outputs};
use tp_script::Script;
use tp_shared::{Desk, EnterFault, Shared};

/// A site crashes, and its executor delivers a message: whether that was refused, and the journal.
pub fn after_a_crash(rt: &impl Wait, alloc: Global, script: &Script) -> Option<(bool, Journal)>
    requires small { IsSmall script.now }
    ensures { IfSome result (λ r. IsRun script.now r.1) }
{
    let Ok((shared, mut first)) = Shared::begin(alloc, script, Journal::new(alloc)) else {
        return None;
    };
    let process = first.split(&shared, ActorName::Process(SITE));
    let process = crash(rt, alloc, &shared, script, process)?;
    first.join(&shared, process);
    let executor = first.split(&shared, ActorName::Executor(SITE));
    let (executor, refused) = deliver(rt, alloc, &shared, executor);
    first.join(&shared, executor);
    first.hold(rt, &shared);
    Some((refused, shared.close(first)))
}

// The process's first step is its crash, as the plan says.
fn crash(
    rt: &impl Wait,
    alloc: Global,
    shared: &Shared,
    script: &Script,
    mut desk: Desk,
) -> Option<Desk>
    requires table { desk.table ≡ shared.now }
    requires small { IsSmall script.now }
    requires desk { IsFresh script.now (Process site) desk }
    ensures same { IfSome result (λ after. IsSame desk after) }
    ensures crashed { IfSome result (λ after. HasCrashed after.seen) }
{
    desk.hold(rt, shared);
    desk.told();
    let Ok(_) = desk.enter(Event::Inner(Inner::Crash), Outputs::new(alloc)) else {
        desk.release(shared);
        return None;
    };
    desk.release(shared);
    Some(desk)
}

// Whether a delivery is refused for the crash, and the journal is as it was.
fn deliver(rt: &impl Wait, alloc: Global, shared: &Shared, mut desk: Desk) -> (Desk, bool)
    requires table { desk.table ≡ shared.now }
    requires desk { (desk.actor ≡ Some (Executor site)) × (desk.holds ≡ false) }
    requires crashed { HasCrashed desk.seen }
    ensures { IsSame desk result.0 }
{
    desk.hold(rt, shared);
    let length = desk.length();
    let event = Event::Deliver { entry: 1, place: 1 };
    let refused = desk.enter(event, Outputs::new(alloc)) == Err(EnterFault::Crashed { entry: 1 });
    let same = desk.length() == length;
    desk.release(shared);
    (desk, refused && same)
}
