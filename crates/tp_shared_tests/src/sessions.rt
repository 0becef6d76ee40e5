ghost use Rattle.std.specs.Prelude.{◌≡◌, ◌≤◌};
ghost use Rattle.tp_shared_tests.specs.Small.{IsFresh, IsNew, IsSame, IsSmall, session_name};

use std::sync::Wait;
use tp_rules::{Actor, Event, Inner};
use tp_script::Script;
use tp_session::Session;
use tp_shared::{Desk, Shared};

/// A session's first step: it is made without the turn, and entered with it.
pub fn submit(
    rt: &impl Wait,
    shared: &Shared,
    script: &Script,
    n: u8,
    mut session: Session,
    mut desk: Desk,
) -> Desk
    requires table { desk.table ≡ shared.now }
    requires small { IsSmall script.now }
    requires low { 1 ≤ n }
    requires high { n ≤ 2 }
    requires session { IsNew script.now n session }
    requires desk { IsFresh script.now (session_name n) desk }
    ensures { IsSame desk result }
{
    let Some(Inner::Submit(number)) = session.next_inner() else {
        return desk;
    };
    let inner = Inner::Submit(number);
    let Ok(outputs) = session.fire(inner) else {
        return desk;
    };
    desk.hold(rt, shared);
    desk.told();
    let _ = desk.enter(Event::Inner(inner), outputs);
    desk.release(shared);
    desk
}
