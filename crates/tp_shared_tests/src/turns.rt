ghost use Rattle.std.specs.Prelude.{◌≡◌, IfSome};
ghost use Rattle.tp_rules.specs.Runs.{IsRun};
ghost use Rattle.tp_shared_tests.specs.Small.{IsNew, IsReady, IsSame, IsSmall};

use crate::sessions::submit;
use std::alloc::Global;
use std::sync::Wait;
use std::thread;
use std::thread::Threads;
use tp_base::{ActorName, SessionId};
use tp_journal::Journal;
use tp_script::Script;
use tp_session::Session;
use tp_shared::{Desk, Shared};

/// Two sessions submit at once, each at its own desk.
pub fn both<R: Threads + Wait + Sync>(
    rt: &R,
    alloc: Global,
    script: &Script,
    one: Session,
    two: Session,
) -> Option<Journal>
    requires small { IsSmall script.now }
    requires one { IsNew script.now 1 one }
    requires two { IsNew script.now 2 two }
    ensures { IfSome result (λ journal. IsRun script.now journal) }
{
    let Ok((shared, mut first)) = Shared::begin(alloc, script, Journal::new(alloc)) else {
        return None;
    };
    let left = first.split(&shared, ActorName::Session(SessionId(1)));
    let right = first.split(&shared, ActorName::Session(SessionId(2)));
    let (left, right) = together(rt, &shared, script, one, two, left, right);
    first.join(&shared, left);
    first.join(&shared, right);
    first.hold(rt, &shared);
    Some(shared.close(first))
}

// One thread for each.
fn together<R: Threads + Wait + Sync>(
    rt: &R,
    shared: &Shared,
    script: &Script,
    one: Session,
    two: Session,
    left: Desk,
    right: Desk,
) -> (Desk, Desk)
    requires small { IsSmall script.now }
    requires one { IsReady shared.now script.now 1 one left }
    requires two { IsReady shared.now script.now 2 two right }
    ensures { IsSame left result.0 × IsSame right result.1 }
{
    thread::join(
        rt,
        || -> Desk
            requires { IsSmall script.now × IsReady shared.now script.now 1 one left }
            ensures { IsSame left result }
        { submit(rt, shared, script, 1, one, left) },
        || -> Desk
            requires { IsSmall script.now × IsReady shared.now script.now 2 two right }
            ensures { IsSame right result }
        { submit(rt, shared, script, 2, two, right) },
    )
}

/// A desk that is never used is joined.
pub fn idle(rt: &impl Wait, alloc: Global, script: &Script) -> Option<Journal>
    ensures { IfSome result (λ journal. IsRun script.now journal) }
{
    let Ok((shared, mut first)) = Shared::begin(alloc, script, Journal::new(alloc)) else {
        return None;
    };
    let other = first.split(&shared, ActorName::Session(SessionId(1)));
    first.join(&shared, other);
    first.hold(rt, &shared);
    Some(shared.close(first))
}
