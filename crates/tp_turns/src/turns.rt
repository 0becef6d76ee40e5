ghost use Rattle.std.specs.Prelude.{◌≡◌, ◌≤◌, IfSome, false};
ghost use Rattle.std.specs.Thread.{IsSync};
ghost use Rattle.tp_rules.specs.Runs.{IsRun};
ghost use Rattle.tp_shared_tests.specs.Small.{IsNew, IsReady, IsSame, IsSmall};

use std::alloc::Global;
use std::sync::Wait;
use std::thread;
use std::thread::Threads;
use tp_base::{ActorName, PartitionId, Rank, SessionId, Site};
use tp_journal::Journal;
use tp_script::Script;
use tp_session::Session;
use tp_shared::{Desk, Shared};
use tp_shared_tests::submit;

/// How many turns each desk takes, and whether each has a thread of its own.
#[derive(Clone, Copy)]
pub struct Plan {
    pub threads: bool,
    pub each: u32,
}

const SITE: Site = Site {
    partition: PartitionId(1),
    rank: Rank(1),
};

/// Two sessions, which submit first, and a site's two actors take turns as planned. The journal is then closed.
pub fn in_turn<R: Threads + Wait + Sync>(
    rt: &R,
    alloc: Global,
    script: &Script,
    one: Session,
    two: Session,
    plan: Plan,
) -> Option<Journal>
    requires small { IsSmall script.now }
    requires one { IsNew script.now 1 one }
    requires two { IsNew script.now 2 two }
    ensures { IfSome result (λ journal. IsRun script.now journal) }
{
    let Ok((shared, mut first)) = Shared::begin(alloc, script, Journal::new(alloc)) else {
        return None;
    };
    let a = first.split(&shared, ActorName::Session(SessionId(1)));
    let b = first.split(&shared, ActorName::Session(SessionId(2)));
    let c = first.split(&shared, ActorName::Process(SITE));
    let d = first.split(&shared, ActorName::Executor(SITE));
    let ((a, b), (c, d)) = worked(rt, &shared, script, one, two, plan, a, b, c, d);
    first.join(&shared, a);
    first.join(&shared, b);
    first.join(&shared, c);
    first.join(&shared, d);
    first.hold(rt, &shared);
    Some(shared.close(first))
}

// Each desk after the other.
fn on_one(
    rt: &impl Wait,
    shared: &Shared,
    script: &Script,
    one: Session,
    two: Session,
    each: u32,
    a: Desk,
    b: Desk,
    c: Desk,
    d: Desk,
) -> ((Desk, Desk), (Desk, Desk))
    requires small { IsSmall script.now }
    requires one { IsReady shared.now script.now 1 one a }
    requires two { IsReady shared.now script.now 2 two b }
    requires others { (c.table ≡ shared.now) × (d.table ≡ shared.now) }
    requires free { (c.holds ≡ false) × (d.holds ≡ false) }
    ensures sessions { IsSame a result.0.0 × IsSame b result.0.1 }
    ensures others { IsSame c result.1.0 × IsSame d result.1.1 }
{
    let a = submit_and_turn(rt, shared, script, 1, one, a, each);
    let b = submit_and_turn(rt, shared, script, 2, two, b, each);
    let c = turn(rt, shared, c, each);
    let d = turn(rt, shared, d, each);
    ((a, b), (c, d))
}

// One thread for each desk, or for all.
fn worked<R: Threads + Wait + Sync>(
    rt: &R,
    shared: &Shared,
    script: &Script,
    one: Session,
    two: Session,
    plan: Plan,
    a: Desk,
    b: Desk,
    c: Desk,
    d: Desk,
) -> ((Desk, Desk), (Desk, Desk))
    requires small { IsSmall script.now }
    requires one { IsReady shared.now script.now 1 one a }
    requires two { IsReady shared.now script.now 2 two b }
    requires others { (c.table ≡ shared.now) × (d.table ≡ shared.now) }
    requires free { (c.holds ≡ false) × (d.holds ≡ false) }
    ensures sessions { IsSame a result.0.0 × IsSame b result.0.1 }
    ensures others { IsSame c result.1.0 × IsSame d result.1.1 }
{
    let Plan { threads, each } = plan;
    if !threads {
        return on_one(rt, shared, script, one, two, each, a, b, c, d);
    }
    thread::join(
        rt,
        || -> (Desk, Desk)
            requires { IsSync R.row × IsSmall script.now × IsReady shared.now script.now 1 one a × IsReady shared.now script.now 2 two b }
            ensures { IsSame a result.0 × IsSame b result.1 }
        { sessions(rt, shared, script, one, two, each, a, b) },
        || -> (Desk, Desk)
            requires { IsSync R.row × (c.table ≡ shared.now) × (d.table ≡ shared.now) × (c.holds ≡ false) × (d.holds ≡ false) }
            ensures { IsSame c result.0 × IsSame d result.1 }
        { others(rt, shared, each, c, d) },
    )
}

// The desks of the sessions.
fn sessions<R: Threads + Wait + Sync>(
    rt: &R,
    shared: &Shared,
    script: &Script,
    one: Session,
    two: Session,
    each: u32,
    a: Desk,
    b: Desk,
) -> (Desk, Desk)
    requires small { IsSmall script.now }
    requires one { IsReady shared.now script.now 1 one a }
    requires two { IsReady shared.now script.now 2 two b }
    ensures { IsSame a result.0 × IsSame b result.1 }
{
    thread::join(
        rt,
        || -> Desk
            requires { IsSmall script.now × IsReady shared.now script.now 1 one a }
            ensures { IsSame a result }
        { submit_and_turn(rt, shared, script, 1, one, a, each) },
        || -> Desk
            requires { IsSmall script.now × IsReady shared.now script.now 2 two b }
            ensures { IsSame b result }
        { submit_and_turn(rt, shared, script, 2, two, b, each) },
    )
}

// The desks that enter nothing.
fn others<R: Threads + Wait + Sync>(
    rt: &R,
    shared: &Shared,
    each: u32,
    c: Desk,
    d: Desk,
) -> (Desk, Desk)
    requires table { (c.table ≡ shared.now) × (d.table ≡ shared.now) }
    requires free { (c.holds ≡ false) × (d.holds ≡ false) }
    ensures { IsSame c result.0 × IsSame d result.1 }
{
    thread::join(
        rt,
        || -> Desk
            requires { (c.table ≡ shared.now) × (c.holds ≡ false) }
            ensures { IsSame c result }
        { turn(rt, shared, c, each) },
        || -> Desk
            requires { (d.table ≡ shared.now) × (d.holds ≡ false) }
            ensures { IsSame d result }
        { turn(rt, shared, d, each) },
    )
}

// The session submits in the first turn.
fn submit_and_turn(
    rt: &impl Wait,
    shared: &Shared,
    script: &Script,
    n: u8,
    session: Session,
    desk: Desk,
    turns: u32,
) -> Desk
    requires small { IsSmall script.now }
    requires low { 1 ≤ n }
    requires high { n ≤ 2 }
    requires ready { IsReady shared.now script.now n session desk }
    ensures { IsSame desk result }
{
    let desk = submit(rt, shared, script, n, session, desk);
    turn(rt, shared, desk, turns.saturating_sub(1))
}

// Takes the turn so many times, and gives it back.
fn turn(rt: &impl Wait, shared: &Shared, mut desk: Desk, turns: u32) -> Desk
    requires table { desk.table ≡ shared.now }
    requires free { desk.holds ≡ false }
    ensures { IsSame desk result }
{
    for _ in 0..turns {
        desk.hold(rt, shared);
        desk.release(shared);
    }
    desk
}
