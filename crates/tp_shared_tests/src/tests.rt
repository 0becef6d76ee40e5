use crate::crash::after_a_crash;
use crate::scripts::{small, small_session};
use crate::turns::{both, idle};
use std::test::Fail;
use tp_base::{ActorName, SessionId};

#[test]
fn two_sessions_submit_at_once(rt: HostRuntime) -> Result<(), Fail> {
    let Some(script) = small(rt.alloc())? else {
        panic!(rt; "no script")
    };
    let one = small_session(rt.alloc(), &script, 1)?;
    let two = small_session(rt.alloc(), &script, 2)?;
    let Some(journal) = both(&rt, rt.alloc(), &script, one, two) else {
        panic!(rt; "no journal")
    };
    let entries = journal.entries().as_slice();
    let of = |n| entries
        .iter()
        .filter(|e| e.actor == ActorName::Session(SessionId(n)))
        .count();
    assert!(rt; entries.len() == 2 && of(1) == 1 && of(2) == 1);
    Ok(())
}

#[test]
fn an_unused_desk_is_joined(rt: HostRuntime) -> Result<(), Fail> {
    let Some(script) = small(rt.alloc())? else {
        panic!(rt; "no script")
    };
    let Some(journal) = idle(&rt, rt.alloc(), &script) else {
        panic!(rt; "no journal")
    };
    assert!(rt; journal.entries().is_empty());
    Ok(())
}

#[test]
fn no_entry_behind_a_crash(rt: HostRuntime) -> Result<(), Fail> {
    let Some(script) = small(rt.alloc())? else {
        panic!(rt; "no script")
    };
    let Some((refused, journal)) = after_a_crash(&rt, rt.alloc(), &script) else {
        panic!(rt; "no journal")
    };
    assert!(rt; refused && journal.entries().len() == 1);
    Ok(())
}
