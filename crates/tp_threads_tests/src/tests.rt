use crate::passing::both_pass;
use std::test::Fail;
use tp_base::{ActorName, SessionId};
use tp_outside::{Gate, HoldGate, OpenGate};

#[test]
fn who_is_held_is_late_where_the_other_never_passes(rt: HostRuntime) -> Result<(), Fail> {
    let one = ActorName::Session(SessionId(1));
    let two = ActorName::Session(SessionId(2));
    let gate = HoldGate::new(one, two, 3);
    assert!(rt; !gate.late() && gate.passes() == 0);
    gate.pass(one, 0);
    assert!(rt; gate.late() && gate.passes() == 1);
    Ok(())
}

#[test]
fn who_is_held_passes_once_the_other_has(rt: HostRuntime) -> Result<(), Fail> {
    let one = ActorName::Session(SessionId(1));
    let two = ActorName::Session(SessionId(2));
    let gate = HoldGate::new(one, two, 1);
    gate.pass(two, 0);
    gate.pass(one, 0);
    gate.pass(one, 1);
    assert!(rt; !gate.late() && gate.passes() == 3);
    Ok(())
}

#[test]
fn two_threads_pass_whoever_is_held(rt: HostRuntime) -> Result<(), Fail> {
    let one = ActorName::Session(SessionId(1));
    let two = ActorName::Session(SessionId(2));
    both_pass(&rt, &OpenGate, one, two);
    for (held, other) in [(one, two), (two, one)] {
        let gate = HoldGate::new(held, other, 1_000_000_000);
        both_pass(&rt, &gate, one, two);
        assert!(rt; !gate.late() && gate.passes() == 2);
    }
    Ok(())
}
