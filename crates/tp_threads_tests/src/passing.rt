use std::thread;
use std::thread::Threads;
use tp_base::ActorName;
use tp_outside::Gate;

/// Two actors pass a gate, each on its own thread.
pub fn both_pass<R: Threads + Sync, G: Gate + Sync>(
    rt: &R,
    gate: &G,
    one: ActorName,
    two: ActorName,
) {
    thread::join(rt, || gate.pass(one, 0), || gate.pass(two, 0));
}
