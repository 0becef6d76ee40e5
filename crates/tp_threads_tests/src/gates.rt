use crate::runs::{read, run_gated, run_watched};
use crate::watch::Watch;
use std::test::Fail;
use tp_base::{ActorName, PartitionId, Rank, SessionId, Site};
use tp_journal::Journal;
use tp_outside::HoldGate;

// So often an actor tries to pass.
const TRIES: u64 = 10_000_000;

const ONE: ActorName = ActorName::Session(SessionId(1));

const TWO: ActorName = ActorName::Session(SessionId(2));

const fn process(partition: u8, rank: u8) -> ActorName {
    ActorName::Process(Site {
        partition: PartitionId(partition),
        rank: Rank(rank),
    })
}

const TWO_HOMES: &[u8] =
    b"tempo 1\nshape 1 3 1\nsession 1 1\nsession 2 2\ncommand 1 put 61 31\ncommand 2 put 61 32\nend\n";

const SEVERAL: &[u8] =
    b"tempo 1\nshape 2 3 1\nsession 1 1\nsession 2 1\ncommand 1 put 62 31 ; put 61 31\ncommand 2 get 62\ncommand 2 get 62\ncommand 2 get 61\nrecover 2.3 1.1 after 0\nend\n";

// The place of an actor's first entry.
fn begins(journal: &Journal, actor: ActorName) -> Option<usize> {
    let entries = journal.entries().as_slice();
    entries.iter().position(|e| e.actor == actor)
}

// Each order is asked for.
#[test]
fn two_sessions_submit_in_either_order(rt: HostRuntime) -> Result<(), Fail> {
    let Ok(script) = read(rt.alloc(), TWO_HOMES) else {
        panic!(rt; "no script")
    };
    for (first, second) in [(ONE, TWO), (TWO, ONE)] {
        let ended = run_watched(&rt, rt.alloc(), &script, &Watch::order(first, second))?;
        assert!(rt; ended.whole);
        assert!(rt; begins(&ended.journal, first) < begins(&ended.journal, second));
    }
    Ok(())
}

// Whoever is held, the others go on, and each entry was let through once. The recovery waits for nobody.
#[test]
fn whoever_is_held_the_others_go_on(rt: HostRuntime) -> Result<(), Fail> {
    let Ok(script) = read(rt.alloc(), SEVERAL) else {
        panic!(rt; "no script")
    };
    let (recovering, home) = (process(2, 3), process(1, 1));
    for (held, other) in [(ONE, recovering), (recovering, ONE), (home, TWO)] {
        let gate = HoldGate::new(held, other, TRIES);
        let journal = run_gated(&rt, rt.alloc(), &script, &gate)?;
        assert!(rt; !gate.late() && gate.passes() == journal.entries().len() as u64);
    }
    Ok(())
}
