use crate::runs::{drive_watched, is_run, read, run_watched, wants_memory};
use crate::watch::{Side, Watch};
use std::test::Fail;
use tp_base::{ActorName, PartitionId, Rank, SessionId, Site};

const ONE_PUT: &[u8] = b"tempo 1\nshape 1 3 1\nsession 1 1\ncommand 1 put 61 31\nend\n";

const TWO_HOMES: &[u8] =
    b"tempo 1\nshape 1 3 1\nsession 1 1\nsession 2 2\ncommand 1 put 61 31\ncommand 2 put 61 32\nend\n";

const SEVERAL: &[u8] =
    b"tempo 1\nshape 2 3 1\nsession 1 1\nsession 2 1\ncommand 1 put 62 31 ; put 61 31\ncommand 2 get 62\ncommand 2 get 62\ncommand 2 get 61\nend\n";

fn session(n: u8) -> ActorName {
    ActorName::Session(SessionId(n))
}

fn process(rank: u8) -> ActorName {
    ActorName::Process(Site {
        partition: PartitionId(1),
        rank: Rank(rank),
    })
}

#[test]
fn want_of_memory_at_any_step_leaves_a_run(rt: HostRuntime) -> Result<(), Fail> {
    let alloc = rt.alloc();
    let Ok(script) = read(alloc, ONE_PUT) else {
        panic!(rt; "no script")
    };
    let nobody = Watch::Refusal {
        actor: session(2),
        after: 0,
    };
    let all = drive_watched(alloc, &script, &nobody)?;
    let entries = all.journal.entries().as_slice();
    assert!(rt; all.whole && entries.len() == 28);
    for place in 0..entries.len() {
        let actor = entries[place].actor;
        let before = entries[..place].iter().filter(|e| e.actor == actor).count();
        assert!(rt;
            wants_memory(&rt, alloc, &script, actor, before as u64)?,
            "entry {place}"
        );
    }
    Ok(())
}

#[test]
fn want_of_memory_between_partitions_leaves_a_run(rt: HostRuntime) -> Result<(), Fail> {
    let Ok(script) = read(rt.alloc(), SEVERAL) else {
        panic!(rt; "no script")
    };
    assert!(rt; wants_memory(&rt, rt.alloc(), &script, process(1), 2)?);
    Ok(())
}

// Neither could begin while the other has the turn.
#[test]
fn two_processes_take_messages_at_once(rt: HostRuntime) -> Result<(), Fail> {
    let Ok(script) = read(rt.alloc(), TWO_HOMES) else {
        panic!(rt; "no script")
    };
    let watch = Watch::Meeting {
        one: Side::new(session(1), process(1)),
        other: Side::new(session(2), process(2)),
    };
    let ended = run_watched(&rt, rt.alloc(), &script, &watch)?;
    assert!(rt; ended.whole && is_run(rt.alloc(), &script, &ended.journal)?);
    Ok(())
}
