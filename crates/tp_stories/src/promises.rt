//! A process announces what it promised to the executors of its partition.

use crate::cue::Cue;
use crate::stage::{of_five, of_three};
use std::test::Fail;

#[test]
fn announced_once_from_the_last_one_on(rt: HostRuntime) -> Result<(), Fail> {
    of_five(rt.alloc(), 2)?.tell(
        &rt,
        &[
            (
                Cue::MPropose { from: 1, floor: 5 },
                "MProposeAck stamp 5 to p1.1; clock 5",
            ),
            (
                Cue::Announce,
                "MPromises lo 0 hi 5 1.1@5 to e1.1 e1.2 e1.3 e1.4 e1.5",
            ),
            (Cue::Announce, ""),
            (Cue::MBump { stamp: 7 }, "clock 7"),
            (Cue::MBump { stamp: 6 }, ""),
            (
                Cue::Announce,
                "MPromises lo 5 hi 7 to e1.1 e1.2 e1.3 e1.4 e1.5",
            ),
        ],
    )
}

/// Not after a bump from outside the shape either, and there is nothing to recover.
#[test]
fn nothing_to_announce_at_first(rt: HostRuntime) -> Result<(), Fail> {
    of_three(rt.alloc(), 2)?.tell(
        &rt,
        &[
            (Cue::Announce, ""),
            (Cue::MBump { stamp: 7 }, ""),
            (Cue::Announce, ""),
            (Cue::Recover, ""),
            (Cue::Crash, ""),
        ],
    )
}
