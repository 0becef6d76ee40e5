//! A command is decided by the proposals of its fast quorum.

use crate::cue::Cue;
use crate::stage::of_five;
use std::test::Fail;

#[test]
fn two_made_the_greatest_of_four(rt: HostRuntime) -> Result<(), Fail> {
    of_five(rt.alloc(), 1)?.tell(
        &rt,
        &[
            (
                Cue::MSubmit,
                "MPropose floor 1 to p1.2 p1.3 p1.4; MPayload to p1.5; clock 1",
            ),
            (Cue::MProposeAck { from: 2, stamp: 1 }, ""),
            (Cue::MProposeAck { from: 3, stamp: 2 }, ""),
            (
                Cue::MProposeAck { from: 4, stamp: 2 },
                "MCommit partition 1 stamp 2 to p1.2 p1.3 p1.4 p1.5; MCommitted stamp 2 to e1.1; \
                 clock 2; stamp 2",
            ),
        ],
    )
}

#[test]
fn submitted_twice_and_acknowledged_twice(rt: HostRuntime) -> Result<(), Fail> {
    of_five(rt.alloc(), 1)?.tell(
        &rt,
        &[
            (
                Cue::MSubmit,
                "MPropose floor 1 to p1.2 p1.3 p1.4; MPayload to p1.5; clock 1",
            ),
            (Cue::MSubmit, ""),
            (Cue::MProposeAck { from: 2, stamp: 1 }, ""),
            (Cue::MProposeAck { from: 2, stamp: 1 }, ""),
            (Cue::MProposeAck { from: 5, stamp: 1 }, ""),
            (Cue::MProposeAck { from: 3, stamp: 1 }, ""),
        ],
    )
}

#[test]
fn proposed_once_above_a_bump(rt: HostRuntime) -> Result<(), Fail> {
    of_five(rt.alloc(), 4)?.tell(
        &rt,
        &[
            (Cue::MBump { stamp: 1 }, "clock 1"),
            (
                Cue::MPropose { from: 1, floor: 1 },
                "MProposeAck stamp 2 to p1.1; clock 2",
            ),
            (Cue::MPropose { from: 1, floor: 5 }, ""),
        ],
    )
}
