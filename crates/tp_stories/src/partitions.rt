//! A command on two partitions: each decides its own stamp, and the final one is the greatest.

use crate::cue::Cue;
use crate::stage::of_two_partitions;
use std::test::Fail;

/// The home decides the stamp of the first partition at once, and tells it to a rank that recovers.
/// No final stamp is seen until the second partition's comes.
#[test]
fn the_greatest_stamp_is_the_final_one(rt: HostRuntime) -> Result<(), Fail> {
    of_two_partitions(rt.alloc(), 1)?.tell(
        &rt,
        &[
            (
                Cue::MSubmit,
                "MPropose floor 1 to p1.2; MPayload to p1.3; MBump stamp 1 to p2.1; clock 1",
            ),
            (
                Cue::MProposeAck { from: 2, stamp: 1 },
                "MCommit partition 1 stamp 1 to p1.2 p1.3 p2.1 p2.2 p2.3",
            ),
            (
                Cue::MRec { from: 3, ballot: 6 },
                "MCommit partition 1 stamp 1 to p1.3",
            ),
            (
                Cue::MCommit {
                    partition: 2,
                    stamp: 3,
                },
                "MCommitted stamp 3 to e1.1; clock 3; stamp 3",
            ),
            (
                Cue::MCommit {
                    partition: 2,
                    stamp: 3,
                },
                "",
            ),
        ],
    )
}

#[test]
fn a_late_proposal_is_told_to_the_other_partition(rt: HostRuntime) -> Result<(), Fail> {
    of_two_partitions(rt.alloc(), 3)?.tell(
        &rt,
        &[
            (Cue::MPayload { from: 1 }, ""),
            (
                Cue::MRec { from: 2, ballot: 5 },
                "MRecAck stamp 1 by recovery accepted 0 ballot 5 to p1.2; MBump stamp 1 to p2.3; \
                 clock 1",
            ),
        ],
    )
}
