//! A stamp is put to the vote.

use crate::cue::Cue;
use crate::stage::of_five;
use std::test::Fail;

/// One of the fast quorum made the greatest proposal. The home votes too.
#[test]
fn decided_by_three_votes(rt: HostRuntime) -> Result<(), Fail> {
    of_five(rt.alloc(), 1)?.tell(
        &rt,
        &[
            (
                Cue::MSubmit,
                "MPropose floor 1 to p1.2 p1.3 p1.4; MPayload to p1.5; clock 1",
            ),
            (Cue::MProposeAck { from: 2, stamp: 1 }, ""),
            (Cue::MProposeAck { from: 3, stamp: 1 }, ""),
            (
                Cue::MProposeAck { from: 4, stamp: 2 },
                "MConsensus stamp 2 ballot 1 to p1.1 p1.2 p1.3 p1.4 p1.5",
            ),
            (
                Cue::MConsensus {
                    from: 1,
                    stamp: 2,
                    ballot: 1,
                },
                "MConsensusAck ballot 1 to p1.1; clock 2",
            ),
            (Cue::MConsensusAck { from: 1, ballot: 1 }, ""),
            (Cue::MConsensusAck { from: 5, ballot: 1 }, ""),
            (Cue::MConsensusAck { from: 5, ballot: 1 }, ""),
            (Cue::MConsensusAck { from: 3, ballot: 2 }, ""),
            (
                Cue::MConsensusAck { from: 3, ballot: 1 },
                "MCommit partition 1 stamp 2 to p1.2 p1.3 p1.4 p1.5; MCommitted stamp 2 to e1.1; \
                 stamp 2",
            ),
            (Cue::MConsensusAck { from: 4, ballot: 1 }, ""),
        ],
    )
}

#[test]
fn voted_unasked_and_never_below_the_ballot(rt: HostRuntime) -> Result<(), Fail> {
    of_five(rt.alloc(), 4)?.tell(
        &rt,
        &[
            (
                Cue::MConsensus {
                    from: 1,
                    stamp: 2,
                    ballot: 1,
                },
                "MConsensusAck ballot 1 to p1.1; clock 2",
            ),
            (Cue::MPropose { from: 1, floor: 1 }, ""),
            (
                Cue::MConsensus {
                    from: 3,
                    stamp: 2,
                    ballot: 8,
                },
                "MConsensusAck ballot 8 to p1.3",
            ),
            (
                Cue::MConsensus {
                    from: 1,
                    stamp: 3,
                    ballot: 1,
                },
                "",
            ),
            (
                Cue::MConsensus {
                    from: 4,
                    stamp: 3,
                    ballot: 9,
                },
                "MConsensusAck ballot 9 to p1.4; clock 3",
            ),
        ],
    )
}
