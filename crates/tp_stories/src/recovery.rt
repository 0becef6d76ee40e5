//! A command is recovered: what the one that recovers asks and chooses, and what it is told.

use crate::cue::Cue;
use crate::stage::{Stage, of_five, of_three};
use std::alloc::Global;
use std::process::Abort;
use std::test::Fail;
use tp_base::Made;

/// Rank 2 of three, of the fast quorum, has proposed 2 and recovers.
fn recovering(rt: &impl Abort, alloc: Global) -> Result<Stage, Fail> {
    let mut second = of_three(alloc, 2)?;
    second.tell(
        rt,
        &[
            (
                Cue::MPropose { from: 1, floor: 2 },
                "MProposeAck stamp 2 to p1.1; clock 2",
            ),
            (Cue::Recover, "MRec ballot 5 to p1.1 p1.2 p1.3"),
        ],
    )?;
    Ok(second)
}

/// A rank's answer at a ballot, with nothing accepted.
fn answer(from: u8, stamp: u64, made: Made, ballot: u64) -> Cue {
    Cue::MRecAck {
        from,
        stamp,
        made,
        accepted: 0,
        ballot,
    }
}

/// It puts 2 to the vote: of the two answers that of the fast quorum counts.
#[test]
fn decided_by_two_votes(rt: HostRuntime) -> Result<(), Fail> {
    recovering(&rt, rt.alloc())?.tell(
        &rt,
        &[
            (answer(2, 2, Made::Proposal, 5), ""),
            (
                answer(3, 7, Made::Recovery, 5),
                "MConsensus stamp 2 ballot 5 to p1.1 p1.2 p1.3",
            ),
            (answer(1, 9, Made::Proposal, 5), ""),
            (Cue::MConsensusAck { from: 1, ballot: 5 }, ""),
            (Cue::MConsensusAck { from: 3, ballot: 1 }, ""),
            (
                Cue::MConsensusAck { from: 3, ballot: 5 },
                "MCommit partition 1 stamp 2 to p1.1 p1.3; MCommitted stamp 2 to e1.2; stamp 2",
            ),
        ],
    )
}

#[test]
fn a_new_recovery_drops_the_old_answers(rt: HostRuntime) -> Result<(), Fail> {
    recovering(&rt, rt.alloc())?.tell(
        &rt,
        &[
            (answer(3, 1, Made::Proposal, 5), ""),
            (Cue::Recover, "MRec ballot 8 to p1.1 p1.2 p1.3"),
            (answer(2, 2, Made::Proposal, 5), ""),
            (answer(2, 2, Made::Proposal, 8), ""),
            (
                answer(1, 1, Made::Proposal, 8),
                "MConsensus stamp 2 ballot 8 to p1.1 p1.2 p1.3",
            ),
        ],
    )
}

#[test]
fn of_two_recoveries_the_higher_ballot_is_voted_for(rt: HostRuntime) -> Result<(), Fail> {
    recovering(&rt, rt.alloc())?.tell(
        &rt,
        &[
            (
                Cue::MRec { from: 2, ballot: 5 },
                "MRecAck stamp 2 by proposal accepted 0 ballot 5 to p1.2",
            ),
            (
                Cue::MRec { from: 3, ballot: 6 },
                "MRecAck stamp 2 by proposal accepted 0 ballot 6 to p1.3",
            ),
            (
                Cue::MConsensus {
                    from: 2,
                    stamp: 2,
                    ballot: 5,
                },
                "",
            ),
            (
                Cue::MConsensus {
                    from: 3,
                    stamp: 2,
                    ballot: 6,
                },
                "MConsensusAck ballot 6 to p1.3",
            ),
        ],
    )
}

#[test]
fn proposed_for_a_recovery_alone(rt: HostRuntime) -> Result<(), Fail> {
    of_three(rt.alloc(), 3)?.tell(
        &rt,
        &[
            (Cue::MPayload { from: 1 }, ""),
            (
                Cue::MRec { from: 2, ballot: 5 },
                "MRecAck stamp 1 by recovery accepted 0 ballot 5 to p1.2; clock 1",
            ),
            (Cue::MRec { from: 2, ballot: 5 }, ""),
            (Cue::MRec { from: 1, ballot: 4 }, ""),
            (Cue::MPropose { from: 1, floor: 1 }, ""),
            (
                Cue::MRec { from: 3, ballot: 6 },
                "MRecAck stamp 1 by recovery accepted 0 ballot 6 to p1.3",
            ),
        ],
    )
}

#[test]
fn what_was_accepted_is_told(rt: HostRuntime) -> Result<(), Fail> {
    of_three(rt.alloc(), 3)?.tell(
        &rt,
        &[
            (
                Cue::MConsensus {
                    from: 2,
                    stamp: 4,
                    ballot: 5,
                },
                "MConsensusAck ballot 5 to p1.2; clock 4",
            ),
            (
                Cue::MRec { from: 3, ballot: 6 },
                "MRecAck stamp 4 by proposal accepted 5 ballot 6 to p1.3",
            ),
        ],
    )
}

#[test]
fn who_knows_the_stamp_tells_it_and_no_more(rt: HostRuntime) -> Result<(), Fail> {
    of_three(rt.alloc(), 2)?.tell(
        &rt,
        &[
            (
                Cue::MCommit {
                    partition: 1,
                    stamp: 4,
                },
                "MCommitted stamp 4 to e1.2; clock 4; stamp 4",
            ),
            (
                Cue::MRec { from: 3, ballot: 6 },
                "MCommit partition 1 stamp 4 to p1.3",
            ),
            (
                Cue::MConsensus {
                    from: 3,
                    stamp: 5,
                    ballot: 6,
                },
                "",
            ),
            (Cue::Recover, ""),
        ],
    )
}

#[test]
fn a_recovery_ends_the_fast_path(rt: HostRuntime) -> Result<(), Fail> {
    of_three(rt.alloc(), 1)?.tell(
        &rt,
        &[
            (
                Cue::MSubmit,
                "MPropose floor 1 to p1.2; MPayload to p1.3; clock 1",
            ),
            (
                Cue::MRec { from: 3, ballot: 6 },
                "MRecAck stamp 1 by proposal accepted 0 ballot 6 to p1.3",
            ),
            (Cue::MProposeAck { from: 2, stamp: 1 }, ""),
        ],
    )
}

/// Rank 3 of five recovers. Of three answers that at the greatest accepted ballot counts.
#[test]
fn what_was_accepted_last_is_put_to_the_vote(rt: HostRuntime) -> Result<(), Fail> {
    of_five(rt.alloc(), 3)?.tell(
        &rt,
        &[
            (
                Cue::MPropose { from: 1, floor: 2 },
                "MProposeAck stamp 2 to p1.1; clock 2",
            ),
            (Cue::Recover, "MRec ballot 8 to p1.1 p1.2 p1.3 p1.4 p1.5"),
            (accepted(2, 3, 7), ""),
            (accepted(3, 8, 6), ""),
            (
                answer(5, 7, Made::Recovery, 8),
                "MConsensus stamp 3 ballot 8 to p1.1 p1.2 p1.3 p1.4 p1.5",
            ),
        ],
    )
}

/// A rank's answer at ballot 8, with its stamp accepted at a ballot.
fn accepted(from: u8, stamp: u64, accepted: u64) -> Cue {
    Cue::MRecAck {
        from,
        stamp,
        made: Made::Proposal,
        accepted,
        ballot: 8,
    }
}
