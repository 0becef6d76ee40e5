ghost use Rattle.std.specs.Prelude.{◌≡◌, ◌≤◌};
ghost use Rattle.tp_wire.specs.Meaning.{bump_at, commit_at, committed_at, consensus_ack_at, consensus_at, message_at, payload_at, promises_at, propose_ack_at, propose_at, rec_ack_at, rec_at, result_at, stable_at, submit_at};
ghost use Rattle.tp_wire.specs.Reading.{Gives};

use crate::commands::{take_answers, take_command};
use crate::fault::{WireCause, WireError};
use crate::fields::{fault, take_eight, take_u8};
use crate::message::{Body, Message};
use crate::names::{
    MOST, take_ballot, take_executor, take_id, take_made, take_pairs, take_partition, take_process,
    take_session, take_stamp,
};
use std::alloc::Global;
use tp_base::Cut;

#[tactic(auto, unfolding(crate::specs::Meaning::submit_at))]
fn take_submit(alloc: Global, cut: &mut Cut) -> Result<Message, WireError>
    ensures { Gives (λ m. (m, cut.new)) result (submit_at cut.old) }
{
    let from = take_session(cut)?;
    let to = take_process(cut)?;
    let command = take_command(alloc, cut)?;
    Ok(Message {
        from,
        to,
        body: Body::MSubmit { command },
    })
}

#[tactic(auto, unfolding(crate::specs::Meaning::propose_at))]
fn take_propose(alloc: Global, cut: &mut Cut) -> Result<Message, WireError>
    ensures { Gives (λ m. (m, cut.new)) result (propose_at cut.old) }
{
    let from = take_process(cut)?;
    let to = take_process(cut)?;
    let command = take_command(alloc, cut)?;
    let floor = take_stamp(cut)?;
    Ok(Message {
        from,
        to,
        body: Body::MPropose { command, floor },
    })
}

#[tactic(auto, unfolding(crate::specs::Meaning::payload_at))]
fn take_payload(alloc: Global, cut: &mut Cut) -> Result<Message, WireError>
    ensures { Gives (λ m. (m, cut.new)) result (payload_at cut.old) }
{
    let from = take_process(cut)?;
    let to = take_process(cut)?;
    let command = take_command(alloc, cut)?;
    Ok(Message {
        from,
        to,
        body: Body::MPayload { command },
    })
}

#[tactic(auto, unfolding(crate::specs::Meaning::propose_ack_at))]
fn take_propose_ack(cut: &mut Cut) -> Result<Message, WireError>
    ensures { Gives (λ m. (m, cut.new)) result (propose_ack_at cut.old) }
{
    let from = take_process(cut)?;
    let to = take_process(cut)?;
    let id = take_id(cut)?;
    let stamp = take_stamp(cut)?;
    Ok(Message {
        from,
        to,
        body: Body::MProposeAck { id, stamp },
    })
}

#[tactic(auto, unfolding(crate::specs::Meaning::bump_at))]
fn take_bump(cut: &mut Cut) -> Result<Message, WireError>
    ensures { Gives (λ m. (m, cut.new)) result (bump_at cut.old) }
{
    let from = take_process(cut)?;
    let to = take_process(cut)?;
    let id = take_id(cut)?;
    let stamp = take_stamp(cut)?;
    Ok(Message {
        from,
        to,
        body: Body::MBump { id, stamp },
    })
}

#[tactic(auto, unfolding(crate::specs::Meaning::consensus_at))]
fn take_consensus(alloc: Global, cut: &mut Cut) -> Result<Message, WireError>
    ensures { Gives (λ m. (m, cut.new)) result (consensus_at cut.old) }
{
    let from = take_process(cut)?;
    let to = take_process(cut)?;
    let command = take_command(alloc, cut)?;
    let stamp = take_stamp(cut)?;
    let ballot = take_ballot(cut)?;
    Ok(Message {
        from,
        to,
        body: Body::MConsensus {
            command,
            stamp,
            ballot,
        },
    })
}

#[tactic(auto, unfolding(crate::specs::Meaning::consensus_ack_at))]
fn take_consensus_ack(cut: &mut Cut) -> Result<Message, WireError>
    ensures { Gives (λ m. (m, cut.new)) result (consensus_ack_at cut.old) }
{
    let from = take_process(cut)?;
    let to = take_process(cut)?;
    let id = take_id(cut)?;
    let ballot = take_ballot(cut)?;
    Ok(Message {
        from,
        to,
        body: Body::MConsensusAck { id, ballot },
    })
}

#[tactic(auto, unfolding(crate::specs::Meaning::commit_at))]
fn take_commit(alloc: Global, cut: &mut Cut) -> Result<Message, WireError>
    ensures { Gives (λ m. (m, cut.new)) result (commit_at cut.old) }
{
    let from = take_process(cut)?;
    let to = take_process(cut)?;
    let command = take_command(alloc, cut)?;
    let partition = take_partition(cut)?;
    let stamp = take_stamp(cut)?;
    Ok(Message {
        from,
        to,
        body: Body::MCommit {
            command,
            partition,
            stamp,
        },
    })
}

#[tactic(auto, unfolding(crate::specs::Meaning::rec_at))]
fn take_rec(alloc: Global, cut: &mut Cut) -> Result<Message, WireError>
    ensures { Gives (λ m. (m, cut.new)) result (rec_at cut.old) }
{
    let from = take_process(cut)?;
    let to = take_process(cut)?;
    let command = take_command(alloc, cut)?;
    let ballot = take_ballot(cut)?;
    Ok(Message {
        from,
        to,
        body: Body::MRec { command, ballot },
    })
}

#[tactic(auto, unfolding(crate::specs::Meaning::rec_ack_at))]
fn take_rec_ack(cut: &mut Cut) -> Result<Message, WireError>
    ensures { Gives (λ m. (m, cut.new)) result (rec_ack_at cut.old) }
{
    let from = take_process(cut)?;
    let to = take_process(cut)?;
    let id = take_id(cut)?;
    let stamp = take_stamp(cut)?;
    let made = take_made(cut)?;
    let accepted = take_eight(cut, 0, MOST)?;
    let ballot = take_ballot(cut)?;
    Ok(Message {
        from,
        to,
        body: Body::MRecAck {
            id,
            stamp,
            made,
            accepted,
            ballot,
        },
    })
}

#[tactic(auto, unfolding(crate::specs::Meaning::promises_at))]
fn take_promises(alloc: Global, cut: &mut Cut) -> Result<Message, WireError>
    ensures { Gives (λ m. (m, cut.new)) result (promises_at cut.old) }
{
    let from = take_process(cut)?;
    let to = take_executor(cut)?;
    let lo = take_eight(cut, 0, MOST - 1)?;
    let hi = take_eight(cut, lo + 1, MOST)?;
    let pairs = take_pairs(alloc, cut, lo, hi)?;
    Ok(Message {
        from,
        to,
        body: Body::MPromises { lo, hi, pairs },
    })
}

#[tactic(auto, unfolding(crate::specs::Meaning::committed_at))]
fn take_committed(alloc: Global, cut: &mut Cut) -> Result<Message, WireError>
    ensures { Gives (λ m. (m, cut.new)) result (committed_at cut.old) }
{
    let from = take_process(cut)?;
    let to = take_executor(cut)?;
    let command = take_command(alloc, cut)?;
    let stamp = take_stamp(cut)?;
    Ok(Message {
        from,
        to,
        body: Body::MCommitted { command, stamp },
    })
}

#[tactic(auto, unfolding(crate::specs::Meaning::stable_at))]
fn take_stable(cut: &mut Cut) -> Result<Message, WireError>
    ensures { Gives (λ m. (m, cut.new)) result (stable_at cut.old) }
{
    let from = take_executor(cut)?;
    let to = take_executor(cut)?;
    let id = take_id(cut)?;
    Ok(Message {
        from,
        to,
        body: Body::MStable { id },
    })
}

#[tactic(auto, unfolding(crate::specs::Meaning::result_at))]
fn take_result(alloc: Global, cut: &mut Cut) -> Result<Message, WireError>
    ensures { Gives (λ m. (m, cut.new)) result (result_at cut.old) }
{
    let from = take_executor(cut)?;
    let to = take_session(cut)?;
    let id = take_id(cut)?;
    let partition = take_partition(cut)?;
    let answers = take_answers(alloc, cut)?;
    Ok(Message {
        from,
        to,
        body: Body::MResult {
            id,
            partition,
            answers,
        },
    })
}

/// The next message: a kind, and what is said in it.
#[tactic(auto, using(tp_base::proofs::Tables::nth_past), unfolding(crate::specs::Meaning::message_at, crate::specs::Meaning::choice_at))]
pub(crate) fn take_message(alloc: Global, cut: &mut Cut) -> Result<Message, WireError>
    ensures { Gives (λ m. (m, cut.new)) result (message_at cut.old) }
{
    let place = cut.place();
    let kind = take_u8(cut)?;
    match kind {
        1 => take_submit(alloc, cut),
        2 => take_propose(alloc, cut),
        3 => take_payload(alloc, cut),
        4 => take_propose_ack(cut),
        5 => take_bump(cut),
        6 => take_consensus(alloc, cut),
        7 => take_consensus_ack(cut),
        8 => take_commit(alloc, cut),
        9 => take_rec(alloc, cut),
        10 => take_rec_ack(cut),
        11 => take_promises(alloc, cut),
        12 => take_committed(alloc, cut),
        13 => take_stable(cut),
        14 => take_result(alloc, cut),
        0 | 15.. => Err(fault(place, WireCause::Kind)),
    }
}
