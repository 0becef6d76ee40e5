ghost use Rattle.std.specs.Prelude.{◌≡◌, ◌≤◌, ◌++◌, ◌∷◌, [], length, OnOk};
ghost use Rattle.std.specs.List.{flat_map};
ghost use Rattle.tp_base.specs.Lists.{Each};
ghost use Rattle.tp_ops.specs.Limits.{IsAnswer, IsCommand, IsOp, IsValue};
ghost use Rattle.tp_wire.specs.Ranges.{IsInRange};
ghost use Rattle.tp_wire.specs.Spelling.{actor, answer, answers as answers_bytes, command as command_bytes, eight, fields_of, id as id_bytes, joined, kind_of, made_byte, op as op_bytes, pair as pair_bytes, pairs as pairs_bytes, text};
ghost use Rattle.tp_wire.specs.declared.message.Body.TheVariants.{MConsensus, MCommit, MRecAck, MPromises, MResult};

use crate::message::{Body, Message};
use tp_base::{ActorName, CommandId, Made, NoMemory, Pair, PartitionId, Put, Site, Stamp};
use tp_ops::{Answer, Command, Op};

fn put_site(put: &mut Put, site: Site) -> Result<(), NoMemory>
    ensures { OnOk result (put.new ≡ put.old ++ site.partition.0 ∷ site.rank.0 ∷ []) }
{
    put.byte(site.partition.0)?;
    put.byte(site.rank.0)
}

#[tactic(auto, unfolding(crate::specs::Spelling::actor))]
pub(crate) fn put_actor(put: &mut Put, name: ActorName) -> Result<(), NoMemory>
    ensures { OnOk result (put.new ≡ put.old ++ actor name) }
{
    match name {
        ActorName::Process(site) => put_site(put, site),
        ActorName::Executor(site) => put_site(put, site),
        ActorName::Session(session) => put.byte(session.0),
    }
}

#[tactic(auto, unfolding(crate::specs::Spelling::id))]
fn put_id(put: &mut Put, id: CommandId) -> Result<(), NoMemory>
    ensures { OnOk result (put.new ≡ put.old ++ id_bytes id) }
{
    put.byte(id.session.0)?;
    put.u32_be(id.number)
}

fn put_made(put: &mut Put, made: Made) -> Result<(), NoMemory>
    ensures { OnOk result (put.new ≡ put.old ++ made_byte made) }
{
    match made {
        Made::Proposal => put.byte(0),
        Made::Recovery => put.byte(1),
    }
}

#[tactic(auto, unfolding(crate::specs::Spelling::pair))]
fn put_pair(put: &mut Put, pair: Pair) -> Result<(), NoMemory>
    ensures { OnOk result (put.new ≡ put.old ++ pair_bytes pair) }
{
    put_id(put, pair.id)?;
    put.u64_be(pair.stamp.0)
}

fn put_each_pair(put: &mut Put, pairs: &[Pair]) -> Result<(), NoMemory>
    ensures { OnOk result (put.new ≡ put.old ++ flat_map pair_bytes pairs.now) }
{
    for pair in pairs {
        put_pair(put, *pair)?;
    }
    Ok(())
}

#[tactic(auto, unfolding(crate::specs::Spelling::pairs))]
fn put_pairs(put: &mut Put, pairs: &[Pair]) -> Result<(), NoMemory>
    requires { length pairs.now ≤ 1000 }
    ensures { OnOk result (put.new ≡ put.old ++ pairs_bytes pairs.now) }
{
    put.u32_be(pairs.len() as u32)?;
    put_each_pair(put, pairs)
}

#[tactic(auto, unfolding(crate::specs::Spelling::text))]
fn put_text(put: &mut Put, bytes: &[u8]) -> Result<(), NoMemory>
    requires { length bytes.now ≤ 64 }
    ensures { OnOk result (put.new ≡ put.old ++ text bytes.now) }
{
    put.byte(bytes.len() as u8)?;
    put.bytes(bytes)
}

#[tactic(auto, unfolding(crate::specs::Spelling::op))]
fn put_op(put: &mut Put, op: &Op) -> Result<(), NoMemory>
    requires { IsOp op.now }
    ensures { OnOk result (put.new ≡ put.old ++ op_bytes op.now) }
{
    match op {
        Op::Get { key } => {
            put.byte(1)?;
            put_text(put, key.as_slice())
        }
        Op::Put { key, value } => {
            put.byte(2)?;
            put_text(put, key.as_slice())?;
            put_text(put, value.as_slice())
        }
        Op::Del { key } => {
            put.byte(3)?;
            put_text(put, key.as_slice())
        }
        Op::Cas { key, old, new } => {
            put.byte(4)?;
            put_text(put, key.as_slice())?;
            put_text(put, old.as_slice())?;
            put_text(put, new.as_slice())
        }
    }
}

fn put_ops(put: &mut Put, ops: &[Op]) -> Result<(), NoMemory>
    requires { Each IsOp ops.now }
    ensures { OnOk result (put.new ≡ put.old ++ flat_map op_bytes ops.now) }
{
    for op in ops {
        put_op(put, op)?;
    }
    Ok(())
}

#[tactic(auto, unfolding(crate::specs::Spelling::command))]
fn put_command(put: &mut Put, command: &Command) -> Result<(), NoMemory>
    requires { IsCommand command.now }
    ensures { OnOk result (put.new ≡ put.old ++ command_bytes command.now) }
{
    put_id(put, command.id)?;
    put.byte(command.home.0)?;
    put.byte(command.ops.len() as u8)?;
    put_ops(put, command.ops.as_slice())
}

#[tactic(auto, unfolding(crate::specs::Spelling::answer))]
fn put_answer(put: &mut Put, given: &Answer) -> Result<(), NoMemory>
    requires { IsAnswer given.now }
    ensures { OnOk result (put.new ≡ put.old ++ answer given.now) }
{
    match given {
        Answer::Missing => put.byte(1),
        Answer::Value(value) => {
            put.byte(2)?;
            put_text(put, value.as_slice())
        }
        Answer::Yes => put.byte(3),
        Answer::No => put.byte(4),
    }
}

fn put_each_answer(put: &mut Put, answers: &[Answer]) -> Result<(), NoMemory>
    requires { Each IsAnswer answers.now }
    ensures { OnOk result (put.new ≡ put.old ++ flat_map answer answers.now) }
{
    for given in answers {
        put_answer(put, given)?;
    }
    Ok(())
}

#[tactic(auto, unfolding(crate::specs::Spelling::answers))]
fn put_answers(put: &mut Put, answers: &[Answer]) -> Result<(), NoMemory>
    requires few { length answers.now ≤ 16 }
    requires fit { Each IsAnswer answers.now }
    ensures { OnOk result (put.new ≡ put.old ++ answers_bytes answers.now) }
{
    put.byte(answers.len() as u8)?;
    put_each_answer(put, answers)
}

pub(crate) fn kind(body: &Body) -> u8
    ensures { result ≡ kind_of body.now }
{
    match body {
        Body::MSubmit { .. } => 1,
        Body::MPropose { .. } => 2,
        Body::MPayload { .. } => 3,
        Body::MProposeAck { .. } => 4,
        Body::MBump { .. } => 5,
        Body::MConsensus { .. } => 6,
        Body::MConsensusAck { .. } => 7,
        Body::MCommit { .. } => 8,
        Body::MRec { .. } => 9,
        Body::MRecAck { .. } => 10,
        Body::MPromises { .. } => 11,
        Body::MCommitted { .. } => 12,
        Body::MStable { .. } => 13,
        Body::MResult { .. } => 14,
    }
}

// A command and a stamp or a ballot.
fn put_command_at(put: &mut Put, command: &Command, n: u64) -> Result<(), NoMemory>
    requires { IsCommand command.now }
    ensures { OnOk result (put.new ≡ put.old ++ joined (command_bytes command.now ∷ eight n ∷ [])) }
{
    put_command(put, command)?;
    put.u64_be(n)
}

// An identifier and a stamp or a ballot.
fn put_id_at(put: &mut Put, id: CommandId, n: u64) -> Result<(), NoMemory>
    ensures { OnOk result (put.new ≡ put.old ++ joined (id_bytes id ∷ eight n ∷ [])) }
{
    put_id(put, id)?;
    put.u64_be(n)
}

fn put_consensus(
    put: &mut Put,
    command: &Command,
    stamp: Stamp,
    ballot: u64,
) -> Result<(), NoMemory>
    requires { IsCommand command.now }
    ensures { OnOk result (put.new ≡ put.old ++ joined (fields_of (MConsensus command.now stamp ballot))) }
{
    put_command_at(put, command, stamp.0)?;
    put.u64_be(ballot)
}

fn put_commit(
    put: &mut Put,
    command: &Command,
    partition: PartitionId,
    stamp: Stamp,
) -> Result<(), NoMemory>
    requires { IsCommand command.now }
    ensures { OnOk result (put.new ≡ put.old ++ joined (fields_of (MCommit command.now partition stamp))) }
{
    put_command(put, command)?;
    put.byte(partition.0)?;
    put.u64_be(stamp.0)
}

fn put_rec_ack(
    put: &mut Put,
    id: CommandId,
    stamp: Stamp,
    made: Made,
    accepted: u64,
    ballot: u64,
) -> Result<(), NoMemory>
    ensures { OnOk result (put.new ≡ put.old ++ joined (fields_of (MRecAck id stamp made accepted ballot))) }
{
    put_id_at(put, id, stamp.0)?;
    put_made(put, made)?;
    put.u64_be(accepted)?;
    put.u64_be(ballot)
}

fn put_promises(put: &mut Put, lo: u64, hi: u64, pairs: &[Pair]) -> Result<(), NoMemory>
    requires { length pairs.now ≤ 1000 }
    ensures { OnOk result (put.new ≡ put.old ++ joined (fields_of (MPromises lo hi pairs.now))) }
{
    put.u64_be(lo)?;
    put.u64_be(hi)?;
    put_pairs(put, pairs)
}

fn put_result(
    put: &mut Put,
    id: CommandId,
    partition: PartitionId,
    answers: &[Answer],
) -> Result<(), NoMemory>
    requires few { length answers.now ≤ 16 }
    requires fit { Each IsAnswer answers.now }
    ensures { OnOk result (put.new ≡ put.old ++ joined (fields_of (MResult id partition answers.now))) }
{
    put_id(put, id)?;
    put.byte(partition.0)?;
    put_answers(put, answers)
}

/// The fields of a message behind its addressee.
pub(crate) fn put_fields(put: &mut Put, message: &Message) -> Result<(), NoMemory>
    requires { IsInRange message.now }
    ensures { OnOk result (put.new ≡ put.old ++ joined (fields_of message.now.body)) }
{
    match &message.body {
        Body::MSubmit { command } => put_command(put, command),
        Body::MPropose { command, floor } => put_command_at(put, command, floor.0),
        Body::MPayload { command } => put_command(put, command),
        Body::MProposeAck { id, stamp } => put_id_at(put, *id, stamp.0),
        Body::MBump { id, stamp } => put_id_at(put, *id, stamp.0),
        Body::MConsensus {
            command,
            stamp,
            ballot,
        } => put_consensus(put, command, *stamp, *ballot),
        Body::MConsensusAck { id, ballot } => put_id_at(put, *id, *ballot),
        Body::MCommit {
            command,
            partition,
            stamp,
        } => put_commit(put, command, *partition, *stamp),
        Body::MRec { command, ballot } => put_command_at(put, command, *ballot),
        Body::MRecAck {
            id,
            stamp,
            made,
            accepted,
            ballot,
        } => put_rec_ack(put, *id, *stamp, *made, *accepted, *ballot),
        Body::MPromises { lo, hi, pairs } => put_promises(put, *lo, *hi, pairs.as_slice()),
        Body::MCommitted { command, stamp } => put_command_at(put, command, stamp.0),
        Body::MStable { id } => put_id(put, *id),
        Body::MResult {
            id,
            partition,
            answers,
        } => put_result(put, *id, *partition, answers.as_slice()),
    }
}
