ghost use Rattle.std.specs.Prelude.{◌≡◌, ◌≤◌};
ghost use Rattle.tp_wire.specs.Meaning.{answer_at, answers_at, cas_at, command_at, del_at, get_at, op_at, ops_at, put_at, times_at, value_answer_at};
ghost use Rattle.tp_wire.specs.Reading.{Gives};

use crate::fault::{WireCause, WireError};
use crate::fields::{fault, take_byte, take_key, take_u8, take_value};
use crate::names::take_id;
use std::alloc::Global;
use tp_base::{Cut, Rank, Sequence};
use tp_ops::{Answer, Answers, Command, Op, Ops};

#[tactic(auto, unfolding(crate::specs::Meaning::get_at))]
fn take_get(alloc: Global, cut: &mut Cut) -> Result<Op, WireError>
    ensures { Gives (λ op. (op, cut.new)) result (get_at cut.old) }
{
    let key = take_key(alloc, cut)?;
    Ok(Op::Get { key })
}

#[tactic(auto, unfolding(crate::specs::Meaning::put_at))]
fn take_put(alloc: Global, cut: &mut Cut) -> Result<Op, WireError>
    ensures { Gives (λ op. (op, cut.new)) result (put_at cut.old) }
{
    let key = take_key(alloc, cut)?;
    let value = take_value(alloc, cut)?;
    Ok(Op::Put { key, value })
}

#[tactic(auto, unfolding(crate::specs::Meaning::del_at))]
fn take_del(alloc: Global, cut: &mut Cut) -> Result<Op, WireError>
    ensures { Gives (λ op. (op, cut.new)) result (del_at cut.old) }
{
    let key = take_key(alloc, cut)?;
    Ok(Op::Del { key })
}

#[tactic(auto, unfolding(crate::specs::Meaning::cas_at))]
fn take_cas(alloc: Global, cut: &mut Cut) -> Result<Op, WireError>
    ensures { Gives (λ op. (op, cut.new)) result (cas_at cut.old) }
{
    let key = take_key(alloc, cut)?;
    let old = take_value(alloc, cut)?;
    let new = take_value(alloc, cut)?;
    Ok(Op::Cas { key, old, new })
}

#[tactic(auto, using(tp_base::proofs::Tables::nth_past), unfolding(crate::specs::Meaning::op_at, crate::specs::Meaning::choice_at))]
fn take_op(alloc: Global, cut: &mut Cut) -> Result<Op, WireError>
    ensures { Gives (λ op. (op, cut.new)) result (op_at cut.old) }
{
    let place = cut.place();
    let kind = take_u8(cut)?;
    match kind {
        1 => take_get(alloc, cut),
        2 => take_put(alloc, cut),
        3 => take_del(alloc, cut),
        4 => take_cas(alloc, cut),
        0 | 5.. => Err(fault(place, WireCause::Range)),
    }
}

fn take_so_many_ops(alloc: Global, cut: &mut Cut, count: u8) -> Result<Ops, WireError>
    ensures { Gives (λ ops. (ops, cut.new)) result (times_at op_at count cut.old) }
{
    let mut ops = Sequence::new(alloc);
    for _ in 0..count {
        let op = take_op(alloc, cut)?;
        ops.add(op)?;
    }
    Ok(Ops::new(alloc, ops)?)
}

#[tactic(auto, unfolding(crate::specs::Meaning::ops_at))]
fn take_ops(alloc: Global, cut: &mut Cut) -> Result<Ops, WireError>
    ensures { Gives (λ ops. (ops, cut.new)) result (ops_at cut.old) }
{
    let ops = take_byte(cut, 1, 16)?;
    take_so_many_ops(alloc, cut, ops)
}

#[tactic(auto, unfolding(crate::specs::Meaning::command_at))]
pub(crate) fn take_command(alloc: Global, cut: &mut Cut) -> Result<Command, WireError>
    ensures { Gives (λ command. (command, cut.new)) result (command_at cut.old) }
{
    let id = take_id(cut)?;
    let home = take_byte(cut, 1, 7)?;
    let ops = take_ops(alloc, cut)?;
    Ok(Command {
        id,
        home: Rank(home),
        ops,
    })
}

#[tactic(auto, unfolding(crate::specs::Meaning::value_answer_at))]
fn take_value_answer(alloc: Global, cut: &mut Cut) -> Result<Answer, WireError>
    ensures { Gives (λ answer. (answer, cut.new)) result (value_answer_at cut.old) }
{
    let value = take_value(alloc, cut)?;
    Ok(Answer::Value(value))
}

#[tactic(auto, using(tp_base::proofs::Tables::nth_past), unfolding(crate::specs::Meaning::answer_at, crate::specs::Meaning::choice_at))]
fn take_answer(alloc: Global, cut: &mut Cut) -> Result<Answer, WireError>
    ensures { Gives (λ answer. (answer, cut.new)) result (answer_at cut.old) }
{
    let place = cut.place();
    let kind = take_u8(cut)?;
    match kind {
        1 => Ok(Answer::Missing),
        2 => take_value_answer(alloc, cut),
        3 => Ok(Answer::Yes),
        4 => Ok(Answer::No),
        0 | 5.. => Err(fault(place, WireCause::Range)),
    }
}

fn take_so_many_answers(alloc: Global, cut: &mut Cut, count: u8) -> Result<Answers, WireError>
    ensures { Gives (λ answers. (answers, cut.new)) result (times_at answer_at count cut.old) }
{
    let mut answers = Sequence::new(alloc);
    for _ in 0..count {
        let answer = take_answer(alloc, cut)?;
        answers.add(answer)?;
    }
    Ok(Answers::new(alloc, answers)?)
}

#[tactic(auto, unfolding(crate::specs::Meaning::answers_at))]
pub(crate) fn take_answers(alloc: Global, cut: &mut Cut) -> Result<Answers, WireError>
    ensures { Gives (λ answers. (answers, cut.new)) result (answers_at cut.old) }
{
    let answers = take_byte(cut, 1, 16)?;
    take_so_many_answers(alloc, cut, answers)
}
