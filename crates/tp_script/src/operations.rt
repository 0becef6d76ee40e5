ghost use Rattle.std.specs.Prelude.{◌≡◌, ◌≤◌, ◌<◌, ◌++◌, ◌∷◌, [], take, Some, None, if◌then◌else◌, length, OnOk};
ghost use Rattle.tp_script.specs.Grammar.{after_op, cas_at, del_at, get_at, op_and_after, op_at, ops_and_count, put_at};
ghost use Rattle.tp_text.specs.Reading.{Gives};

use crate::fault::{Refusal, ScriptCause};
use crate::words::{take_key, take_value};
use std::alloc::Global;
use tp_base::{NoMemory, Sequence};
use tp_ops::{Op, Ops};
use tp_text::Words;

#[tactic(auto, unfolding(crate::specs::Grammar::get_at))]
fn read_get(alloc: Global, words: &mut Words) -> Result<Op, Refusal>
    ensures read { Gives (λ op. (op, words.new)) result (get_at words.old) }
    ensures shorter { OnOk result (length words.new < length words.old) }
{
    let key = take_key(alloc, words)?;
    Ok(Op::Get { key })
}

#[tactic(auto, unfolding(crate::specs::Grammar::put_at))]
fn read_put(alloc: Global, words: &mut Words) -> Result<Op, Refusal>
    ensures read { Gives (λ op. (op, words.new)) result (put_at words.old) }
    ensures shorter { OnOk result (length words.new < length words.old) }
{
    let key = take_key(alloc, words)?;
    let value = take_value(alloc, words)?;
    Ok(Op::Put { key, value })
}

#[tactic(auto, unfolding(crate::specs::Grammar::del_at))]
fn read_del(alloc: Global, words: &mut Words) -> Result<Op, Refusal>
    ensures read { Gives (λ op. (op, words.new)) result (del_at words.old) }
    ensures shorter { OnOk result (length words.new < length words.old) }
{
    let key = take_key(alloc, words)?;
    Ok(Op::Del { key })
}

#[tactic(auto, unfolding(crate::specs::Grammar::cas_at))]
fn read_cas(alloc: Global, words: &mut Words) -> Result<Op, Refusal>
    ensures read { Gives (λ op. (op, words.new)) result (cas_at words.old) }
    ensures shorter { OnOk result (length words.new < length words.old) }
{
    let key = take_key(alloc, words)?;
    let old = take_value(alloc, words)?;
    let new = take_value(alloc, words)?;
    Ok(Op::Cas { key, old, new })
}

#[tactic(auto, unfolding(crate::specs::Grammar::op_at))]
fn read_op(alloc: Global, words: &mut Words) -> Result<Op, Refusal>
    ensures read { Gives (λ op. (op, words.new)) result (op_at words.old) }
    ensures shorter { OnOk result (length words.new < length words.old) }
{
    match words.next_word() {
        Some(word) => {
            if word == b"get".as_slice() {
                read_get(alloc, words)
            } else if word == b"put".as_slice() {
                read_put(alloc, words)
            } else if word == b"del".as_slice() {
                read_del(alloc, words)
            } else if word == b"cas".as_slice() {
                read_cas(alloc, words)
            } else {
                Err(Refusal::Cause(ScriptCause::Word))
            }
        }
        None => Err(Refusal::Cause(ScriptCause::Word)),
    }
}

// Whether more operations follow.
#[tactic(auto, unfolding(crate::specs::Grammar::after_op))]
fn take_separator(words: &mut Words) -> Result<bool, Refusal>
    ensures read { Gives (λ more. if more then Some words.new else None) result (after_op words.old) }
    ensures shorter { length words.new ≤ length words.old }
{
    match words.next_word() {
        Some(word) => {
            if word == b";".as_slice() {
                Ok(true)
            } else {
                Err(Refusal::Cause(ScriptCause::Word))
            }
        }
        None => Ok(false),
    }
}

#[tactic(auto, unfolding(crate::specs::Grammar::op_and_after))]
fn read_op_and_after(alloc: Global, words: &mut Words) -> Result<(Op, bool), Refusal>
    ensures read { Gives (λ op. (op.0, if op.1 then Some words.new else None)) result (op_and_after words.old) }
    ensures shorter { OnOk result (length words.new < length words.old) }
{
    let op = read_op(alloc, words)?;
    let more = take_separator(words)?;
    Ok((op, more))
}

// Keeps an operation, where fewer than sixteen are kept.
fn keep(ops: &mut Sequence<Op>, op: Op) -> Result<(), NoMemory>
    requires { length ops.old ≤ 16 }
    ensures kept { OnOk result (ops.new ≡ take 16 (ops.old ++ op ∷ [])) }
    ensures few { OnOk result (length ops.new ≤ 16) }
{
    if ops.len() < 16 {
        ops.add(op)?;
    }
    Ok(())
}

/// Operations up to the end of the line: the first sixteen, and how many there are.
pub(crate) fn read_ops(alloc: Global, words: &mut Words) -> Result<(Ops, usize), Refusal>
    ensures { Gives (λ ops. ops) result (ops_and_count words.old) }
{
    // No more operations are read than there are words, so the count fits.
    let _most = words.most();
    let mut ops = Sequence::new(alloc);
    let mut count = 0usize;
    let mut more = true;
    while more {
        let (op, another) = read_op_and_after(alloc, words)?;
        keep(&mut ops, op)?;
        count += 1;
        more = another;
    }
    Ok((Ops::new(alloc, ops)?, count))
}
