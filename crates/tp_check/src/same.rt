ghost use Rattle.std.specs.Prelude.{◌≡◌, ◌↔◌, IfSome, IsTrue, None};
ghost use Rattle.tp_check.specs.Causes.{DifferFirst};

use tp_base::{Bytes, Pair};
use tp_ops::{Answer, Command, Op};
use tp_wire::{Body, Message};

/// The place, from 1, at which the messages given first differ from the right ones, if they do.
pub(crate) fn difference(given: &[Message], right: &[Message]) -> Option<u64>
    ensures equal { result ≡ None → given.now ≡ right.now }
    ensures place { IfSome result (DifferFirst given.now right.now) }
{
    let both = given.len().min(right.len());
    for i in 0..both {
        if !given[i].same(&right[i]) {
            return Some(i as u64 + 1);
        }
    }
    if given.len() == right.len() {
        None
    } else {
        Some(both as u64 + 1)
    }
}

/// What can be compared by value.
trait Same {
    fn same(&self, other: &Self) -> bool
        ensures { IsTrue result ↔ (self.now ≡ other.now) };
}

/// Whether two lists have the same items.
fn same_items<T: Same>(a: &[T], b: &[T]) -> bool
    ensures { IsTrue result ↔ (a.now ≡ b.now) }
{
    if a.len() != b.len() {
        return false;
    }
    for i in 0..a.len() {
        if !a[i].same(&b[i]) {
            return false;
        }
    }
    true
}

fn same_bytes(a: &Bytes, b: &Bytes) -> bool
    ensures { IsTrue result ↔ (a.now ≡ b.now) }
{
    a.as_slice() == b.as_slice()
}

impl Same for Pair {
    fn same(&self, other: &Self) -> bool {
        *self == *other
    }
}

impl Same for Op {
    fn same(&self, other: &Self) -> bool {
        match self {
            Op::Get { key } => matches!(other, Op::Get { key: k } if same_bytes(key, k)),
            Op::Put { key, value } => {
                matches!(other, Op::Put { key: k, value: v } if same_bytes(key, k) && same_bytes(value, v))
            }
            Op::Del { key } => matches!(other, Op::Del { key: k } if same_bytes(key, k)),
            Op::Cas { key, old, new } => {
                matches!(other, Op::Cas { key: k, old: o, new: n }
                    if same_bytes(key, k) && same_bytes(old, o) && same_bytes(new, n))
            }
        }
    }
}

impl Same for Answer {
    fn same(&self, other: &Self) -> bool {
        match self {
            Answer::Missing => matches!(other, Answer::Missing),
            Answer::Value(value) => matches!(other, Answer::Value(v) if same_bytes(value, v)),
            Answer::Yes => matches!(other, Answer::Yes),
            Answer::No => matches!(other, Answer::No),
        }
    }
}

impl Same for Command {
    fn same(&self, other: &Self) -> bool {
        self.id == other.id
            && self.home == other.home
            && same_items(self.ops.as_slice(), other.ops.as_slice())
    }
}

impl Same for Message {
    fn same(&self, other: &Self) -> bool {
        self.from == other.from && self.to == other.to && self.body.same(&other.body)
    }
}

impl Same for Body {
    fn same(&self, other: &Self) -> bool {
        match self {
            Body::MSubmit { command } => {
                matches!(other, Body::MSubmit { command: c } if command.same(c))
            }
            Body::MPropose { command, floor } => {
                matches!(other, Body::MPropose { command: c, floor: t } if command.same(c) && floor == t)
            }
            Body::MPayload { command } => {
                matches!(other, Body::MPayload { command: c } if command.same(c))
            }
            Body::MProposeAck { id, stamp } => {
                matches!(other, Body::MProposeAck { id: i, stamp: t } if id == i && stamp == t)
            }
            Body::MBump { id, stamp } => {
                matches!(other, Body::MBump { id: i, stamp: t } if id == i && stamp == t)
            }
            Body::MConsensus {
                command,
                stamp,
                ballot,
            } => {
                matches!(other, Body::MConsensus { command: c, stamp: t, ballot: b }
                    if command.same(c) && stamp == t && ballot == b)
            }
            Body::MConsensusAck { id, ballot } => {
                matches!(other, Body::MConsensusAck { id: i, ballot: b } if id == i && ballot == b)
            }
            Body::MCommit {
                command,
                partition,
                stamp,
            } => {
                matches!(other, Body::MCommit { command: c, partition: p, stamp: t }
                    if command.same(c) && partition == p && stamp == t)
            }
            Body::MRec { command, ballot } => {
                matches!(other, Body::MRec { command: c, ballot: b } if command.same(c) && ballot == b)
            }
            Body::MRecAck {
                id,
                stamp,
                made,
                accepted,
                ballot,
            } => {
                matches!(other, Body::MRecAck { id: i, stamp: t, made: m, accepted: a, ballot: b }
                    if id == i && stamp == t && made == m && accepted == a && ballot == b)
            }
            Body::MPromises { lo, hi, pairs } => {
                matches!(other, Body::MPromises { lo: l, hi: h, pairs: p }
                    if lo == l && hi == h && same_items(pairs.as_slice(), p.as_slice()))
            }
            Body::MCommitted { command, stamp } => {
                matches!(other, Body::MCommitted { command: c, stamp: t } if command.same(c) && stamp == t)
            }
            Body::MStable { id } => matches!(other, Body::MStable { id: i } if id == i),
            Body::MResult {
                id,
                partition,
                answers,
            } => {
                matches!(other, Body::MResult { id: i, partition: p, answers: a }
                    if id == i && partition == p && same_items(answers.as_slice(), a.as_slice()))
            }
        }
    }
}
