ghost use Rattle.std.specs.Prelude.{◌≡◌, ◌≤◌, ◌<◌, ◌+◌, ◌-◌, ◌++◌, ◌&&◌, ℕ, true, false, cond, filter, not, nat_le, nat_lt, IfOk};
ghost use Rattle.tp_base.specs.Names.{same_id};
ghost use Rattle.tp_promise.specs.Pages.{in_ranges, is_attached, waits, Advances, IsStopped};

use crate::ranges::{Range, end_after, is_in};
use indexmap::IndexSet;
use std::alloc::Global;
use tp_base::{CommandId, NoMemory, Pair};

/// The attached promises that wait, with those of a telling.
pub(crate) fn with_waiting(
    alloc: Global,
    waiting: &[Pair],
    told: &[Pair],
    front: u64,
    ranges: &[Range],
    committed: &IndexSet<CommandId>,
) -> Result<Vec<Pair>, NoMemory>
    ensures { IfOk result (λ all. all.items ≡ waiting.now
        ++ filter (waits front ranges.now committed.now.keys) told.now) }
{
    let mut all = Vec::from_slice(alloc, waiting)?;
    for pair in told {
        if waits(*pair, front, ranges, committed) {
            all.push(*pair)?;
        }
    }
    Ok(all)
}

/// Whether an attached promise waits: it was not told before, and its command isn't committed.
fn waits(pair: Pair, front: u64, ranges: &[Range], committed: &IndexSet<CommandId>) -> bool
    ensures { result ≡ waits front ranges.now committed.now.keys pair }
{
    front < pair.stamp.0 && !is_in(ranges, pair.stamp.0) && !committed.contains(&pair.id)
}

/// The last number before one that lies past a front, or a number before that.
fn clear_before(front: u64, clear: u64, number: u64) -> u64
    ensures { result ≡ cond (nat_lt front number && nat_le number clear) (number - 1) clear }
{
    if front < number && number <= clear {
        number - 1
    } else {
        clear
    }
}

/// The last number that is reached past a front without coming to an attached one.
fn clear_to(front: u64, last: u64, attached: &[Pair]) -> u64
    requires { front < last }
    ensures from { front ≤ result }
    ensures to { result ≤ last }
    ensures clear { (n : ℕ) → front < n → n ≤ result → is_attached attached.now n ≡ false }
    ensures stopped { result < last → is_attached attached.now (result + 1) ≡ true }
{
    let mut clear = last;
    for pair in attached {
        clear = clear_before(front, clear, pair.stamp.0);
    }
    clear
}

/// How far a front comes within one range.
fn step(front: u64, ranges: &[Range], attached: &[Pair]) -> u64
    ensures advances { Advances ranges.now attached.now front result }
    ensures stopped { result ≡ front → IsStopped ranges.now attached.now front }
{
    match end_after(ranges, front) {
        Some(last) => clear_to(front, last, attached),
        None => front,
    }
}

/// How far a front comes past told numbers that are not attached.
pub(crate) fn advanced(mut front: u64, ranges: &[Range], attached: &[Pair]) -> u64
    ensures advances { Advances ranges.now attached.now front result }
    ensures stopped { IsStopped ranges.now attached.now result }
{
    let mut next = step(front, ranges, attached);
    while front < next {
        front = next;
        next = step(front, ranges, attached);
    }
    front
}

/// Leaves the attached promises of other commands.
pub(crate) fn drop_id(attached: &mut Vec<Pair>, id: CommandId)
    ensures { attached.new.items ≡ filter (λ p. not (same_id p.id id)) attached.old.items }
{
    attached.retain(|pair| pair.id != id);
}
