ghost use Rattle.std.specs.Prelude.{◌≡◌, ◌≤◌, ◌<◌, ◌+◌, ◌||◌, ℕ, true, false, max, min, nat_lt, filter, IfOk, IfSome, IfNone};
ghost use Rattle.tp_promise.specs.Pages.{AreApart, in_range, in_ranges};

use std::alloc::Global;
use tp_base::NoMemory;

/// The numbers above `lo` up to `hi`.
#[derive(Clone, Copy, Debug)]
pub(crate) struct Range {
    pub lo: u64,
    pub hi: u64,
}

/// Whether a number is in some range.
pub(crate) fn is_in(ranges: &[Range], n: u64) -> bool
    ensures { result ≡ in_ranges ranges.now n }
{
    for range in ranges {
        if range.lo < n && n <= range.hi {
            return true;
        }
    }
    false
}

/// The last number of a range that has the number after a front.
pub(crate) fn end_after(ranges: &[Range], front: u64) -> Option<u64>
    ensures further { IfSome result (λ last. front < last) }
    ensures told { IfSome result (λ last. (n : ℕ) → front < n → n ≤ last → in_ranges ranges.now n ≡ true) }
    ensures none { IfNone result (in_ranges ranges.now (front + 1) ≡ false) }
{
    for range in ranges {
        if range.lo <= front && front < range.hi {
            return Some(range.hi);
        }
    }
    None
}

/// Two ranges that overlap or adjoin, as one.
fn joined(a: Range, b: Range) -> Range
    requires a_reaches { b.lo ≤ a.hi }
    requires b_reaches { a.lo ≤ b.hi }
    ensures numbers { (n : ℕ) → in_range result n ≡ (in_range a n || in_range b n) }
    ensures ends { (result.lo ≡ min a.lo b.lo) × (result.hi ≡ max a.hi b.hi) }
{
    Range {
        lo: a.lo.min(b.lo),
        hi: a.hi.max(b.hi),
    }
}

/// Ranges in order, with one more: those that it overlaps or adjoins become one with it.
pub(crate) fn with_range(
    alloc: Global,
    ranges: &[Range],
    added: Range,
) -> Result<Vec<Range>, NoMemory>
    ensures numbers { IfOk result (λ all. (n : ℕ)
        → in_ranges all.items n ≡ (in_ranges ranges.now n || in_range added n)) }
    ensures apart { IfOk result (λ all. AreApart ranges.now → added.lo < added.hi → AreApart all.items) }
{
    let mut before = Vec::new(alloc);
    let mut merged = added;
    let mut after = Vec::new(alloc);
    for range in ranges {
        if range.hi < merged.lo {
            before.push(*range)?;
        } else if merged.hi < range.lo {
            after.push(*range)?;
        } else {
            merged = joined(*range, merged);
        }
    }
    before.push(merged)?;
    before.extend_from_slice(&after)?;
    Ok(before)
}

/// Leaves the ranges that reach past a front.
pub(crate) fn drop_passed(ranges: &mut Vec<Range>, front: u64)
    ensures { ranges.new.items ≡ filter (λ r. nat_lt front r.hi) ranges.old.items }
{
    ranges.retain(|range| front < range.hi);
}
