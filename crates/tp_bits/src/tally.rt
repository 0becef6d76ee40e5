ghost use Rattle.std.specs.Prelude.{◌≡◌, ◌<◌, ◌^◌, ◌++◌, ◌∷◌, [], Bool, List, Some, ℕ, length, not, set, slice_get, OnOk};
ghost use Rattle.tp_bits.specs.Bits.{IsBlockOf, IsSpot, IsTally};

use tp_base::NoMemory;

/// A count in a list, and how many units of its stand before the one that is looked for.
#[derive(Clone, Copy, Debug)]
pub(crate) struct Spot {
    pub block: usize,
    pub rank: u64,
}

/// Counts one more bit at the end of a list of bits.
pub(crate) fn count_new(counts: &mut Vec<u64>, block: usize, bit: bool) -> Result<(), NoMemory>
    ensures { OnOk result ((width : ℕ) (bits : List Bool) → IsTally width bits counts.old.items
        → IsBlockOf width (length bits) block → length bits < 2 ^ 63
        → IsTally width (bits ++ bit ∷ []) counts.new.items) }
{
    if block < counts.len() {
        counts[block] = counts[block].saturating_add(u64::from(bit));
    } else {
        counts.push(u64::from(bit))?;
    }
    Ok(())
}

/// Counts a bit that is turned.
pub(crate) fn count_turned(counts: &mut [u64], block: usize, bit: bool)
    ensures length { length counts.new ≡ length counts.old }
    ensures tally { (width : ℕ) (bits : List Bool) (place : ℕ) → IsTally width bits counts.old
        → IsBlockOf width place block → slice_get bits place ≡ Some (not bit) → length bits < 2 ^ 63
        → IsTally width (set bits place bit) counts.new }
{
    if block < counts.len() {
        let count = counts[block].saturating_add(u64::from(bit));
        counts[block] = count.saturating_sub(u64::from(!bit));
    }
}

/// The count, from a block on, that has the unit of a rank, counted from the start of that block.
pub(crate) fn find(counts: &[u64], from: usize, rank: u64) -> Option<Spot>
    ensures { IsSpot counts.now from rank result }
{
    let mut left = rank;
    for block in from..counts.len() {
        let count = counts[block];
        if left < count {
            return Some(Spot { block, rank: left });
        }
        left -= count;
    }
    None
}
