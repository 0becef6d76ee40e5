ghost use Rattle.std.specs.Bool.{OnTrue, OnFalse};
ghost use Rattle.std.specs.Option.{option_map};
ghost use Rattle.std.specs.Prelude.{◌≡◌, ◌≤◌, Some, None, replicate, is_none};
ghost use Rattle.tp_base.specs.Tables.{kept_at, with_nth};

use std::marker::Model;
use tp_base::{PartitionId, Stamp};

/// The stamps of up to four partitions, the first of each.
#[derive(Debug, Drop)]
pub struct Known {
    stamps: [Option<u64>; 4],
}

impl Model for Known {
    ghost use Rattle.std.specs.Prelude.{◌≡◌, ℕ, List, Option, length};

    ghost Value = { List (Option ℕ) };

    ghost view = { λ k. k.stamps };

    ghost invariant = { λ k. length k.stamps ≡ 4 };
}

impl Known {
    /// Without stamps.
    pub fn new() -> Known
        ensures { result ≡ replicate 4 None }
    {
        Known { stamps: [None; 4] }
    }

    /// Keeps the stamp of a partition, where none is kept of it, and tells whether it did.
    pub fn put(&mut self, p: PartitionId, stamp: Stamp) -> bool
        requires from { 1 ≤ p.0 }
        requires to { p.0 ≤ 4 }
        ensures first { result ≡ is_none (kept_at self.old p.0) }
        ensures kept { OnTrue result (self.new ≡ with_nth self.old p.0 (Some stamp.0)) }
        ensures same { OnFalse result (self.new ≡ self.old) }
    {
        let i = usize::from(p.0) - 1;
        if self.stamps[i].is_some() {
            return false;
        }
        self.stamps[i] = Some(stamp.0);
        true
    }

    /// The stamp of a partition, None where there is none.
    pub fn get(&self, p: PartitionId) -> Option<Stamp>
        requires from { 1 ≤ p.0 }
        requires to { p.0 ≤ 4 }
        ensures { option_map (λ t. t.0) result ≡ kept_at self.now p.0 }
    {
        self.stamps[usize::from(p.0) - 1].map(Stamp)
    }
}
