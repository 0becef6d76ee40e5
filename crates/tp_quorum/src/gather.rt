ghost use Rattle.std.specs.Bool.{OnTrue, OnFalse};
ghost use Rattle.std.specs.Prelude.{◌≡◌, ◌≤◌, Some, None, replicate, is_none, length};
ghost use Rattle.tp_base.specs.Tables.{kept_at, with_nth};
ghost use Rattle.tp_quorum.specs.Choice.{present, greatest, count_of, fast_choice as choice_of};
ghost use Rattle.tp_topology.specs.Shape.{fast_size};

use crate::choice::FastChoice;
use std::marker::Model;
use tp_base::{Rank, Stamp};
use tp_topology::Topology;

/// The proposals of a fast quorum, the first of each rank.
#[derive(Debug, Drop)]
pub struct Gather {
    stamps: [Option<u64>; 7],
}

impl Model for Gather {
    ghost use Rattle.std.specs.Prelude.{◌≡◌, ℕ, List, Option, length};

    ghost Value = { List (Option ℕ) };

    ghost view = { λ g. g.stamps };

    ghost invariant = { λ g. length g.stamps ≡ 7 };
}

impl Gather {
    /// Without proposals.
    pub fn new() -> Gather
        ensures { result ≡ replicate 7 None }
    {
        Gather { stamps: [None; 7] }
    }

    /// Keeps a rank's proposal, where none is kept of it, and tells whether it did.
    pub fn put(&mut self, rank: Rank, stamp: Stamp) -> bool
        requires from { 1 ≤ rank.0 }
        requires to { rank.0 ≤ 7 }
        ensures first { result ≡ is_none (kept_at self.old rank.0) }
        ensures kept { OnTrue result (self.new ≡ with_nth self.old rank.0 (Some stamp.0)) }
        ensures same { OnFalse result (self.new ≡ self.old) }
    {
        let i = usize::from(rank.0) - 1;
        if self.stamps[i].is_some() {
            return false;
        }
        self.stamps[i] = Some(stamp.0);
        true
    }

    /// How many proposals there are.
    pub fn len(&self) -> u8
        ensures { result ≡ length (present self.now) }
    {
        count(&self.stamps)
    }

    /// What the proposals decide, where the whole fast quorum's are there.
    #[tactic(auto, unfolding(crate::specs::Choice::fast_choice))]
    pub fn choice(&self, topology: &Topology) -> FastChoice
        requires { length (present self.now) ≡ fast_size topology.now }
        ensures { result ≡ choice_of topology.now (present self.now) }
    {
        let top = greatest_of(&self.stamps);
        if topology.failures() <= count_equal(&self.stamps, top) {
            FastChoice::Fast(Stamp(top))
        } else {
            FastChoice::Slow(Stamp(top))
        }
    }
}

/// How many values a table keeps.
fn count(table: &[Option<u64>]) -> u8
    requires { length table.now ≤ 7 }
    ensures { result ≡ length (present table.now) }
{
    let mut count = 0;
    for value in table {
        match value {
            Some(_) => count += 1,
            None => {}
        }
    }
    count
}

/// How many values of a table equal one.
fn count_equal(table: &[Option<u64>], wanted: u64) -> u8
    requires { length table.now ≤ 7 }
    ensures { result ≡ count_of wanted (present table.now) }
{
    let mut count = 0;
    for value in table {
        match value {
            Some(number) => {
                if *number == wanted {
                    count += 1;
                }
            }
            None => {}
        }
    }
    count
}

/// The greatest value of a table, 0 of none.
fn greatest_of(table: &[Option<u64>]) -> u64
    ensures { result ≡ greatest (present table.now) }
{
    let mut top = 0;
    for value in table {
        match value {
            Some(number) => {
                if top < *number {
                    top = *number;
                }
            }
            None => {}
        }
    }
    top
}
