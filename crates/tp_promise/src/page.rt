ghost use Rattle.std.specs.Prelude.{◌≡◌, ◌≤◌, ◌<◌, ◌+◌, ℕ, ◌∷◌, [], List, OnOk};
ghost use Rattle.tp_base.specs.Lists.{has};
ghost use Rattle.tp_base.specs.Names.{same_id};
ghost use Rattle.tp_base.specs.declared.names.CommandId.{CommandId};
ghost use Rattle.tp_promise.specs.Pages.{AreTold, IsPage, IsStopped};
ghost use Rattle.tp_topology.specs.Stability.{Telling};

use crate::pairs::{advanced, drop_id, with_waiting};
use crate::ranges::{Range, drop_passed, with_range};
use indexmap::IndexSet;
use std::alloc::Global;
use std::marker::Model;
use tp_base::{CommandId, NoMemory, Pair, Pairs};

/// What was told of one rank: how far its numbers count, which above that were told, and the
/// attached ones among these whose commands aren't committed.
#[derive(Drop)]
pub(crate) struct Page {
    alloc: Global,
    front: u64,
    ranges: Vec<Range>,
    attached: Vec<Pair>,
}

impl Model for Page {
    ghost use Rattle.tp_promise.specs.Pages.{Page as PageOfRank, IsKept};

    ghost Value = { PageOfRank };

    ghost view = { λ p. record { front = p.front; ranges = p.ranges.items; attached = p.attached.items } };

    ghost invariant = { λ p. IsKept p.ranges.items p.attached.items p.front };
}

impl Page {
    /// Of a rank that told nothing.
    pub fn new(alloc: Global) -> Page
        ensures { result ≡ record { front = 0; ranges = []; attached = [] } }
    {
        Page {
            alloc,
            front: 0,
            ranges: Vec::new(alloc),
            attached: Vec::new(alloc),
        }
    }

    /// How far each number is counted.
    pub fn front(&self) -> u64
        ensures front { result ≡ self.now.front }
        ensures stopped { IsStopped self.now.ranges self.now.attached self.now.front }
    {
        self.front
    }

    /// Takes a telling of the rank. A number that was told before keeps what it was told with.
    pub fn add(
        &mut self,
        told: Range,
        attached: &Pairs,
        committed: &IndexSet<CommandId>,
    ) -> Result<(), NoMemory>
        requires some { told.lo < told.hi }
        requires attached { AreTold told.lo told.hi attached.now }
        ensures { OnOk result ((before : List Telling) (ids : List CommandId) (rank : ℕ)
            → ((id : CommandId) → has same_id id committed.now.keys ≡ has same_id id ids)
            → IsPage self.old before ids rank
            → IsPage self.new (record { rank = rank; lo = told.lo; hi = told.hi; attached = attached.now }
            ∷ before) ids rank) }
    {
        let waiting = with_waiting(
            self.alloc,
            &self.attached,
            attached.as_slice(),
            self.front,
            &self.ranges,
            committed,
        )?;
        self.ranges = with_range(self.alloc, &self.ranges, told)?;
        self.attached = waiting;
        self.front = advanced(self.front, &self.ranges, &self.attached);
        drop_passed(&mut self.ranges, self.front);
        Ok(())
    }

    /// Takes a commit of a command.
    pub fn commit(&mut self, id: CommandId)
        ensures { (told : List Telling) (ids : List CommandId) (rank : ℕ) → IsPage self.old told ids rank
            → IsPage self.new told (id ∷ ids) rank }
    {
        drop_id(&mut self.attached, id);
        self.front = advanced(self.front, &self.ranges, &self.attached);
        drop_passed(&mut self.ranges, self.front);
    }
}
