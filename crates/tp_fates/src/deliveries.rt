ghost use Rattle.std.specs.Prelude.{◌≡◌, None, Some, cond, option_map, OnOk};
ghost use Rattle.tp_fates.specs.Deliveries.{first_left, is_of, left_in, same_slot, taken};
ghost use Rattle.tp_fates.specs.Fates.{fate_of};

use crate::fate::Fate;
use indexmap::IndexMap;
use std::alloc::Global;
use tp_base::NoMemory;

/// An output by its entry and its place among that entry's outputs, both from 1.
#[derive(Clone, Copy, Debug, PartialEq, Eq, Hash)]
pub struct Slot {
    pub entry: u64,
    pub place: u64,
}

/// Whether an output is to be lost, and how often it may still be delivered. A loss that is to come
/// counts as one.
#[derive(Clone, Copy, Debug, PartialEq, Eq)]
pub struct Left {
    pub lost: bool,
    pub times: u8,
}

impl Left {
    /// Of an output that was just sent.
    pub fn first(fate: Fate) -> Left
        ensures { result ≡ first_left (fate_of fate) }
    {
        match fate {
            Fate::Lost => Left {
                lost: true,
                times: 1,
            },
            Fate::Times(times) => Left { lost: false, times },
        }
    }

    /// Whether it is the loss, or a delivery, that is to come.
    pub fn is_of(&self, loss: bool) -> bool
        ensures { result ≡ is_of loss self.now }
    {
        if loss { self.lost } else { !self.lost }
    }
}

/// What is left of each output that was sent.
#[derive(Debug, Drop)]
pub struct Deliveries {
    left: IndexMap<Slot, Left>,
}

impl Deliveries {
    /// Before the first output.
    pub fn new(alloc: Global) -> Deliveries
        ensures { (slot : Slot) → left_in result slot ≡ None }
    {
        Deliveries {
            left: IndexMap::new(alloc),
        }
    }

    /// What is left of an output, where one was sent there.
    pub fn of(&self, slot: Slot) -> Option<Left>
        ensures { result ≡ left_in self.now slot }
    {
        match self.left.get(&slot) {
            Some(left) => Some(*left),
            None => None,
        }
    }

    /// Adds an output that was just sent.
    pub fn add(&mut self, slot: Slot, fate: Fate) -> Result<(), NoMemory>
        ensures { OnOk result ((other : Slot)
            → left_in self.new other
            ≡ cond (same_slot slot other) (Some (first_left (fate_of fate))) (left_in self.old other)) }
    {
        self.left.insert(slot, Left::first(fate))?;
        Ok(())
    }

    /// Takes a delivery of an output, or its loss, where that is to come.
    pub fn take(&mut self, slot: Slot, loss: bool)
        ensures { (other : Slot)
            → left_in self.new other
            ≡ cond (same_slot slot other) (option_map (taken loss) (left_in self.old other)) (left_in self.old other) }
    {
        if let Some(left) = self.left.get_mut(&slot) {
            if left.is_of(loss) {
                left.times = left.times.saturating_sub(1);
            }
        }
    }
}
