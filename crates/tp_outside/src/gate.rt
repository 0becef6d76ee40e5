ghost use Rattle.std.specs.Prelude.{◌≡◌};

use std::sync::atomic::{AtomicBool, AtomicU64, Ordering};
use std::thread;
use tp_base::ActorName;

/// What an actor passes before each entry that it offers, on its own thread. It may wait there, so that a test
/// chooses who goes first.
pub trait Gate {
    /// Lets the actor pass. The turn is the number of the entries that it made before.
    fn pass(&self, actor: ActorName, turn: u64);
}

/// A gate at which nobody waits.
#[derive(Clone, Copy, Debug, PartialEq, Eq)]
pub struct OpenGate;

impl Gate for OpenGate {
    fn pass(&self, _actor: ActorName, _turn: u64) {}
}

/// A gate at which one actor waits until another has passed, for so many tries at most. Other threads change its
/// counts at any time, so contracts tell nothing of them.
#[derive(Drop)]
pub struct HoldGate {
    held: ActorName,
    other: ActorName,
    turns: u64,
    open: AtomicBool,
    late: AtomicBool,
    passes: AtomicU64,
}

impl HoldGate {
    /// It takes no memory.
    pub fn new(held: ActorName, other: ActorName, turns: u64) -> HoldGate
        ensures who { (result.held ≡ held) × (result.other ≡ other) }
        ensures turns { result.turns ≡ turns }
    {
        HoldGate {
            held,
            other,
            turns,
            open: AtomicBool::new(false),
            late: AtomicBool::new(false),
            passes: AtomicU64::new(0),
        }
    }

    /// Whether the tries ran out before the other actor passed.
    pub fn late(&self) -> bool {
        self.late.load(Ordering::SeqCst)
    }

    /// How often an actor passed.
    pub fn passes(&self) -> u64 {
        self.passes.load(Ordering::SeqCst)
    }

    // Waits until the other actor has passed. False where the tries run out before.
    fn waits(&self) -> bool {
        for _ in 0..self.turns {
            if self.open.load(Ordering::SeqCst) {
                return true;
            }
            thread::yield_now();
        }
        false
    }
}

impl Gate for HoldGate {
    fn pass(&self, actor: ActorName, _turn: u64) {
        self.passes.fetch_add(1, Ordering::SeqCst);
        if actor == self.other {
            self.open.store(true, Ordering::SeqCst);
        }
        if actor == self.held && !self.waits() {
            self.late.store(true, Ordering::SeqCst);
        }
    }
}
