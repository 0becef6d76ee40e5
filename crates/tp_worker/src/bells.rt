ghost use Rattle.std.specs.Prelude.{◌<◌};

use std::array;
use std::sync::Wait;
use std::sync::atomic::{AtomicU64, Ordering};
use std::thread::Parker;
use tp_base::{ActorName, Site};

/// The bells of all actors of any shape: of processes, of executors and of sessions.
const BELLS: usize = 512;

const EXECUTORS: usize = 64;

const SESSIONS: usize = 256;
/// The bells of a partition stand so far from those of the next.
const PARTITION: usize = 8;

#[derive(Drop)]
struct Bell {
    rings: AtomicU64,
    door: Parker,
}

/// A bell for each actor, which is rung with the turn for each message that is entered for it. So who waits for messages
/// sleeps meanwhile, and doesn't take the turn to see that there are none; and who has heard its bell and then takes the
/// turn finds what it rang for. Who sleeps is woken as well once nobody is awake. A ring that fails to come costs time and
/// nothing else, and other threads ring at any time, so contracts tell nothing of them.
#[derive(Drop)]
pub(crate) struct Bells {
    bells: [Bell; BELLS],
    awake: AtomicU64,
}

impl Bells {
    /// Bells that never rang. Nobody is awake.
    pub(crate) fn new() -> Bells {
        Bells {
            bells: array::from_fn(|_| Bell {
                rings: AtomicU64::new(0),
                door: Parker::new(),
            }),
            awake: AtomicU64::new(0),
        }
    }

    /// Rings an actor's bell.
    pub(crate) fn ring(&self, actor: ActorName) {
        if let Some(bell) = self.bells.get(bell_of(actor)) {
            bell.rings.fetch_add(1, Ordering::SeqCst);
            bell.door.unpark();
        }
    }

    /// How often an actor's bell rang.
    pub(crate) fn rings(&self, actor: ActorName) -> u64 {
        match self.bells.get(bell_of(actor)) {
            Some(bell) => bell.rings.load(Ordering::SeqCst),
            None => 0,
        }
    }

    /// One more is awake.
    pub(crate) fn wake(&self) {
        self.awake.fetch_add(1, Ordering::SeqCst);
    }

    /// One is awake no more.
    pub(crate) fn rest(&self) {
        if self.awake.fetch_sub(1, Ordering::SeqCst) != 1 {
            return;
        }
        for bell in &self.bells {
            bell.door.unpark();
        }
    }

    /// Sleeps until an actor's bell has rung, where it rang so often before. False where nobody is awake any more.
    pub(crate) fn sleep<R: Wait>(&self, rt: &R, actor: ActorName, heard: u64) -> bool {
        self.rest();
        for _ in rt.forever() {
            if self.rings(actor) != heard {
                self.wake();
                return true;
            }
            if self.awake.load(Ordering::SeqCst) == 0 {
                return false;
            }
            self.wait_at_door(rt, actor);
        }
        unreachable!()
    }

    fn wait_at_door<R: Wait>(&self, rt: &R, actor: ActorName) {
        if let Some(bell) = self.bells.get(bell_of(actor)) {
            bell.door.park(rt);
        }
    }
}

fn bell_of(actor: ActorName) -> usize {
    match actor {
        ActorName::Process(site) => place_of(site),
        ActorName::Executor(site) => EXECUTORS + place_of(site),
        ActorName::Session(id) => SESSIONS + usize::from(id.0),
    }
}

fn place_of(site: Site) -> usize
    ensures { result < 4096 }
{
    usize::from(site.partition.0) * PARTITION + usize::from(site.rank.0)
}
