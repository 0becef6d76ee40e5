use std::sync::atomic::{AtomicBool, Ordering};
use std::thread;
use tp_base::ActorName;
use tp_outside::Gate;

// So often an actor looks whether another has come.
const LOOKS: u64 = 50_000_000;

/// What actors ask before each of their steps, each on its own thread, and tell when they look for one. It is the gate
/// that they pass too.
#[derive(Drop)]
pub enum Watch {
    /// One actor's step after so many others of its own is refused.
    Refusal {
        actor: ActorName,
        after: u64,
    },
    /// Two processes take their first messages together.
    Meeting {
        one: Side,
        other: Side,
    },
    /// One actor waits at the gate with its first entry until another has entered.
    Order {
        first: ActorName,
        second: ActorName,
        has_entered: AtomicBool,
    },
}

/// A process, and the session that sends its first message.
#[derive(Drop)]
pub struct Side {
    session: ActorName,
    process: ActorName,
    has_sent: AtomicBool,
    has_come: AtomicBool,
}

impl Side {
    pub fn new(session: ActorName, process: ActorName) -> Side {
        Side {
            session,
            process,
            has_sent: AtomicBool::new(false),
            has_come: AtomicBool::new(false),
        }
    }

    // Whether the other process comes too.
    fn meets(&self, other: &Side) -> bool {
        self.has_come.store(true, Ordering::SeqCst);
        becomes_true(&other.has_come)
    }
}

impl Watch {
    /// A watch that lets one actor enter before another.
    pub fn order(first: ActorName, second: ActorName) -> Watch {
        Watch::Order {
            first,
            second,
            has_entered: AtomicBool::new(false),
        }
    }

    /// Whether an actor may make its next step, after so many. It may wait for another's.
    pub fn lets(&self, name: ActorName, steps: u64) -> bool {
        match self {
            Watch::Refusal { actor, after } => name != *actor || steps != *after,
            Watch::Meeting { one, other } => {
                if steps == 0 && name == one.process {
                    one.meets(other)
                } else if steps == 0 && name == other.process {
                    other.meets(one)
                } else {
                    true
                }
            }
            Watch::Order {
                first: _,
                second: _,
                has_entered: _,
            } => true,
        }
    }

    /// An actor looks for its next step. A process that has made none finds a message when it looks again.
    pub fn looks(&self, name: ActorName, steps: u64) {
        match self {
            Watch::Refusal { actor: _, after: _ } => (),
            Watch::Meeting { one, other } => {
                tell(&one.has_sent, name == one.session, steps);
                tell(&other.has_sent, name == other.session, steps);
                if steps == 0 && (name == one.process || name == other.process) {
                    becomes_true(&one.has_sent);
                    becomes_true(&other.has_sent);
                }
            }
            Watch::Order {
                first,
                second: _,
                has_entered,
            } => tell(has_entered, name == *first, steps),
        }
    }
}

impl Gate for Watch {
    fn pass(&self, actor: ActorName, turn: u64) {
        if let Watch::Order {
            first: _,
            second,
            has_entered,
        } = self
        {
            if turn == 0 && actor == *second {
                becomes_true(has_entered);
            }
        }
    }
}

// Who looks for its next step has entered the one before.
fn tell(said: &AtomicBool, is_said: bool, steps: u64) {
    if is_said && steps > 0 {
        said.store(true, Ordering::SeqCst);
    }
}

// Whether another actor says so in time.
fn becomes_true(said: &AtomicBool) -> bool {
    for _ in 0..LOOKS {
        if said.load(Ordering::SeqCst) {
            return true;
        }
        thread::yield_now();
    }
    false
}
