ghost use Rattle.std.specs.Prelude.{◌≡◌, ◌≤◌, ◌<◌, ◌+◌, ◌↔◌, ℕ, Option, None};
ghost use Rattle.tp_base.specs.Limits.{STAMP_LIMIT};
ghost use Rattle.tp_base.specs.Promises.{proposed_stamp, bumped_clock, IsMadeByProposal, IsMadeByBump};
ghost use Rattle.tp_base.specs.declared.names.CommandId.{CommandId};

use std::marker::Model;
use tp_base::Stamp;

/// The numbers that a process has promised, from 1 up to the clock, and those that it has told.
#[derive(Clone, Copy, Debug, PartialEq, Eq)]
pub struct Clock {
    clock: u64,
    told: u64,
}

impl Model for Clock {
    ghost use Rattle.std.specs.Prelude.{◌≤◌, ◌<◌};
    ghost use Rattle.tp_base.specs.Limits.{STAMP_LIMIT};
    ghost use Rattle.tp_clock.specs.Clocks.{Promised};

    ghost Value = { Promised };

    ghost view = { λ c. record { clock = c.clock; told = c.told } };

    ghost invariant = { λ c. (c.told ≤ c.clock) × (c.clock < STAMP_LIMIT) };

    ghost inverse = { λ c. record { clock = c.clock; told = c.told } };
}

impl Clock {
    /// At 0, with nothing told.
    pub fn new() -> Clock
        ensures { result ≡ record { clock = 0; told = 0 } }
    {
        Clock { clock: 0, told: 0 }
    }

    pub fn now(&self) -> u64
        ensures value { result ≡ self.now.clock }
        ensures small { result < STAMP_LIMIT }
    {
        self.clock
    }

    pub fn told(&self) -> u64
        ensures value { result ≡ self.now.told }
        ensures within { result ≤ self.now.clock }
    {
        self.told
    }

    /// A stamp that is at least the floor and was never promised before. The clock goes on to it.
    pub fn propose(&mut self, floor: u64) -> Stamp
        requires floor { floor < STAMP_LIMIT }
        requires room { self.old.clock + 1 < STAMP_LIMIT }
        ensures stamp { result.0 ≡ proposed_stamp floor self.old.clock }
        ensures moved { self.new ≡ record { clock = result.0; told = self.old.told } }
        ensures promised { (id : CommandId) (n : ℕ) → ((self.old.clock < n) × (n ≤ self.new.clock)) ↔ ((owner : Option CommandId) × IsMadeByProposal floor self.old.clock id n owner) }
    {
        self.clock = floor.max(self.clock + 1);
        Stamp(self.clock)
    }

    /// Goes on to a stamp, where the clock is not there yet.
    pub fn bump(&mut self, t: u64)
        requires { t < STAMP_LIMIT }
        ensures moved { self.new ≡ record { clock = bumped_clock t self.old.clock; told = self.old.told } }
        ensures promised { (n : ℕ) → ((self.old.clock < n) × (n ≤ self.new.clock)) ↔ IsMadeByBump t self.old.clock n None }
    {
        self.clock = t.max(self.clock);
    }

    /// The promises made since the last call: those above the first number up to the second.
    pub fn tell(&mut self) -> (u64, u64)
        ensures range { result ≡ (self.old.told, self.old.clock) }
        ensures ordered { result.0 ≤ result.1 }
        ensures told { self.new ≡ record { clock = self.old.clock; told = self.old.clock } }
    {
        let range = (self.told, self.clock);
        self.told = self.clock;
        range
    }
}
