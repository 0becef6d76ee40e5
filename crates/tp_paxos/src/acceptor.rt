ghost use Rattle.std.specs.Prelude.{◌≡◌, nat_le, nat_lt, if◌then◌else◌};

use tp_base::Stamp;

/// What a process has promised and accepted of a command.
#[derive(Clone, Copy, Debug, PartialEq, Eq)]
pub struct Acceptor {
    pub ballot: u64,
    pub accepted_ballot: u64,
    pub accepted_stamp: Stamp,
}

impl Acceptor {
    /// With nothing promised and nothing accepted.
    pub fn new() -> Acceptor
        ensures { result ≡ record { ballot = 0; accepted_ballot = 0; accepted_stamp = record { 0 = 0 } } }
    {
        Acceptor {
            ballot: 0,
            accepted_ballot: 0,
            accepted_stamp: Stamp(0),
        }
    }

    /// Accepts a stamp at a ballot, where no greater one was promised, and tells whether it did.
    pub fn accept(&mut self, ballot: u64, stamp: Stamp) -> bool
        ensures accepts { result ≡ nat_le self.old.ballot ballot }
        ensures accepted { self.new ≡ if result then record { ballot = ballot; accepted_ballot = ballot; accepted_stamp = stamp } else self.old }
    {
        if ballot < self.ballot {
            return false;
        }
        self.ballot = ballot;
        self.accepted_ballot = ballot;
        self.accepted_stamp = stamp;
        true
    }

    /// Promises a ballot, where only smaller ones were promised, and tells whether it did.
    pub fn promise(&mut self, ballot: u64) -> bool
        ensures promises { result ≡ nat_lt self.old.ballot ballot }
        ensures promised { self.new ≡ if result then record { ballot = ballot; accepted_ballot = self.old.accepted_ballot; accepted_stamp = self.old.accepted_stamp } else self.old }
    {
        if ballot <= self.ballot {
            return false;
        }
        self.ballot = ballot;
        true
    }
}
