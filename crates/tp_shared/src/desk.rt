ghost use Rattle.std.specs.Prelude.{◌≡◌, ◌≢◌, true, false, [], ◌∷◌, None, length};
ghost use Rattle.tp_base.specs.Lists.{IsPrefixOf, has};
ghost use Rattle.tp_base.specs.Names.{same_name};
ghost use Rattle.tp_rules.specs.Runs.{IsRun};
ghost use Rattle.tp_shared.specs.Known.{AllJoined, IsDesk, Told, holding, joined, known, listed_too, new_desk, released};

use crate::law::{Place, Release};
use crate::looking::crash_after;
use crate::shared::Shared;
use crate::steps;
use std::alloc::Global;
use std::marker::Model;
use std::sync::Wait;
use tp_base::ActorName;
use tp_journal::Journal;

/// A place at a shared journal. It has the journal in hand while it has the turn.
#[derive(Drop)]
pub struct Desk {
    pub(crate) seat: Place,
    pub(crate) hand: Option<Journal>,
    // The length of the journal in hand, or of what was seen.
    pub(crate) count: u64,
    // At so many entries it looked for a crash of its actor's site.
    pub(crate) looked: u64,
    pub(crate) crash: Option<u64>,
    pub(crate) actor: Option<ActorName>,
    pub(crate) alloc: Global,
}

impl Model for Desk {
    ghost use Rattle.tp_shared.specs.Known.{Known, known, IsDesk};

    ghost Value = { Known };

    ghost view = { λ d. known d.seat.table_id d.seat.me.0 d.hand };

    ghost invariant = { λ d. IsDesk d.seat.me.0 d.seat.me.1 d.hand d.count d.looked d.crash d.actor };
}

impl Desk {
    /// Waits for the turn. The desk has then seen the whole journal, and has it in hand. It costs what
    /// was entered since the desk had the turn last.
    pub fn hold(&mut self, rt: &impl Wait, shared: &Shared)
        requires table { self.old.table ≡ shared.now }
        requires free { self.old.holds ≡ false }
        ensures held { self.new ≡ holding self.old self.new.seen }
        ensures grows { IsPrefixOf self.old.seen self.new.seen }
        ensures run { IsRun self.old.opening.script self.new.seen }
        ensures settled { self.old.actor ≡ None → AllJoined self.old → self.new.seen ≡ self.old.seen }
    {
        steps::win(rt, &shared.table.shared, &mut self.seat);
        let Some(journal) = shared.table.shared.exchange(&mut self.seat, 0, None) else {
            unreachable!()
        };
        self.count = journal.entries().len() as u64;
        self.crash = crash_after(self.actor, self.crash, &journal, self.looked);
        self.looked = self.count;
        self.hand = Some(journal);
    }

    /// Puts the journal back, with what the desk entered, and gives the turn up.
    pub fn release(&mut self, shared: &Shared)
        requires table { self.old.table ≡ shared.now }
        requires held { self.old.holds ≡ true }
        ensures { self.new ≡ released self.old }
    {
        let room = &shared.table.shared;
        let journal = self.hand.take();
        let _ = room.exchange(&mut self.seat, 0, journal);
        room.store::<Release>(&mut self.seat, 0, 0);
    }

    /// The length of what the desk has seen, which with the turn is the whole journal.
    pub fn length(&self) -> u64
        ensures { result ≡ length self.now.seen }
    {
        self.count
    }

    /// It does nothing: its promise is what the desk knows of what it has seen.
    pub fn told(&self)
        ensures { Told self.now }
    {
        let _ = &self.seat;
    }

    /// A desk for an actor, split off the first.
    pub fn split(&mut self, shared: &Shared, actor: ActorName) -> Desk
        requires table { self.old.table ≡ shared.now }
        requires first { (self.old.actor ≡ None) × (self.old.holds ≡ false) }
        requires fresh { has same_name actor self.old.listed ≡ false }
        ensures left { self.new ≡ listed_too self.old actor }
        ensures right { result ≡ new_desk self.old actor }
    {
        let seat = steps::split(&shared.table.shared, &mut self.seat, actor);
        Desk {
            seat,
            hand: None,
            count: self.count,
            looked: 0,
            crash: None,
            actor: Some(actor),
            alloc: self.alloc,
        }
    }

    /// Joins a desk to the first, which has then seen what either had, and keeps the other's own entries.
    pub fn join(&mut self, shared: &Shared, other: Desk)
        requires table { (self.old.table ≡ shared.now) × (other.table ≡ shared.now) }
        requires first { (self.old.actor ≡ None) × (self.old.holds ≡ false) }
        requires other { other.holds ≡ false }
        ensures same { self.new ≡ joined self.old other }
        ensures longer { IsPrefixOf self.old.seen self.new.seen × IsPrefixOf other.seen self.new.seen }
    {
        let Desk {
            seat,
            hand: _,
            count,
            looked: _,
            crash: _,
            actor: _,
            alloc: _,
        } = other;
        steps::join(&shared.table.shared, &mut self.seat, seat);
        self.count = self.count.max(count);
    }

    // The first desk, which has seen so many entries.
    pub(crate) fn first(alloc: Global, seat: Place, count: u64) -> Desk
        requires { IsDesk seat.me.0 seat.me.1 None count 0 None None }
        ensures { result ≡ known seat.table_id seat.me.0 None }
    {
        Desk {
            seat,
            hand: None,
            count,
            looked: 0,
            crash: None,
            actor: None,
            alloc,
        }
    }

    // The journal in hand.
    pub(crate) fn into_journal(self) -> Journal
        requires { self.holds ≡ true }
        ensures { result ≡ self.seen }
    {
        let Desk {
            seat: _,
            hand,
            count: _,
            looked: _,
            crash: _,
            actor: _,
            alloc: _,
        } = self;
        let Some(journal) = hand else { unreachable!() };
        journal
    }
}
