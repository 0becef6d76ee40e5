ghost use Rattle.std.specs.Prelude.{◌≡◌, ◌≤◌, true, length, reverse, IfErr, IfOk, OnOk};
ghost use Rattle.tp_netbook.specs.Inbox.{MayBeDone, entries_by, next_event, sent_to};
ghost use Rattle.tp_rules.specs.Journal.{is_live};
ghost use Rattle.tp_shared.specs.Fetched.{parcels_for};
ghost use Rattle.tp_shared.specs.Histories.{MayFollow};
ghost use Rattle.tp_shared.specs.Known.{entry_of, name_of};
ghost use Rattle.tp_worker.specs.Posts.{HasEntered, HasSeen, HasWorked, IsPost, IsRefused};

use crate::bells::Bells;
use std::alloc::Global;
use std::sync::Wait;
use tp_base::NoMemory;
use tp_netbook::Inbox;
use tp_rules::{Event, Outputs, Parcels};
use tp_shared::{Desk, EnterFault, Shared};

/// A desk with the inbox of its actor, which was given what was sent to the actor by so many entries.
#[derive(Drop)]
pub struct Post {
    pub desk: Desk,
    pub inbox: Inbox,
    pub fetched: u64,
    // The number of the actor's entries.
    pub made: u64,
    pub alloc: Global,
}

impl Post {
    /// Fetches what was sent to the actor since it fetched last.
    pub fn listen<R: Wait>(&mut self, rt: &R, shared: &Shared) -> Result<(), NoMemory>
        requires table { self.old.desk.table ≡ shared.now }
        requires post { IsPost (name_of self.old.desk.actor) self.old }
        ensures seen { HasSeen self.old self.new }
        ensures post { OnOk result (IsPost (name_of self.old.desk.actor) self.new) }
        ensures all { OnOk result (self.new.fetched ≡ length self.new.desk.seen) }
    {
        self.desk.hold(rt, shared);
        let parcels = self.desk.fetch(self.fetched);
        self.desk.release(shared);
        self.desk.told();
        self.take(parcels?)
    }

    /// Enters a step of the actor, and fetches what was sent to it since it fetched last.
    pub fn offer<R: Wait>(
        &mut self,
        rt: &R,
        shared: &Shared,
        bells: &Bells,
        event: Event,
        outputs: Outputs,
    ) -> Result<u64, EnterFault>
        requires table { self.old.desk.table ≡ shared.now }
        requires post { IsPost (name_of self.old.desk.actor) self.old }
        requires all { self.old.fetched ≡ length self.old.desk.seen }
        requires legal { is_live (reverse self.old.desk.seen) (name_of self.old.desk.actor) ≡ true
            → MayFollow self.old.desk.opening.script self.old.desk.seen (entry_of self.old.desk event outputs) }
        requires next { MayBeDone event
            (next_event self.old.desk.opening.script (name_of self.old.desk.actor)
            (sent_to (name_of self.old.desk.actor) (reverse self.old.desk.seen))
            (entries_by (name_of self.old.desk.actor) (reverse self.old.desk.seen))) }
        ensures worked { HasWorked self.old self.new }
        ensures entered { OnOk result (HasEntered (entry_of self.old.desk event outputs) self.old self.new) }
        ensures post { OnOk result (IsPost (name_of self.old.desk.actor) self.new) }
        ensures number { IfOk result (λ n. n ≡ length self.new.desk.seen) }
        ensures all { OnOk result (self.new.fetched ≡ length self.new.desk.seen) }
        ensures refused { IfErr result (IsRefused self.new.desk) }
    {
        self.desk.hold(rt, shared);
        self.desk.told();
        ring_for(bells, &outputs);
        let entered = self.desk.enter(event, outputs);
        let parcels = self.desk.fetch(self.fetched);
        self.desk.release(shared);
        self.desk.told();
        let number = entered?;
        prove!(self.desk.length() == number);
        self.made += 1;
        self.inbox.done(event);
        let Ok(parcels) = parcels else {
            return Err(EnterFault::NoMemory);
        };
        match self.take(parcels) {
            Ok(()) => Ok(number),
            Err(NoMemory) => Err(EnterFault::NoMemory),
        }
    }

    // Gives the inbox what was fetched behind what it was given before.
    fn take(&mut self, parcels: Parcels) -> Result<(), NoMemory>
        requires post { IsPost (name_of self.old.desk.actor) self.old }
        requires parcels { parcels ≡ parcels_for (name_of self.old.desk.actor) self.old.fetched self.old.desk.seen }
        ensures desk { self.new.desk ≡ self.old.desk }
        ensures made { self.new.made ≡ self.old.made }
        ensures fetched { self.new.fetched ≤ length self.new.desk.seen }
        ensures post { OnOk result (IsPost (name_of self.old.desk.actor) self.new) }
        ensures all { OnOk result (self.new.fetched ≡ length self.new.desk.seen) }
    {
        prove!(parcels.len() < 1 << 63);
        self.inbox.take(parcels)?;
        self.fetched = self.desk.length();
        Ok(())
    }
}

// Rings for each message, once for its addressee.
fn ring_for(bells: &Bells, outputs: &Outputs) {
    for message in outputs.as_slice() {
        bells.ring(message.to);
    }
}
