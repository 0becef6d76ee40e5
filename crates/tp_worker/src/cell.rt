ghost use Rattle.std.specs.Prelude.{◌≡◌, ◌≢◌, ◌^◌, ◌<◌, false, length, OnOk};
ghost use Rattle.tp_base.specs.declared.names.ActorName.{ActorName as ActorValue};
ghost use Rattle.tp_worker.specs.Cells.{GoesOn, HasAllFetched, IsCell, IsIdle, IsReady, Worker};
ghost use Rattle.tp_worker.specs.declared.cell.CellState.TheVariants.{Live};

use crate::acting::next;
use crate::bells::Bells;
use crate::post::Post;
use crate::step::advance;
use std::alloc::Global;
use std::marker::Model;
use std::sync::Wait;
use tp_netbook::Inbox;
use tp_outside::Gate;
use tp_rules::Actor;
use tp_shared::{Desk, Shared};

/// Whether a cell goes on. Once there was no memory for a step, it is spent.
#[derive(Clone, Copy, Debug, PartialEq, Eq)]
pub enum CellState {
    Live,
    /// The actor's site crashed, first by this entry.
    Crashed { entry: u64 },
    Spent,
}

/// An actor with its desk at a shared journal, and its inbox.
#[derive(Drop)]
pub struct Cell<A: Actor> {
    actor: A,
    post: Post,
    state: CellState,
    // How often the actor's bell had rung when the journal was looked at last.
    heard: u64,
}

impl<A: Actor> Model for Cell<A> {
    ghost use Rattle.tp_worker.specs.Cells.{Worker};
    ghost use Rattle.tp_worker.specs.Posts.{worker, Keeps};

    ghost Value = { Worker A };

    ghost view = { λ c. worker c.actor c.post c.state };

    ghost invariant = { λ c. Keeps A.identity_of A.is_spent A.stands c.actor c.post c.state };
}

impl<A: Actor> Cell<A> {
    /// A cell that has made no entry and was told of none.
    pub fn new(alloc: Global, actor: A, desk: Desk, inbox: Inbox) -> Cell<A>
        requires ready { (name : ActorValue) × IsReady A.identity_of A.is_spent A.stands name actor desk inbox }
        ensures { result ≡ record { actor = actor; desk = desk; fetched = 0; state = Live } }
    {
        desk.told();
        let post = Post {
            desk,
            inbox,
            fetched: 0,
            made: 0,
            alloc,
        };
        Cell {
            actor,
            post,
            state: CellState::Live,
            heard: 0,
        }
    }

    /// Whether it goes on.
    pub fn state(&self) -> CellState
        ensures { result ≡ self.now.state }
    {
        self.state
    }

    /// The actor and the desk, when the work is done.
    pub fn parts(self) -> (A, Desk)
        ensures parts { (result.0 ≡ self.actor) × (result.1 ≡ self.desk) }
        ensures cell { (name : ActorValue) × IsCell A.identity_of A.is_spent A.stands name self }
    {
        let Cell {
            actor,
            post,
            state: _,
            heard: _,
        } = self;
        (actor, post.desk)
    }

    // The number of entries that its desk made.
    pub(crate) fn made(&self) -> u64
        ensures { result ≡ length self.now.desk.own }
    {
        self.post.made
    }

    // The length of what its desk has seen.
    pub(crate) fn seen(&self) -> u64
        ensures { result ≡ length self.now.desk.seen }
    {
        self.post.desk.length()
    }

    // Fetches what was sent to its actor since it fetched last.
    pub(crate) fn listen<R: Wait>(&mut self, rt: &R, shared: &Shared, bells: &Bells)
        requires table { self.old.desk.table ≡ shared.now }
        requires live { self.old.state ≡ Live }
        ensures goes_on { GoesOn A.identity_of self.old self.new }
        ensures own { self.new.desk.own ≡ self.old.desk.own }
        ensures fetched { HasAllFetched self.new }
    {
        self.heard = bells.rings(self.actor.name());
        if self.post.listen(rt, shared).is_err() {
            self.state = CellState::Spent;
        }
    }

    // Whether its actor's bell has rung since it looked at the journal last.
    pub(crate) fn has_mail(&self, bells: &Bells) -> bool {
        bells.rings(self.actor.name()) != self.heard
    }

    // Sleeps until it has mail. False where no cell is awake any more.
    pub(crate) fn sleep<R: Wait>(&self, rt: &R, bells: &Bells) -> bool {
        bells.sleep(rt, self.actor.name(), self.heard)
    }

    // Enters its actor's next step. False where there is none.
    pub(crate) fn step<R: Wait, G: Gate>(
        &mut self,
        rt: &R,
        shared: &Shared,
        bells: &Bells,
        gate: &G,
    ) -> bool
        requires table { self.old.desk.table ≡ shared.now }
        requires live { self.old.state ≡ Live }
        requires fetched { HasAllFetched self.old }
        ensures goes_on { GoesOn A.identity_of self.old self.new }
        ensures fetched { HasAllFetched self.new }
        ensures idle { result ≡ false → (self.new ≡ self.old) × IsIdle self.new.desk }
    {
        let Some(event) = next(&self.post, &self.actor) else {
            return false;
        };
        self.heard = bells.rings(self.actor.name());
        self.state = advance(
            rt,
            shared,
            bells,
            gate,
            &mut self.actor,
            &mut self.post,
            event,
        );
        true
    }
}
