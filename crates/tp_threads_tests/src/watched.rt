ghost use Rattle.std.specs.Prelude.{◌≡◌, [], IfOk};
ghost use Rattle.tp_driver.specs.Cast.{AllStand};
ghost use Rattle.tp_script.specs.Accepted.{IsAccepted};
ghost use Rattle.tp_threads_tests.specs.Watched.{AreWatched, Stands, identity, is_spent};

use crate::watch::Watch;
use std::alloc::Global;
use tp_base::{ActorName, NoMemory};
use tp_cast::{AnyActor, cast};
use tp_rules::{Actor, Inner, Outputs};
use tp_script::Script;
use tp_wire::Message;

/// An actor that asks a watch before each of its steps, and wants memory for one that the watch refuses.
#[derive(Drop)]
pub struct Watched<'a> {
    actor: AnyActor,
    watch: &'a Watch,
    steps: u64,
    refused: bool,
}

impl<'a> Actor for Watched<'a> {
    ghost use Rattle.tp_threads_tests.specs.Watched.{identity, is_spent, Stands};

    ghost identity_of = { identity };

    ghost is_spent = { is_spent };

    ghost stands = { Stands };

    fn name(&self) -> ActorName {
        self.actor.name()
    }

    fn spent(&self) -> bool {
        self.refused || self.actor.spent()
    }

    fn deliver(&mut self, message: &Message) -> Result<Outputs, NoMemory> {
        if !self.watch.lets(self.actor.name(), self.steps) {
            self.refused = true;
            return Err(NoMemory);
        }
        self.steps = self.steps.saturating_add(1);
        self.actor.deliver(message)
    }

    fn fire(&mut self, inner: Inner) -> Result<Outputs, NoMemory> {
        if !self.watch.lets(self.actor.name(), self.steps) {
            self.refused = true;
            return Err(NoMemory);
        }
        self.steps = self.steps.saturating_add(1);
        self.actor.fire(inner)
    }

    fn next_inner(&self) -> Option<Inner> {
        self.watch.looks(self.actor.name(), self.steps);
        self.actor.next_inner()
    }
}

/// The script's actors, each of which asks the watch.
pub fn watch_all<'a>(
    alloc: Global,
    script: &Script,
    watch: &'a Watch,
) -> Result<Vec<Watched<'a>>, NoMemory>
    requires { IsAccepted script.now }
    ensures { IfOk result (λ actors. AllStand identity is_spent Stands script.now actors.items []) }
{
    let actors = cast(alloc, script)?;
    let all = watch_each(alloc, actors, watch)?;
    Ok(all)
}

fn watch_each<'a>(
    alloc: Global,
    mut actors: Vec<AnyActor>,
    watch: &'a Watch,
) -> Result<Vec<Watched<'a>>, NoMemory>
    ensures { IfOk result (λ all. AreWatched actors.items all.items) }
{
    let mut all = Vec::new(alloc);
    while let Some(actor) = actors.pop() {
        let watched = Watched {
            actor,
            watch,
            steps: 0,
            refused: false,
        };
        all.insert(0, watched)?;
    }
    Ok(all)
}
