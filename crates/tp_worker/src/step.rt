ghost use Rattle.std.specs.Prelude.{◌≡◌, length, reverse};
ghost use Rattle.tp_shared.specs.Known.{name_of};
ghost use Rattle.tp_worker.specs.Cells.{IsUpTo};
ghost use Rattle.tp_worker.specs.Posts.{HasEntered, HasWorked, IsEndedBy, IsPost, Keeps, MayOffer, made_in};
ghost use Rattle.tp_worker.specs.declared.cell.CellState.TheVariants.{Live};

use crate::acting::act;
use crate::bells::Bells;
use crate::cell::CellState;
use crate::post::Post;
use std::sync::Wait;
use tp_outside::Gate;
use tp_rules::{Actor, Event, Inner};
use tp_shared::{EnterFault, Shared};

/// The actor makes its next step without the turn, passes the gate, and its entry is entered with the turn. It answers
/// how the cell goes on.
pub fn advance<R: Wait, A: Actor, G: Gate>(
    rt: &R,
    shared: &Shared,
    bells: &Bells,
    gate: &G,
    actor: &mut A,
    post: &mut Post,
    event: Event,
) -> CellState
    requires table { post.old.desk.table ≡ shared.now }
    requires post { IsPost (name_of post.old.desk.actor) post.old }
    requires all { post.old.fetched ≡ length post.old.desk.seen }
    requires up_to { IsUpTo A.identity_of A.is_spent A.stands post.old.desk.opening.script post.old.desk.seen
        (name_of post.old.desk.actor) actor.old }
    requires may { MayOffer post.old.desk.opening.script (reverse post.old.desk.seen)
        (name_of post.old.desk.actor) event }
    ensures worked { HasWorked post.old post.new }
    ensures identity { A.identity_of actor.new ≡ A.identity_of actor.old }
    ensures keeps { Keeps A.identity_of A.is_spent A.stands actor.new post.new result }
    ensures entered { result ≡ Live → HasEntered (made_in post.old.desk event) post.old post.new }
    ensures all { result ≡ Live → post.new.fetched ≡ length post.new.desk.seen }
{
    let Ok(outputs) = act(post, actor, event) else {
        return CellState::Spent;
    };
    gate.pass(actor.name(), post.made);
    match post.offer(rt, shared, bells, event, outputs) {
        Ok(number) => after(event, number),
        Err(EnterFault::Crashed { entry }) => CellState::Crashed { entry },
        Err(EnterFault::NoMemory) => CellState::Spent,
    }
}

// A process ends with its crash.
fn after(event: Event, number: u64) -> CellState
    ensures { IsEndedBy event number result }
{
    match event {
        Event::Inner(Inner::Crash) => CellState::Crashed { entry: number },
        _ => CellState::Live,
    }
}
