ghost use Rattle.std.specs.Prelude.{◌≡◌, false, length, reverse, IfNone, IfOk, IfSome, List, OnOk};
ghost use Rattle.tp_rules.specs.Acts.{Act};
ghost use Rattle.tp_rules.specs.Journal.{act_of, with_act};
ghost use Rattle.tp_rules.specs.Runs.{outputs_in};
ghost use Rattle.tp_shared.specs.Known.{name_of};
ghost use Rattle.tp_worker.specs.Cells.{IsIdle, IsUpTo};
ghost use Rattle.tp_worker.specs.Posts.{IsPost, MayOffer};

use crate::post::Post;
use tp_base::NoMemory;
use tp_rules::{Actor, Event, Outputs};

/// The step that the actor makes next: what its inbox says, or else a step of its own.
pub fn next<A: Actor>(post: &Post, actor: &A) -> Option<Event>
    requires post { IsPost (name_of post.now.desk.actor) post.now }
    requires all { post.now.fetched ≡ length post.now.desk.seen }
    requires up_to { IsUpTo A.identity_of A.is_spent A.stands post.now.desk.opening.script post.now.desk.seen
        (name_of post.now.desk.actor) actor.now }
    ensures may { IfSome result
        (MayOffer post.now.desk.opening.script (reverse post.now.desk.seen) (name_of post.now.desk.actor)) }
    ensures idle { IfNone result (IsIdle post.now.desk) }
{
    if let Some(event) = post.inbox.next() {
        return Some(event);
    }
    let inner = actor.next_inner()?;
    Some(Event::Inner(inner))
}

/// Lets the actor make its next step, and gives what it sends.
pub fn act<A: Actor>(post: &Post, actor: &mut A, event: Event) -> Result<Outputs, NoMemory>
    requires post { IsPost (name_of post.now.desk.actor) post.now }
    requires all { post.now.fetched ≡ length post.now.desk.seen }
    requires up_to { IsUpTo A.identity_of A.is_spent A.stands post.now.desk.opening.script post.now.desk.seen
        (name_of post.now.desk.actor) actor.old }
    requires may { MayOffer post.now.desk.opening.script (reverse post.now.desk.seen)
        (name_of post.now.desk.actor) event }
    ensures identity { A.identity_of actor.new ≡ A.identity_of actor.old }
    ensures outputs { IfOk result
        (λ outputs. outputs ≡ outputs_in post.now.desk.opening.script (reverse post.now.desk.seen)
        (name_of post.now.desk.actor) event) }
    ensures unspent { OnOk result (A.is_spent actor.new ≡ false) }
    ensures stands { OnOk result ((acts : List Act) → A.stands actor.old acts
        → A.stands actor.new (with_act (act_of (reverse post.now.desk.seen) event) acts)) }
{
    match event {
        Event::Deliver { entry, place } => {
            let Some(message) = post.inbox.message(entry, place) else {
                unreachable!()
            };
            actor.deliver(message)
        }
        Event::Dropped { entry: _, place: _ } => Ok(Outputs::new(post.alloc)),
        Event::Inner(inner) => actor.fire(inner),
    }
}
