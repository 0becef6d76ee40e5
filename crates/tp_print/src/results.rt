ghost use Rattle.std.specs.Option.{option_or};
ghost use Rattle.std.specs.Prelude.{◌≡◌, ◌≤◌, ◌∷◌, ◌==◌, ℕ, cond, is_some, reverse, true, false, Some, None, OnOk};
ghost use Rattle.tp_base.specs.Names.{same_id, same_name};
ghost use Rattle.tp_base.specs.declared.names.ActorName.TheVariants.{Session};
ghost use Rattle.tp_base.specs.declared.names.CommandId.{CommandId};
ghost use Rattle.tp_print.specs.Results.{AreFirst, answers_at};
ghost use Rattle.indexmap.specs.IndexMap.{get};
ghost use Rattle.tp_rules.specs.Outcome.{result_by};
ghost use Rattle.tp_wire.specs.declared.message.Body.TheVariants.{MResult};

use crate::events::is_session;
use crate::first_results::FirstResults;
use crate::journal::output;
use indexmap::IndexMap;
use tp_base::{ActorName, CommandId, NoMemory, PartitionId};
use tp_ops::Answers;
use tp_rules::{Entry, Event};
use tp_wire::{Body, Message};

/// What each command's session was given first.
pub type Results<'a> = IndexMap<CommandId, FirstResults<'a>>;

/// Makes a place for a command, where it has none.
fn open(results: &mut Results, id: CommandId) -> Result<(), NoMemory>
    ensures here { OnOk result (is_some (get same_id results.new id) ≡ true) }
    ensures same { OnOk result ((other : CommandId) (p : ℕ)
        → answers_at results.new other p ≡ answers_at results.old other p) }
{
    if !results.contains_key(&id) {
        results.insert(id, FirstResults::new())?;
    }
    Ok(())
}

/// Keeps the answers of a partition for a command, where none are kept.
fn keep<'a>(
    results: &mut Results<'a>,
    id: CommandId,
    p: PartitionId,
    answers: &'a Answers,
) -> Result<(), NoMemory>
    requires from { 1 ≤ p.0 }
    requires to { p.0 ≤ 4 }
    ensures here { OnOk result ((q : ℕ)
        → answers_at results.new id q ≡ option_or (answers_at results.old id q)
        (cond (p.0 == q) (Some answers.now) None)) }
    ensures others { OnOk result ((other : CommandId) (q : ℕ) → same_id id other ≡ false
        → answers_at results.new other q ≡ answers_at results.old other q) }
{
    open(results, id)?;
    if let Some(kept) = results.get_mut(&id) {
        kept.put(p, answers);
    }
    Ok(())
}

/// Notes the answers that a message tells an actor, where they are for a command of its own.
fn note_result<'a>(
    results: &mut Results<'a>,
    actor: ActorName,
    message: &'a Message,
) -> Result<(), NoMemory>
    ensures { OnOk result ((id : CommandId) (p : ℕ) → 1 ≤ p → p ≤ 4
        → answers_at results.new id p ≡ cond (same_name actor (Session id.session))
        (option_or (answers_at results.old id p) (result_by id p message.now.body)) (answers_at results.old id p)) }
{
    match &message.body {
        Body::MResult {
            id,
            partition,
            answers,
        } => {
            if is_session(actor, id.session) && 1 <= partition.0 && partition.0 <= 4 {
                keep(results, *id, *partition, answers)?;
            }
            Ok(())
        }
        _ => Ok(()),
    }
}

/// Notes the answers that an entry's event delivers to a session, where it delivers some. The entries
/// before it are given.
pub fn note_delivery<'a>(
    results: &mut Results<'a>,
    before: &'a [Entry],
    entry: &Entry,
) -> Result<(), NoMemory>
    ensures { OnOk result (AreFirst (reverse before.now) results.old
        → AreFirst (entry.now ∷ reverse before.now) results.new) }
{
    match (entry.actor, entry.event) {
        (ActorName::Session(_), Event::Deliver { entry: from, place }) => {
            let Some(message) = output(before, from, place) else {
                return Ok(());
            };
            note_result(results, entry.actor, message)
        }
        _ => Ok(()),
    }
}
