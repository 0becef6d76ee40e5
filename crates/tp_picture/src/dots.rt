ghost use Rattle.std.specs.Prelude.{◌≡◌, ◌++◌, ◌-◌, ◌≤◌, ◌<◌, [], reverse, take, true, false, Some, IfOk, OnOk};
ghost use Rattle.tp_base.specs.Lists.{has};
ghost use Rattle.tp_base.specs.Names.{same_id};
ghost use Rattle.tp_picture.specs.Scenes.{place};
ghost use Rattle.tp_picture.specs.Shapes.{dots, dots_at, first_in, firsts, marks};
ghost use Rattle.tp_rules.specs.Outcome.{executed_by, line, once_at_end};

use crate::about::is_crash;
use crate::place::Place;
use crate::scene::Scene;
use crate::shape::Shape;
use crate::sign::sign_of_event;
use indexmap::IndexSet;
use std::alloc::Global;
use tp_base::{CommandId, NoMemory};
use tp_rules::{Entry, Event, Inner};

fn executed(event: Event) -> Option<CommandId>
    ensures { result ≡ executed_by event }
{
    match event {
        Event::Inner(Inner::Execute(id)) => Some(id),
        _ => None,
    }
}

// The command that an event executes, if it wasn't executed before.
fn executed_first(line: &IndexSet<CommandId>, event: Event) -> Option<CommandId>
    ensures { result ≡ first_in line.now.keys (executed_by event) }
{
    let id = executed(event)?;
    if line.contains(&id) { None } else { Some(id) }
}

// Goes on with the line of commands.
fn note_execution(line: &mut IndexSet<CommandId>, event: Event) -> Result<(), NoMemory>
    ensures { OnOk result (line.new.keys ≡ once_at_end line.old.keys (executed_by event)) }
{
    if let Some(id) = executed(event) {
        line.insert(id)?;
    }
    Ok(())
}

fn put_first(
    shapes: &mut Vec<Shape>,
    scene: &Scene,
    first: Option<CommandId>,
    at: Place,
) -> Result<(), NoMemory>
    ensures { OnOk result (shapes.new.items ≡ shapes.old.items ++ firsts scene.now first at) }
{
    if let Some(id) = first {
        let at = Place {
            entry: at.entry,
            column: at.column,
            row: scene.rows().len() + 1,
        };
        shapes.push(Shape::First { id, at })?;
    }
    Ok(())
}

// The mark of a loss or a crash.
fn put_mark(shapes: &mut Vec<Shape>, event: Event, at: Place) -> Result<(), NoMemory>
    ensures { OnOk result (shapes.new.items ≡ shapes.old.items ++ marks event at) }
{
    match event {
        Event::Deliver { .. } => {}
        Event::Dropped { .. } => shapes.push(Shape::Cross { at })?,
        Event::Inner(_) => {
            if is_crash(event) {
                shapes.push(Shape::End { at })?;
            }
        }
    }
    Ok(())
}

// The shapes of an entry at its place.
fn put_at(
    shapes: &mut Vec<Shape>,
    scene: &Scene,
    entry: &Entry,
    first: Option<CommandId>,
    at: Place,
) -> Result<(), NoMemory>
    ensures { OnOk result (shapes.new.items ≡ shapes.old.items ++ dots_at scene.now entry.now first (Some at)) }
{
    shapes.push(Shape::Dot {
        actor: entry.actor,
        sign: sign_of_event(scene.entries(), entry.actor, entry.event),
        at,
    })?;
    put_mark(shapes, entry.event, at)?;
    put_first(shapes, scene, first, at)
}

fn put_dot(
    shapes: &mut Vec<Shape>,
    scene: &Scene,
    number: u64,
    entry: &Entry,
    first: Option<CommandId>,
) -> Result<(), NoMemory>
    ensures { OnOk result (shapes.new.items ≡ shapes.old.items ++ dots_at scene.now entry.now first (place scene.now number)) }
{
    if let Some(at) = scene.place(number) {
        put_at(shapes, scene, entry, first, at)?;
    }
    Ok(())
}

/// The dots of all entries that are shown, the marks of losses and crashes, and the line of commands.
pub(crate) fn put_dots(
    alloc: Global,
    shapes: &mut Vec<Shape>,
    scene: &Scene,
) -> Result<(), NoMemory>
    ensures { OnOk result (shapes.new.items ≡ shapes.old.items ++ dots scene.now) }
{
    let entries = scene.entries();
    let mut line = IndexSet::new(alloc);
    for i in 0..entries.len() {
        let entry = &entries[i];
        let first = executed_first(&line, entry.event);
        put_dot(shapes, scene, i as u64 + 1, entry, first)?;
        note_execution(&mut line, entry.event)?;
    }
    Ok(())
}
