ghost use Rattle.std.specs.List.{flat_map};
ghost use Rattle.std.specs.Option.{option_copied};
ghost use Rattle.std.specs.Prelude.{◌≡◌, ◌++◌, [], ◌∷◌, List, MatchOption, Some, OnOk};
ghost use Rattle.tp_picture.specs.Shapes.{arrows, event_arrows, message_shapes};
ghost use Rattle.tp_picture.specs.declared.place.Place.{Place as PlaceValue};
ghost use Rattle.tp_picture.specs.declared.shape.Shape.{Shape as ShapeValue};
ghost use Rattle.tp_picture.specs.declared.sign.Sign.{Sign as SignValue};

use crate::about::is_chosen_message;
use crate::place::Place;
use crate::scene::Scene;
use crate::shape::Shape;
use crate::sign::{Sign, sign_of};
use tp_base::NoMemory;
use tp_journal::output;
use tp_rules::Event;
use tp_wire::Message;

// A message between two entries that are shown.
#[derive(Clone, Copy)]
struct Join {
    sign: Sign,
    from: Place,
    to: Place,
}

// What joins the entry that sent a message to another, where both are shown.
fn joining(scene: &Scene, sender: u64, number: u64, message: Option<&Message>) -> Option<Join>
    ensures { MatchOption result
        ((shape : SignValue → PlaceValue → PlaceValue → ShapeValue) → message_shapes scene.now shape sender number (option_copied message.entry) ≡ [])
        (λ j. (shape : SignValue → PlaceValue → PlaceValue → ShapeValue) → message_shapes scene.now shape sender number (option_copied message.entry)
        ≡ shape j.sign j.from j.to ∷ []) }
{
    let Some(message) = message else {
        return None;
    };
    if !is_chosen_message(scene.view().only, message) {
        return None;
    }
    match (scene.place(sender), scene.place(number)) {
        (Some(from), Some(to)) => Some(Join {
            sign: sign_of(&message.body),
            from,
            to,
        }),
        _ => None,
    }
}

// The line of the entry of a number, if it delivers or loses a message.
fn put_event(
    shapes: &mut Vec<Shape>,
    scene: &Scene,
    number: u64,
    event: Event,
) -> Result<(), NoMemory>
    ensures { OnOk result (shapes.new.items ≡ shapes.old.items ++ event_arrows scene.now number event) }
{
    match event {
        Event::Deliver { entry, place } => {
            let message = output(scene.entries(), entry, place);
            if let Some(Join { sign, from, to }) = joining(scene, entry, number, message) {
                shapes.push(Shape::Arrow { sign, from, to })?;
            }
        }
        Event::Dropped { entry, place } => {
            let message = output(scene.entries(), entry, place);
            if let Some(Join { sign, from, to }) = joining(scene, entry, number, message) {
                shapes.push(Shape::Lost { sign, from, to })?;
            }
        }
        Event::Inner(_) => {}
    }
    Ok(())
}

/// The arrows of all deliveries, and the ways of all lost messages.
pub(crate) fn put_arrows(shapes: &mut Vec<Shape>, scene: &Scene) -> Result<(), NoMemory>
    ensures { OnOk result (shapes.new.items ≡ shapes.old.items ++ arrows scene.now) }
{
    let entries = scene.entries();
    for i in 0..entries.len() {
        put_event(shapes, scene, i as u64 + 1, entries[i].event)?;
    }
    Ok(())
}
