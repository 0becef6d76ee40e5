ghost use Rattle.std.specs.List.{flat_map};
ghost use Rattle.std.specs.Prelude.{◌≡◌, ◌<◌, ◌++◌, length, slice_get, Some, IfOk, OnOk};
ghost use Rattle.tp_picture.specs.Shapes.{actor_row, rows, shapes};
ghost use Rattle.tp_script.specs.Accepted.{IsAccepted};

use crate::arrows::put_arrows;
use crate::dots::put_dots;
use crate::scene::{Scene, scene_of};
use crate::shape::Shape;
use crate::view::View;
use std::alloc::Global;
use tp_base::{ActorName, NoMemory, Sequence};
use tp_journal::Journal;
use tp_script::Script;

fn put_row(
    shapes: &mut Vec<Shape>,
    scene: &Scene,
    row: usize,
    actor: ActorName,
) -> Result<(), NoMemory>
    ensures { OnOk result (shapes.new.items ≡ shapes.old.items ++ actor_row scene.now row (Some actor)) }
{
    shapes.push(Shape::Row {
        row,
        actor,
        end: scene.row_end(actor),
        columns: scene.width(),
    })?;
    Ok(())
}

fn actor_at(rows: &[ActorName], i: usize) -> ActorName
    requires { i < length rows.now }
    ensures { slice_get rows.now i ≡ Some result }
{
    rows[i]
}

// The rows of all actors that are shown.
fn put_rows(shapes: &mut Vec<Shape>, scene: &Scene) -> Result<(), NoMemory>
    ensures { OnOk result (shapes.new.items ≡ shapes.old.items ++ rows scene.now) }
{
    let rows = scene.rows();
    for i in 0..rows.len() {
        let actor = actor_at(rows, i);
        put_row(shapes, scene, i + 1, actor)?;
    }
    Ok(())
}

/// The shapes of the picture of a journal, as a view shows it.
#[tactic(auto, unfolding(crate::specs::Shapes::shapes))]
pub fn shapes(
    alloc: Global,
    script: &Script,
    journal: &Journal,
    view: &View,
) -> Result<Sequence<Shape>, NoMemory>
    requires { IsAccepted script.now }
    ensures { IfOk result (λ drawn. drawn ≡ shapes script.now journal.now view.now) }
{
    let scene = scene_of(alloc, script, journal, view)?;
    let mut shapes = Vec::new(alloc);
    shapes.push(Shape::Frame {
        columns: scene.width(),
        rows: scene.rows().len(),
    })?;
    shapes.push(Shape::Legend {
        rows: scene.rows().len(),
    })?;
    put_rows(&mut shapes, &scene)?;
    put_arrows(&mut shapes, &scene)?;
    put_dots(alloc, &mut shapes, &scene)?;
    Ok(Sequence::from_vec(shapes))
}
