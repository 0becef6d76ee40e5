ghost use Rattle.std.specs.List.{flat_map};
ghost use Rattle.std.specs.Prelude.{◌≡◌, ◌++◌, IfOk, OnOk};
ghost use Rattle.tp_svg.specs.Svg.{shape_body, shape_text, svg_text};

use crate::elements::{put_cross, put_curve, put_dot, put_end, put_first, put_row};
use crate::frame::{put_frame, put_legend};
use crate::label::longest;
use crate::words::class_word;
use std::alloc::Global;
use tp_base::{Bytes, NoMemory, Put};
use tp_picture::Shape;

fn put_body(out: &mut Put, shape: Shape, reach: usize) -> Result<(), NoMemory>
    ensures { OnOk result (out.new ≡ out.old ++ shape_body reach shape) }
{
    match shape {
        Shape::Frame { columns, rows } => put_frame(out, columns, rows, reach),
        Shape::Legend { rows } => put_legend(out, rows),
        Shape::Row {
            row,
            actor,
            end,
            columns,
        } => put_row(out, row, actor, end, columns),
        Shape::Arrow { sign, from, to } => {
            put_curve(out, b"arrow ", class_word(sign.kind), from, to)
        }
        Shape::Lost { sign, from, to } => {
            put_curve(out, b"lost ", class_word(sign.kind), from, to)
        }
        Shape::Dot { actor, sign, at } => put_dot(out, actor, sign, at),
        Shape::Cross { at } => put_cross(out, at),
        Shape::End { at } => put_end(out, at),
        Shape::First { id, at } => put_first(out, id, at),
    }
}

fn put_shape(out: &mut Put, shape: Shape, reach: usize) -> Result<(), NoMemory>
    ensures { OnOk result (out.new ≡ out.old ++ shape_text reach shape) }
{
    put_body(out, shape, reach)?;
    out.byte(b'\n')
}

fn put_shapes(out: &mut Put, shapes: &[Shape], reach: usize) -> Result<(), NoMemory>
    ensures { OnOk result (out.new ≡ out.old ++ flat_map (shape_text reach) shapes.now) }
{
    for shape in shapes {
        put_shape(out, *shape, reach)?;
    }
    Ok(())
}

/// The text of a picture with these shapes.
#[tactic(auto, unfolding(crate::specs::Svg::svg_text))]
pub fn print_picture(alloc: Global, shapes: &[Shape]) -> Result<Bytes, NoMemory>
    ensures { IfOk result (λ bytes. bytes ≡ svg_text shapes.now) }
{
    let reach = longest(alloc, shapes)?;
    let mut out = Put::new(alloc);
    put_shapes(&mut out, shapes, reach)?;
    out.bytes(b"</g></svg>")?;
    out.byte(b'\n')?;
    Ok(out.finish())
}
