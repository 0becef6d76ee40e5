ghost use Rattle.std.specs.List.{fold};
ghost use Rattle.std.specs.Prelude.{◌≡◌, ◌++◌, max, IfOk, OnOk};
ghost use Rattle.tp_svg.specs.Svg.{label, label_length, longest};

use crate::numbers::put_number;
use crate::words::{put_actor, put_sign};
use std::alloc::Global;
use tp_base::{ActorName, NoMemory, Put};
use tp_picture::{Shape, Sign};

/// What stands above an entry.
pub(crate) fn put_label_words(
    out: &mut Put,
    actor: ActorName,
    sign: Option<Sign>,
    entry: u64,
) -> Result<(), NoMemory>
    ensures { OnOk result (out.new ≡ out.old ++ label actor sign entry) }
{
    put_number(out, u128::from(entry))?;
    out.bytes(b" ")?;
    put_actor(out, actor)?;
    put_sign(out, sign)
}

// How many characters stand above a shape.
fn label_length(alloc: Global, shape: Shape) -> Result<usize, NoMemory>
    ensures { IfOk result (λ n. n ≡ label_length shape) }
{
    match shape {
        Shape::Dot { actor, sign, at } => {
            let mut out = Put::new(alloc);
            put_label_words(&mut out, actor, sign, at.entry)?;
            Ok(out.finish().len())
        }
        _ => Ok(0),
    }
}

/// How many characters the longest label has.
#[tactic(auto, unfolding(crate::specs::Svg::longest))]
pub(crate) fn longest(alloc: Global, shapes: &[Shape]) -> Result<usize, NoMemory>
    ensures { IfOk result (λ n. n ≡ longest shapes.now) }
{
    let mut most = 0;
    for shape in shapes {
        most = most.max(label_length(alloc, *shape)?);
    }
    Ok(most)
}
