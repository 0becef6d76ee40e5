ghost use Rattle.std.specs.Prelude.{◌≡◌, ◌++◌, OnOk};
ghost use Rattle.tp_svg.specs.Svg.{bow, centred, circle_text, cross_mark, curve, dot_text, end_mark, first_text, guide_text, label_text, mark, name, row_line, row_text, slanted};

use crate::label::put_label_words;
use crate::numbers::{bend, put_point, put_quoted, x, y};
use crate::words::{dot_class, put_actor, put_id};
use tp_base::{ActorName, CommandId, NoMemory, Put};
use tp_picture::{Place, Sign};

// From a place to another: it comes in vertically.
fn put_bow(out: &mut Put, from: Place, to: Place) -> Result<(), NoMemory>
    ensures { OnOk result (out.new ≡ out.old ++ bow from to) }
{
    put_point(out, x(from.column), y(from.row))?;
    out.bytes(b"Q")?;
    put_point(out, x(to.column), bend(from.row, to.row))?;
    out.bytes(b" ")?;
    put_point(out, x(to.column), y(to.row))?;
    Ok(())
}

/// A curve of a class from one place to another. The class is in two parts.
pub(crate) fn put_curve(
    out: &mut Put,
    sort: &[u8],
    class: &[u8],
    from: Place,
    to: Place,
) -> Result<(), NoMemory>
    ensures { OnOk result (out.new ≡ out.old ++ curve (sort.now ++ class.now) from to) }
{
    out.bytes(b"<path class='")?;
    out.bytes(sort)?;
    out.bytes(class)?;
    out.bytes(b"' d='M")?;
    put_bow(out, from, to)?;
    out.bytes(b"'/>")?;
    Ok(())
}

// A path of its own, moved to a place.
fn put_mark(out: &mut Put, class: &[u8], path: &[u8], at: Place) -> Result<(), NoMemory>
    ensures { OnOk result (out.new ≡ out.old ++ mark class.now path.now at) }
{
    out.bytes(b"<path class='")?;
    out.bytes(class)?;
    out.bytes(b"' d='")?;
    out.bytes(path)?;
    out.bytes(b"' transform='translate(")?;
    put_point(out, x(at.column), y(at.row))?;
    out.bytes(b")'/>")?;
    Ok(())
}

/// What is drawn at a loss.
#[tactic(auto, unfolding(crate::specs::Svg::cross_mark))]
pub(crate) fn put_cross(out: &mut Put, at: Place) -> Result<(), NoMemory>
    ensures { OnOk result (out.new ≡ out.old ++ cross_mark at) }
{
    put_mark(out, b"cross", b"M-8 -8L8 8M-8 8L8 -8", at)
}

/// What is drawn at a crash.
#[tactic(auto, unfolding(crate::specs::Svg::end_mark))]
pub(crate) fn put_end(out: &mut Put, at: Place) -> Result<(), NoMemory>
    ensures { OnOk result (out.new ≡ out.old ++ end_mark at) }
{
    put_mark(out, b"end", b"M0 -11V11", at)
}

fn put_name(out: &mut Put, start: &[u8], a: u128, b: u128, actor: ActorName) -> Result<(), NoMemory>
    ensures { OnOk result (out.new ≡ out.old ++ name start.now a b actor) }
{
    out.bytes(start)?;
    put_quoted(out, b" x='", a)?;
    put_quoted(out, b" y='", b)?;
    out.bytes(b">")?;
    put_actor(out, actor)?;
    out.bytes(b"</text>")
}

// The start of a slanted text behind a place.
fn put_slanted(out: &mut Put, start: &[u8], a: u128, b: u128) -> Result<(), NoMemory>
    ensures { OnOk result (out.new ≡ out.old ++ slanted start.now a b) }
{
    out.bytes(start)?;
    out.bytes(b" transform='translate(")?;
    put_point(out, a, b)?;
    out.bytes(b") rotate(-60)'>")?;
    Ok(())
}

fn put_row_line(out: &mut Put, row: usize, end: usize) -> Result<(), NoMemory>
    ensures { OnOk result (out.new ≡ out.old ++ row_line row end) }
{
    out.bytes(b"<line class='row' x1='76'")?;
    put_quoted(out, b" y1='", y(row))?;
    put_quoted(out, b" x2='", x(end))?;
    put_quoted(out, b" y2='", y(row))?;
    out.bytes(b"/>")?;
    Ok(())
}

/// A row's line, with the actor's name before it and behind all columns.
pub(crate) fn put_row(
    out: &mut Put,
    row: usize,
    actor: ActorName,
    end: usize,
    columns: usize,
) -> Result<(), NoMemory>
    ensures { OnOk result (out.new ≡ out.old ++ row_text row actor end columns) }
{
    let level = y(row) + 4;
    let behind = x(columns) + 12;
    put_row_line(out, row, end)?;
    put_name(out, b"<text class='name'", 68, level, actor)?;
    put_name(out, b"<text", behind, level, actor)?;
    Ok(())
}

fn put_guide(out: &mut Put, at: Place) -> Result<(), NoMemory>
    ensures { OnOk result (out.new ≡ out.old ++ guide_text at) }
{
    out.bytes(b"<line class='guide' y1='48'")?;
    put_quoted(out, b" x1='", x(at.column))?;
    put_quoted(out, b" x2='", x(at.column))?;
    put_quoted(out, b" y2='", y(at.row))?;
    out.bytes(b"/>")?;
    Ok(())
}

// The rest of a circle round a place.
fn put_centred(out: &mut Put, at: Place) -> Result<(), NoMemory>
    ensures { OnOk result (out.new ≡ out.old ++ centred at) }
{
    put_quoted(out, b" cx='", x(at.column))?;
    put_quoted(out, b" cy='", y(at.row))?;
    out.bytes(b"/>")?;
    Ok(())
}

// A circle of a class, on a larger one that cuts the lines that pass.
fn put_circle(out: &mut Put, class: &[u8], at: Place) -> Result<(), NoMemory>
    ensures { OnOk result (out.new ≡ out.old ++ circle_text class.now at) }
{
    out.bytes(b"<circle class='halo' r='6'")?;
    put_centred(out, at)?;
    out.bytes(b"<circle class='dot ")?;
    out.bytes(class)?;
    out.bytes(b"' r='4'")?;
    put_centred(out, at)?;
    Ok(())
}

fn put_label(out: &mut Put, actor: ActorName, sign: Option<Sign>, at: Place) -> Result<(), NoMemory>
    ensures { OnOk result (out.new ≡ out.old ++ label_text actor sign at) }
{
    put_slanted(out, b"<text", x(at.column) + 4, 44)?;
    put_label_words(out, actor, sign, at.entry)?;
    out.bytes(b"</text>")?;
    Ok(())
}

/// An entry: the line to its label, its circle, and its label.
pub(crate) fn put_dot(
    out: &mut Put,
    actor: ActorName,
    sign: Option<Sign>,
    at: Place,
) -> Result<(), NoMemory>
    ensures { OnOk result (out.new ≡ out.old ++ dot_text actor sign at) }
{
    put_guide(out, at)?;
    put_circle(out, dot_class(sign), at)?;
    put_label(out, actor, sign, at)?;
    Ok(())
}

/// A command's first execution.
pub(crate) fn put_first(out: &mut Put, id: CommandId, at: Place) -> Result<(), NoMemory>
    ensures { OnOk result (out.new ≡ out.old ++ first_text id at) }
{
    put_slanted(out, b"<text class='first'", x(at.column) + 4, y(at.row))?;
    put_id(out, id)?;
    out.bytes(b"</text>")
}
