ghost use Rattle.std.specs.Prelude.{◌≡◌, ◌++◌, OnOk};
ghost use Rattle.tp_svg.specs.Svg.{below_text, class_legend, frame_text, head, legend_text, line_name, mark_legend, size_text, style, width, word_legend};

use crate::numbers::{put_point, put_quoted, x, y};
use tp_base::{NoMemory, Put};

// What is drawn in which colour, and in which pattern of dashes.
#[tactic(auto, unfolding(crate::specs::Svg::style))]
fn put_style(out: &mut Put) -> Result<(), NoMemory>
    ensures { OnOk result (out.new ≡ out.old ++ style) }
{
    out.bytes(b"<style>text{font:11px monospace;fill:#222}.name,.first{text-anchor:end}")?;
    out.bytes(b"path,line,.dot{fill:none;stroke:#222;stroke-width:1.4}.row{stroke:#999}")?;
    out.bytes(b".guide{stroke:#ddd;mix-blend-mode:multiply}.arrow{marker-end:url(#head)}")?;
    out.bytes(b".submission{stroke-width:3}.fast{stroke:#0b62c4}")?;
    out.bytes(b".consensus{stroke:#c2410c;stroke-width:2;stroke-dasharray:12 4}")?;
    out.bytes(b".recovery{stroke:#b00058;stroke-dasharray:12 3 2 3}")?;
    out.bytes(
        b".commit{stroke:#0a7d38;stroke-dasharray:5 3}.promises{stroke:#666;stroke-dasharray:1 3}",
    )?;
    out.bytes(b".execution{stroke:#6d3fc0;stroke-dasharray:8 2 1 2 1 2}")?;
    out.bytes(
        b".dot{fill:#fff;stroke-width:1.6;stroke-dasharray:none}.own{fill:#222}.halo{fill:#fff}",
    )?;
    out.bytes(b".cross{stroke:#c00;stroke-width:2}.end{stroke-width:5}</style>")?;
    out.bytes(
        b"<defs><marker id='head' viewBox='0 0 9 8' refX='15' refY='4' markerWidth='9' markerHeight='8'",
    )?;
    out.bytes(b" orient='auto' markerUnits='userSpaceOnUse'><path d='M0 0L9 4L0 8z'")?;
    out.bytes(
        b" style='fill:#222;stroke:none'/></marker></defs><rect width='100%' height='100%' style='fill:#fff'/>",
    )
}

// What each class means.
#[tactic(auto, unfolding(crate::specs::Svg::class_legend))]
fn put_class_legend(out: &mut Put) -> Result<(), NoMemory>
    ensures { OnOk result (out.new ≡ out.old ++ class_legend) }
{
    out.bytes(b"<path class='arrow submission' d='M0 0h40'/><text x='50' y='4'>submission</text>")?;
    out.bytes(b"<path class='arrow fast' d='M0 18h40'/><text x='50' y='22'>fast path</text>")?;
    out.bytes(b"<path class='arrow consensus' d='M0 36h40'/><text x='50' y='40'>consensus</text>")?;
    out.bytes(b"<path class='arrow recovery' d='M0 54h40'/><text x='50' y='58'>recovery</text>")?;
    out.bytes(b"<path class='arrow commit' d='M150 0h40'/><text x='200' y='4'>commit</text>")?;
    out.bytes(
        b"<path class='arrow promises' d='M150 18h40'/><text x='200' y='22'>promises</text>",
    )?;
    out.bytes(
        b"<path class='arrow execution' d='M150 36h40'/><text x='200' y='40'>execution</text>",
    )?;
    out.bytes(
        b"<g class='dot'><circle r='4' cx='40'/><circle r='4' cx='40' cy='18'/><circle r='4' cx='40' cy='36'/>",
    )?;
    out.bytes(
        b"<circle r='4' cx='40' cy='54'/><circle r='4' cx='190'/><circle r='4' cx='190' cy='18'/>",
    )?;
    out.bytes(b"<circle r='4' cx='190' cy='36'/></g>")
}

// What each mark means.
#[tactic(auto, unfolding(crate::specs::Svg::mark_legend))]
fn put_mark_legend(out: &mut Put) -> Result<(), NoMemory>
    ensures { OnOk result (out.new ≡ out.old ++ mark_legend) }
{
    out.bytes(b"<path class='lost' d='M150 54h40'/><circle class='halo' r='6' cx='190' cy='54'/>")?;
    out.bytes(b"<circle class='dot' r='4' cx='190' cy='54'/>")?;
    out.bytes(
        b"<path class='cross' d='M182 46l16 16m-16 0l16 -16'/><text x='208' y='58'>lost</text>",
    )?;
    out.bytes(
        b"<circle class='dot own' r='4' cx='320' cy='0'/><text x='336' y='4'>a step of its own</text>",
    )?;
    out.bytes(
        b"<circle class='dot' r='4' cx='320' cy='18'/><text x='336' y='22'>a delivery</text>",
    )?;
    out.bytes(b"<path class='end' d='M320 25v22'/><text x='336' y='40'>a crash</text>")
}

// The words of a label, the names of actors, and the row below all.
#[tactic(auto, unfolding(crate::specs::Svg::word_legend))]
fn put_word_legend(out: &mut Put) -> Result<(), NoMemory>
    ensures { OnOk result (out.new ≡ out.old ++ word_legend) }
{
    out.bytes(b"<text x='480' y='4'>7 p1.2 Kind 1.3 @4 b5: entry 7, of the actor p1.2,</text>")?;
    out.bytes(b"<text x='480' y='22'>Kind about command 1.3, timestamp 4, ballot 5</text>")?;
    out.bytes(b"<text x='480' y='40'>Promises @4: the timestamps up to 4 are promised</text>")?;
    out.bytes(b"<text x='480' y='58'>s session, p process, e executor; 1.2 partition.rank</text>")?;
    out.bytes(b"<text x='480' y='76'>line: each command where it is executed first</text>")?;
    Ok(())
}

// The room above all that labels of so many characters need.
fn head(reach: usize) -> u128
    ensures { result ≡ head reach }
{
    6 * reach as u128
}

// How wide a picture is: the last label and the legend have room.
fn width(columns: usize, reach: usize) -> u128
    ensures { result ≡ width columns reach }
{
    (x(columns) + 66 + 4 * reach as u128).max(950)
}

// The start, with the size of a picture with so many columns and rows.
fn put_size(out: &mut Put, columns: usize, rows: usize, reach: usize) -> Result<(), NoMemory>
    ensures { OnOk result (out.new ≡ out.old ++ size_text columns rows reach) }
{
    out.bytes(b"<svg xmlns='http://www.w3.org/2000/svg'")?;
    put_quoted(out, b" width='", width(columns, reach))?;
    put_quoted(out, b" height='", y(rows) + 222 + head(reach))?;
    out.bytes(b">")?;
    Ok(())
}

// Moves all that follows below the labels' room.
fn put_below(out: &mut Put, reach: usize) -> Result<(), NoMemory>
    ensures { OnOk result (out.new ≡ out.old ++ below_text reach) }
{
    out.bytes(b"<g transform='translate(")?;
    put_point(out, 0, head(reach))?;
    out.bytes(b")'>")?;
    Ok(())
}

// The name of the row below all.
fn put_line_name(out: &mut Put, rows: usize) -> Result<(), NoMemory>
    ensures { OnOk result (out.new ≡ out.old ++ line_name rows) }
{
    put_quoted(out, b"<text class='name' x='68' y='", y(rows) + 34)?;
    out.bytes(b">line</text>")?;
    Ok(())
}

/// The start of a picture: its size, its classes, and the name of the row below all.
pub(crate) fn put_frame(
    out: &mut Put,
    columns: usize,
    rows: usize,
    reach: usize,
) -> Result<(), NoMemory>
    ensures { OnOk result (out.new ≡ out.old ++ frame_text columns rows reach) }
{
    put_size(out, columns, rows, reach)?;
    put_style(out)?;
    put_below(out, reach)?;
    put_line_name(out, rows)?;
    Ok(())
}

/// The legend, below so many rows and the longest name of a command.
pub(crate) fn put_legend(out: &mut Put, rows: usize) -> Result<(), NoMemory>
    ensures { OnOk result (out.new ≡ out.old ++ legend_text rows) }
{
    out.bytes(b"<g transform='translate(")?;
    put_point(out, 90, y(rows) + 130)?;
    out.bytes(b")'>")?;
    put_class_legend(out)?;
    put_mark_legend(out)?;
    put_word_legend(out)?;
    out.bytes(b"</g>")?;
    Ok(())
}
