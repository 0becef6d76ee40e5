ghost use Rattle.std.specs.Fmt.{decimal};
ghost use Rattle.std.specs.Prelude.{◌≡◌, ◌++◌, OnOk};
ghost use Rattle.tp_svg.specs.Svg.{bend, point, quoted, x, y};

use itoa::Buffer;
use tp_base::{NoMemory, Put};

/// Where a column stands.
pub(crate) fn x(column: usize) -> u128
    ensures { result ≡ x column }
{
    90 + 26 * column as u128
}

/// Where a row stands.
pub(crate) fn y(row: usize) -> u128
    ensures { result ≡ y row }
{
    30 + 34 * row as u128
}

/// What an arrow from one row to another bends to.
pub(crate) fn bend(from: usize, to: usize) -> u128
    ensures { result ≡ bend from to }
{
    if from == to {
        34 * from as u128
    } else {
        30 + 17 * (from as u128 + to as u128)
    }
}

pub(crate) fn put_number(out: &mut Put, n: u128) -> Result<(), NoMemory>
    ensures { OnOk result (out.new ≡ out.old ++ decimal n) }
{
    let mut buffer = Buffer::new();
    out.bytes(buffer.format(n).as_bytes())
}

/// An attribute, behind its name with the first quote.
pub(crate) fn put_quoted(out: &mut Put, name: &[u8], n: u128) -> Result<(), NoMemory>
    ensures { OnOk result (out.new ≡ out.old ++ quoted name.now n) }
{
    out.bytes(name)?;
    put_number(out, n)?;
    out.bytes(b"'")
}

pub(crate) fn put_point(out: &mut Put, a: u128, b: u128) -> Result<(), NoMemory>
    ensures { OnOk result (out.new ≡ out.old ++ point a b) }
{
    put_number(out, a)?;
    out.bytes(b" ")?;
    put_number(out, b)
}
