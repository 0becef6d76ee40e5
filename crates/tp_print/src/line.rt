ghost use Rattle.std.specs.List.{flat_map};
ghost use Rattle.std.specs.Prelude.{◌≡◌, ◌++◌, codes, map, OnOk};
ghost use Rattle.tp_print.specs.Report.{spaced, text_line};
ghost use Rattle.tp_text.specs.Names.{id_word};

use crate::words::put_spaced_id;
use tp_base::{CommandId, NoMemory, Put};

fn put_ids(out: &mut Put, ids: &[CommandId]) -> Result<(), NoMemory>
    ensures { OnOk result (out.new ≡ out.old ++ flat_map spaced (map id_word ids.now)) }
{
    for id in ids {
        put_spaced_id(out, *id)?;
    }
    Ok(())
}

/// The line of commands.
pub fn put_line(out: &mut Put, ids: &[CommandId]) -> Result<(), NoMemory>
    ensures { OnOk result (out.new ≡ out.old ++ text_line (codes "line") (map id_word ids.now)) }
{
    out.bytes(b"line")?;
    put_ids(out, ids)?;
    out.byte(b'\n')
}
