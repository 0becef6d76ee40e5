ghost use Rattle.std.specs.Prelude.{◌≡◌, ◌++◌, OnOk};
ghost use Rattle.std.specs.Fmt.{decimal};
ghost use Rattle.tp_print.specs.Report.{answer_word, spaced, stamped_word};
ghost use Rattle.tp_text.specs.Names.{id_word, site_word};

use std::alloc::Global;
use tp_base::{CommandId, NoMemory, Put, Site};
use tp_ops::Answer;
use tp_text::{put_id, put_number, put_site};

pub fn put_spaced_id(out: &mut Put, id: CommandId) -> Result<(), NoMemory>
    ensures { OnOk result (out.new ≡ out.old ++ spaced (id_word id)) }
{
    out.bytes(b" ")?;
    put_id(out, id)
}

pub fn put_spaced_site(out: &mut Put, site: Site) -> Result<(), NoMemory>
    ensures { OnOk result (out.new ≡ out.old ++ spaced (site_word site)) }
{
    out.bytes(b" ")?;
    put_site(out, site)
}

pub fn put_count(out: &mut Put, n: u64) -> Result<(), NoMemory>
    ensures { OnOk result (out.new ≡ out.old ++ spaced (decimal n)) }
{
    out.bytes(b" ")?;
    put_number(out, n)
}

/// An executed command with its stamp.
pub fn put_stamped(out: &mut Put, id: CommandId, stamp: u64) -> Result<(), NoMemory>
    ensures { OnOk result (out.new ≡ out.old ++ spaced (stamped_word id stamp)) }
{
    put_spaced_id(out, id)?;
    out.bytes(b"@")?;
    put_number(out, stamp)
}

pub fn put_answer(alloc: Global, out: &mut Put, answer: &Answer) -> Result<(), NoMemory>
    ensures { OnOk result (out.new ≡ out.old ++ spaced (answer_word answer.now)) }
{
    match answer {
        Answer::Missing => out.bytes(b" none"),
        Answer::Value(value) => {
            out.bytes(b" some:")?;
            out.bytes(hex::encode(alloc, value.as_slice())?.as_bytes())
        }
        Answer::Yes => out.bytes(b" yes"),
        Answer::No => out.bytes(b" no"),
    }
}
