ghost use Rattle.std.specs.Prelude.{◌≡◌, IfOk};
ghost use Rattle.tp_print.specs.Report.{report_text};

use crate::commands::commands_by_session;
use crate::line::put_line;
use crate::orders::put_orders;
use crate::outcome::outcome_of;
use crate::replies::put_replies;
use crate::words::put_count;
use std::alloc::Global;
use tp_base::{Bytes, NoMemory, Put};
use tp_rules::Entries;
use tp_script::Script;

/// What a run came to, as text.
pub fn report(alloc: Global, script: &Script, entries: &Entries) -> Result<Bytes, NoMemory>
    ensures { IfOk result (λ bytes. bytes ≡ report_text script.now entries.now) }
{
    let outcome = outcome_of(alloc, entries.as_slice())?;
    let table = commands_by_session(alloc, script)?;
    let mut out = Put::new(alloc);
    out.bytes(b"report 1\n")?;
    let unanswered = put_replies(alloc, &mut out, script, &outcome.results, table.as_slice())?;
    put_orders(alloc, &mut out, &script.topology, &outcome.sites)?;
    put_line(&mut out, outcome.line.as_slice())?;
    out.bytes(b"open")?;
    put_count(&mut out, unanswered as u64)?;
    out.bytes(b"\nend\n")?;
    Ok(out.finish())
}
