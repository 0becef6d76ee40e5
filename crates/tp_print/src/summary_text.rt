ghost use Rattle.std.specs.Prelude.{◌≡◌, ◌++◌, IfOk, List, OnOk};
ghost use Rattle.tp_print.specs.Report.{open_count};
ghost use Rattle.tp_print.specs.Results.{AreFirst};
ghost use Rattle.tp_print.specs.Summary.{count_line, summary_text};
ghost use Rattle.tp_rules.specs.declared.event.Entry.{Entry};
ghost use Rattle.tp_script.specs.Accepted.{IsAccepted};

use crate::commands::commands_by_session;
use crate::executions::put_site_counts;
use crate::outcome::outcome_of;
use crate::replies::put_replies;
use crate::results::Results;
use crate::words::put_count;
use std::alloc::Global;
use tp_base::{Bytes, NoMemory, Put};
use tp_rules::Entries;
use tp_script::Script;

/// What the load of a number came to, as text: counts in place of a report's lines.
pub fn summary(alloc: Global, n: u32, script: &Script, entries: &Entries) -> Result<Bytes, NoMemory>
    requires { IsAccepted script.now }
    ensures { IfOk result (λ bytes. bytes ≡ summary_text n script.now entries.now) }
{
    let outcome = outcome_of(alloc, entries.as_slice())?;
    let commands = script.commands.len();
    let unanswered = count_open(alloc, script, &outcome.results)?;
    let mut out = Put::new(alloc);
    put_count_line(&mut out, b"load", u64::from(n))?;
    put_count_line(&mut out, b"commands", commands as u64)?;
    put_count_line(&mut out, b"answered", (commands - unanswered) as u64)?;
    put_site_counts(alloc, &mut out, &script.topology, &outcome.sites)?;
    put_count_line(&mut out, b"open", unanswered as u64)?;
    out.bytes(b"end\n")?;
    Ok(out.finish())
}

/// How many commands aren't answered: the replies are put down, counted, and let go.
fn count_open(alloc: Global, script: &Script, results: &Results) -> Result<usize, NoMemory>
    ensures { IfOk result (λ unanswered. (older : List Entry) → AreFirst older results.now
        → unanswered ≡ open_count script.now older) }
{
    let table = commands_by_session(alloc, script)?;
    let mut replies = Put::new(alloc);
    put_replies(alloc, &mut replies, script, results, table.as_slice())
}

fn put_count_line(out: &mut Put, first: &[u8], n: u64) -> Result<(), NoMemory>
    ensures { OnOk result (out.new ≡ out.old ++ count_line first.now n) }
{
    out.bytes(first)?;
    put_count(out, n)?;
    out.byte(b'\n')
}
