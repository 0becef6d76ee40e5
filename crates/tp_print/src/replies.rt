ghost use Rattle.std.specs.Option.{option_copied};
ghost use Rattle.std.specs.Prelude.{◌≡◌, ◌≤◌, ◌++◌, ℕ, suc, List, is_none, is_some, length, map, not, reverse, IfOk, OnOk};
ghost use Rattle.tp_base.specs.declared.names.CommandId.{CommandId};
ghost use Rattle.tp_print.specs.Commands.{AreNumbered, IsRow};
ghost use Rattle.tp_print.specs.Replies.{lines_of, open_of};
ghost use Rattle.tp_print.specs.Report.{open_count, reply_line, reply_lines};
ghost use Rattle.tp_print.specs.Results.{AreFirst};
ghost use Rattle.tp_rules.specs.Outcome.{command_of, reply_to};
ghost use Rattle.tp_rules.specs.declared.event.Entry.{Entry};

use crate::commands::SessionCommands;
use crate::first_results::FirstResults;
use crate::reply::put_reply;
use crate::results::Results;
use std::alloc::Global;
use tp_base::{NoMemory, Put};
use tp_ops::Command;
use tp_script::Script;

/// The line of a place's reply, where there is one. Tells whether there is.
fn put_place(
    alloc: Global,
    out: &mut Put,
    script: &Script,
    results: &Results,
    command: Option<&Command>,
) -> Result<bool, NoMemory>
    ensures line { OnOk result ((older : List Entry) (id : CommandId) → AreFirst older results.now
        → option_copied command.entry ≡ command_of script.now id
        → out.new ≡ out.old ++ reply_line id (reply_to script.now older id)) }
    ensures told { IfOk result (λ told. (older : List Entry) (id : CommandId) → AreFirst older results.now
        → option_copied command.entry ≡ command_of script.now id → told ≡ is_some (reply_to script.now older id)) }
{
    let Some(command) = command else {
        return Ok(false);
    };
    let none = FirstResults::new();
    let first = results.get(&command.id).unwrap_or(&none);
    let told = put_reply(alloc, out, script, command, first)?;
    Ok(told)
}

/// The lines of a session's replies. Gives how many of its commands aren't answered.
fn put_session(
    alloc: Global,
    out: &mut Put,
    script: &Script,
    results: &Results,
    commands: &SessionCommands,
) -> Result<usize, NoMemory>
    ensures lines { OnOk result ((older : List Entry) (s : ℕ) → AreFirst older results.now
        → IsRow script.now s commands.now → out.new ≡ out.old ++ lines_of script.now older s) }
    ensures unanswered { IfOk result (λ unanswered. (older : List Entry) (s : ℕ) → AreFirst older results.now
        → IsRow script.now s commands.now → unanswered ≡ length (open_of script.now older s)) }
    ensures few { IfOk result (λ unanswered. unanswered ≤ length commands.now) }
{
    let mut unanswered = 0usize;
    for i in 0..commands.len() {
        let told = put_place(alloc, out, script, results, commands.at(i))?;
        if !told {
            unanswered += 1;
        }
    }
    Ok(unanswered)
}

/// The lines of all replies. Gives how many commands aren't answered.
pub fn put_replies(
    alloc: Global,
    out: &mut Put,
    script: &Script,
    results: &Results,
    table: &[SessionCommands],
) -> Result<usize, NoMemory>
    requires { AreNumbered (length script.now.homes) script.now.commands script.now.commands table.now }
    ensures lines { OnOk result ((older : List Entry) → AreFirst older results.now
        → out.new ≡ out.old ++ reply_lines script.now older) }
    ensures unanswered { IfOk result (λ unanswered. (older : List Entry) → AreFirst older results.now
        → unanswered ≡ open_count script.now older) }
{
    // No more commands are open than there are, so the count fits.
    let _most = script.commands.len();
    let mut unanswered = 0usize;
    for i in 0..table.len() {
        unanswered += put_session(alloc, out, script, results, &table[i])?;
    }
    Ok(unanswered)
}
