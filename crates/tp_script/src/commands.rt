ghost use Rattle.std.specs.Option.{option_copied};
ghost use Rattle.std.specs.Prelude.{◌≡◌, ◌≤◌, ◌+◌, length};
ghost use Rattle.tp_base.specs.Tables.{nth};
ghost use Rattle.tp_script.specs.Accepted.{commands_by};
ghost use Rattle.tp_script.specs.Grammar.{command_line, next_number};
ghost use Rattle.tp_text.specs.Reading.{Gives};

use crate::fault::{Refusal, ScriptCause};
use crate::operations::read_ops;
use crate::script::Script;
use crate::words::{MOST, take_number};
use std::alloc::Global;
use tp_base::{CommandId, Rank, SessionId};
use tp_ops::Command;
use tp_text::Words;

fn home(homes: &[Rank], session: u32) -> Option<Rank>
    ensures { result ≡ nth homes.now session }
{
    if session == 0 {
        return None;
    }
    homes.get(session as usize - 1).copied()
}

#[tactic(auto, unfolding(crate::specs::Grammar::next_number))]
fn number_behind(commands: &[Command], session: u32) -> u64
    ensures next { result ≡ next_number commands.now session }
    ensures few { result ≤ length commands.now + 1 }
{
    let mut count = 0u64;
    for command in commands {
        if u32::from(command.id.session.0) == session {
            count += 1;
        }
    }
    count + 1
}

/// The words behind `command`.
#[tactic(auto, unfolding(crate::specs::Grammar::command_line))]
pub(crate) fn read_command(
    alloc: Global,
    script: &mut Script,
    words: &mut Words,
) -> Result<(), Refusal>
    requires { length script.old.homes ≤ 16 }
    ensures read { Gives (λ _. script.new) result (command_line script.old words.old) }
    ensures homes { script.new.homes ≡ script.old.homes }
{
    let session = take_number(words, 0, MOST)?;
    let (ops, count) = read_ops(alloc, words)?;
    let Some(home) = home(script.homes.as_slice(), session) else {
        return Err(Refusal::Cause(ScriptCause::Session));
    };
    if count > 16 {
        return Err(Refusal::Cause(ScriptCause::Limit {
            count: count as u64,
            limit: 16,
        }));
    }
    if script.commands.len() >= 1000 {
        return Err(Refusal::Cause(ScriptCause::Limit {
            count: 1001,
            limit: 1000,
        }));
    }
    let number = number_behind(script.commands.as_slice(), session);
    let id = CommandId {
        session: SessionId(session as u8),
        number: number as u32,
    };
    script.commands.add(Command { id, home, ops })?;
    Ok(())
}
