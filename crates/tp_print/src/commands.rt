ghost use Rattle.std.specs.Option.{option_copied, option_map, option_or};
ghost use Rattle.std.specs.Prelude.{◌≡◌, ◌==◌, ◌∷◌, ◌++◌, [], ◌<◌, ℕ, suc, cond, length, slice_get, Some, None, List, IfOk, OnOk};
ghost use Rattle.tp_ops.specs.declared.command.Command.{Command};
ghost use Rattle.tp_print.specs.Commands.{AreNumbered};

use std::alloc::Global;
use std::marker::Model;
use tp_base::NoMemory;
use tp_ops::Command;
use tp_script::Script;

/// The commands of one session by their numbers: the first of each number, from 1.
#[derive(Drop)]
pub struct SessionCommands<'a> {
    commands: Vec<Option<&'a Command>>,
}

impl<'a> Model for SessionCommands<'a> {
    ghost use Rattle.std.specs.Option.{option_copied};
    ghost use Rattle.std.specs.Prelude.{List, Option, map};
    ghost use Rattle.tp_ops.specs.declared.command.Command.{Command};

    ghost Value = { List (Option Command) };

    ghost view = { λ n. map option_copied n.commands.items };
}

impl<'a> SessionCommands<'a> {
    /// Without numbers. It takes no memory.
    fn new(alloc: Global) -> Self
        ensures { result ≡ [] }
    {
        SessionCommands {
            commands: Vec::new(alloc),
        }
    }

    /// Makes a place for one number more.
    fn add_place(&mut self) -> Result<(), NoMemory>
        ensures { OnOk result (self.new ≡ self.old ++ None ∷ []) }
    {
        self.commands.push(None)?;
        Ok(())
    }

    /// Puts a command at its number, where there is that number and no command has it.
    fn put(&mut self, command: &'a Command)
        ensures count { length self.new ≡ length self.old }
        ensures places { (i : ℕ) → slice_get self.new i ≡ option_map
            (λ before. option_or before (cond (command.now.id.number == suc i) (Some command.now) None))
            (slice_get self.old i) }
    {
        if command.id.number == 0 {
            return;
        }
        let place = command.id.number as usize - 1;
        if self.commands.len() <= place {
            return;
        }
        if self.commands[place].is_some() {
            return;
        }
        self.commands[place] = Some(command);
    }

    pub fn len(&self) -> usize
        ensures { result ≡ length self.now }
    {
        self.commands.len()
    }

    pub fn at(&self, i: usize) -> Option<&Command>
        requires { i < length self.now }
        ensures { slice_get self.now i ≡ Some (option_copied result) }
    {
        let commands = self.commands.as_slice();
        commands[i]
    }
}

/// So many sessions without commands.
fn no_commands<'a>(alloc: Global, sessions: usize) -> Result<Vec<SessionCommands<'a>>, NoMemory>
    ensures { IfOk result (λ table. AreNumbered sessions [] [] table.items) }
{
    let mut table = Vec::new(alloc);
    for _session in 0..sessions {
        table.push(SessionCommands::new(alloc))?;
    }
    Ok(table)
}

/// Makes a place for a command at its session, where there is that session.
fn make_place(table: &mut Vec<SessionCommands>, command: &Command) -> Result<(), NoMemory>
    ensures { OnOk result ((sessions : ℕ) (counted : List Command) → AreNumbered sessions counted [] table.old.items
        → AreNumbered sessions (counted ++ command.now ∷ []) [] table.new.items) }
{
    let session = usize::from(command.id.session.0);
    if session == 0 {
        return Ok(());
    }
    if table.len() < session {
        return Ok(());
    }
    table[session - 1].add_place()?;
    Ok(())
}

/// Puts a command at its session and number, where there is that place and it is empty.
fn put_command<'a>(table: &mut Vec<SessionCommands<'a>>, command: &'a Command)
    ensures { (sessions : ℕ) (counted : List Command) (placed : List Command)
        → AreNumbered sessions counted placed table.old.items
        → AreNumbered sessions counted (placed ++ command.now ∷ []) table.new.items }
{
    let session = usize::from(command.id.session.0);
    if session == 0 {
        return;
    }
    if table.len() < session {
        return;
    }
    table[session - 1].put(command);
}

/// A place for each command of a script, by session and number.
fn empty_places<'a>(alloc: Global, script: &Script) -> Result<Vec<SessionCommands<'a>>, NoMemory>
    ensures { IfOk result (λ table. AreNumbered (length script.now.homes) script.now.commands [] table.items) }
{
    let mut table = no_commands(alloc, script.homes.len())?;
    for command in script.commands.as_slice() {
        make_place(&mut table, command)?;
    }
    Ok(table)
}

/// The commands of a script by session and number.
pub fn commands_by_session<'a>(
    alloc: Global,
    script: &'a Script,
) -> Result<Vec<SessionCommands<'a>>, NoMemory>
    ensures { IfOk result (λ table. AreNumbered (length script.now.homes) script.now.commands script.now.commands
        table.items) }
{
    let mut table = empty_places(alloc, script)?;
    for command in script.commands.as_slice() {
        put_command(&mut table, command);
    }
    Ok(table)
}
