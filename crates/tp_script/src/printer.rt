ghost use Rattle.std.specs.Prelude.{◌≡◌, ◌∷◌, [], codes, map, IfOk, OnOk};
ghost use Rattle.std.specs.Fmt.{decimal};
ghost use Rattle.tp_script.specs.Kinds.{value_word};
ghost use Rattle.tp_script.specs.Print.{command_words, more_words, op_words, ops_words, pick_words, plan_words, session_lines, session_words, shape_words, text_of};
ghost use Rattle.tp_text.specs.Names.{actor_word};
ghost use Rattle.tp_text.specs.Writing.{ended, with_lines, with_word, with_words};

use crate::script::{PlanLine, Script};
use std::alloc::Global;
use tp_base::{ActorName, Bytes, NoMemory, Rank};
use tp_ops::{Command, Op};
use tp_text::Text;
use tp_topology::Topology;

fn put_shape(text: &mut Text, topology: &Topology) -> Result<(), NoMemory>
    ensures { OnOk result (text.new ≡ ended (with_words text.old (shape_words topology.now))) }
{
    text.word(b"shape")?;
    text.number(u64::from(topology.partitions()))?;
    text.number(u64::from(topology.replicas()))?;
    text.number(u64::from(topology.failures()))?;
    text.end_line()
}

fn put_session(text: &mut Text, number: u64, home: Rank) -> Result<(), NoMemory>
    ensures { OnOk result (text.new ≡ ended (with_words text.old (session_words number home))) }
{
    text.word(b"session")?;
    text.number(number)?;
    text.number(u64::from(home.0))?;
    text.end_line()
}

fn put_sessions(text: &mut Text, homes: &[Rank]) -> Result<(), NoMemory>
    ensures { OnOk result (text.new ≡ with_lines text.old (session_lines 1 homes.now)) }
{
    let mut number = 0u64;
    for home in homes {
        number += 1;
        put_session(text, number, *home)?;
    }
    Ok(())
}

fn put_value(text: &mut Text, value: &[u8]) -> Result<(), NoMemory>
    ensures { OnOk result (text.new ≡ with_word text.old (value_word value.now)) }
{
    match value {
        [] => text.word(b"-"),
        [_, ..] => text.hex(value),
    }
}

fn put_op(text: &mut Text, op: &Op) -> Result<(), NoMemory>
    ensures { OnOk result (text.new ≡ with_words text.old (op_words op.now)) }
{
    match op {
        Op::Get { key } => {
            text.word(b"get")?;
            text.hex(key.as_slice())
        }
        Op::Put { key, value } => {
            text.word(b"put")?;
            text.hex(key.as_slice())?;
            put_value(text, value.as_slice())
        }
        Op::Del { key } => {
            text.word(b"del")?;
            text.hex(key.as_slice())
        }
        Op::Cas { key, old, new } => {
            text.word(b"cas")?;
            text.hex(key.as_slice())?;
            put_value(text, old.as_slice())?;
            put_value(text, new.as_slice())
        }
    }
}

// Operations behind others.
fn put_more(text: &mut Text, ops: &[Op]) -> Result<(), NoMemory>
    ensures { OnOk result (text.new ≡ with_words text.old (more_words ops.now)) }
{
    for op in ops {
        text.word(b";")?;
        put_op(text, op)?;
    }
    Ok(())
}

fn put_ops(text: &mut Text, ops: &[Op]) -> Result<(), NoMemory>
    ensures { OnOk result (text.new ≡ with_words text.old (ops_words ops.now)) }
{
    match ops {
        [] => Ok(()),
        [first, others @ ..] => {
            put_op(text, first)?;
            put_more(text, others)
        }
    }
}

fn put_command(text: &mut Text, command: &Command) -> Result<(), NoMemory>
    ensures { OnOk result (text.new ≡ ended (with_words text.old (command_words command.now))) }
{
    text.word(b"command")?;
    text.number(u64::from(command.id.session.0))?;
    put_ops(text, command.ops.as_slice())?;
    text.end_line()
}

fn put_commands(text: &mut Text, commands: &[Command]) -> Result<(), NoMemory>
    ensures { OnOk result (text.new ≡ with_lines text.old (map command_words commands.now)) }
{
    for command in commands {
        put_command(text, command)?;
    }
    Ok(())
}

fn put_after(text: &mut Text, after: u32) -> Result<(), NoMemory>
    ensures { OnOk result (text.new ≡ with_words text.old (codes "after" ∷ decimal after ∷ [])) }
{
    text.word(b"after")?;
    text.number(u64::from(after))
}

fn put_fate(
    text: &mut Text,
    name: &[u8],
    from: ActorName,
    to: ActorName,
    ordinal: u32,
) -> Result<(), NoMemory>
    ensures { OnOk result (text.new ≡ with_words text.old
        (name.now ∷ actor_word from ∷ actor_word to ∷ decimal ordinal ∷ [])) }
{
    text.word(name)?;
    text.actor(from)?;
    text.actor(to)?;
    text.number(u64::from(ordinal))
}

fn put_plan_words(text: &mut Text, line: &PlanLine) -> Result<(), NoMemory>
    ensures { OnOk result (text.new ≡ with_words text.old (plan_words line.now)) }
{
    match *line {
        PlanLine::Crash { site, after } => {
            text.word(b"crash")?;
            text.site(site)?;
            put_after(text, after)
        }
        PlanLine::Recover { site, id, after } => {
            text.word(b"recover")?;
            text.site(site)?;
            text.id(id)?;
            put_after(text, after)
        }
        PlanLine::Lose { from, to, ordinal } => put_fate(text, b"drop", from, to, ordinal),
        PlanLine::Repeat {
            from,
            to,
            ordinal,
            times,
        } => {
            put_fate(text, b"repeat", from, to, ordinal)?;
            text.number(u64::from(times))
        }
        PlanLine::RepeatAll { times } => {
            text.word(b"repeat")?;
            text.word(b"all")?;
            text.number(u64::from(times))
        }
    }
}

fn put_plan(text: &mut Text, plan: &[PlanLine]) -> Result<(), NoMemory>
    ensures { OnOk result (text.new ≡ with_lines text.old (map plan_words plan.now)) }
{
    for line in plan {
        put_plan_words(text, line)?;
        text.end_line()?;
    }
    Ok(())
}

fn put_picks(text: &mut Text, picks: &[u32]) -> Result<(), NoMemory>
    ensures { OnOk result (text.new ≡ with_lines text.old (map pick_words picks.now)) }
{
    for pick in picks {
        text.word(b"pick")?;
        text.number(u64::from(*pick))?;
        text.end_line()?;
    }
    Ok(())
}

/// The one text that is read as the script.
pub fn print_script(alloc: Global, script: &Script) -> Result<Bytes, NoMemory>
    ensures { IfOk result (λ bytes. bytes ≡ text_of script.now) }
{
    let mut text = Text::new(alloc);
    text.header(b"tempo")?;
    put_shape(&mut text, &script.topology)?;
    put_sessions(&mut text, script.homes.as_slice())?;
    put_commands(&mut text, script.commands.as_slice())?;
    put_plan(&mut text, script.plan.as_slice())?;
    put_picks(&mut text, script.picks.as_slice())?;
    text.end()?;
    Ok(text.finish())
}
