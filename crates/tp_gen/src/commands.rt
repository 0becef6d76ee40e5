ghost use Rattle.std.specs.Prelude.{◌≡◌, ◌≤◌, map, IfOk};
ghost use Rattle.tp_base.specs.Limits.{IsFrom};
ghost use Rattle.tp_gen.specs.Generator.{command, home, letter, ops, value};
ghost use Rattle.tp_topology.specs.Counting.{up_to};

use std::alloc::Global;
use tp_base::{Bytes, CommandId, NoMemory, Rank, Sequence, SessionId};
use tp_ops::{Command, Op, Ops};
use tp_script::Commands;

const SESSIONS: u8 = 4;

const COMMANDS: u8 = 200;

/// The home of a session.
pub fn home(session: u8) -> Rank
    requires { 1 ≤ session }
    ensures { result ≡ home session }
{
    Rank((session - 1) % 3 + 1)
}

/// The commands of the script of a number.
pub fn commands(alloc: Global, n: u32) -> Result<Commands, NoMemory>
    ensures { IfOk result (λ commands. commands ≡ map (command n) (up_to 200)) }
{
    let mut commands = Commands::new(alloc);
    for i in 1..COMMANDS + 1 {
        commands.add(command(alloc, n, i)?)?;
    }
    Ok(commands)
}

fn command(alloc: Global, n: u32, i: u8) -> Result<Command, NoMemory>
    requires { IsFrom 1 200 i }
    ensures { IfOk result (λ made. made ≡ command n i) }
{
    let session = (i - 1) % SESSIONS + 1;
    Ok(Command {
        id: CommandId {
            session: SessionId(session),
            number: u32::from((i - 1) / SESSIONS + 1),
        },
        home: home(session),
        ops: ops(alloc, n, i)?,
    })
}

fn ops(alloc: Global, n: u32, i: u8) -> Result<Ops, NoMemory>
    ensures { IfOk result (λ made. made ≡ ops n i) }
{
    let x = ((u64::from(n) + 7 * u64::from(i)) % 16) as u8;
    let key = letter(alloc, x)?;
    let mut ops = Sequence::new(alloc);
    match i % 5 {
        1 => ops.add(Op::Put {
            key,
            value: value(alloc, i)?,
        })?,
        2 => ops.add(Op::Get { key })?,
        3 => ops.add(Op::Cas {
            key,
            old: value(alloc, 1)?,
            new: value(alloc, i)?,
        })?,
        4 => ops.add(Op::Del { key })?,
        _ => {
            ops.add(Op::Put {
                key,
                value: value(alloc, i)?,
            })?;
            ops.add(Op::Get {
                key: letter(alloc, x + 1)?,
            })?
        }
    }
    Ops::new(alloc, ops)
}

fn letter(alloc: Global, x: u8) -> Result<Bytes, NoMemory>
    requires { x ≤ 16 }
    ensures { IfOk result (λ key. key ≡ letter x) }
{
    Ok(Bytes::from_vec(vec![in alloc; b'a' + x]?))
}

fn value(alloc: Global, i: u8) -> Result<Bytes, NoMemory>
    ensures { IfOk result (λ bytes. bytes ≡ value i) }
{
    Ok(Bytes::from_vec(vec![in alloc; 0, i]?))
}
