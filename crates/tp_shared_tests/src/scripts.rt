ghost use Rattle.std.specs.Prelude.{◌≡◌, ◌≤◌, IfOk, IfSome, length};
ghost use Rattle.tp_script.specs.Accepted.{commands_by};
ghost use Rattle.tp_shared_tests.specs.Small.{IsNew, IsSmall};

use std::alloc::Global;
use tp_base::{CommandId, Duplicate, NoMemory, PartitionId, Rank, Sequence, SessionId, Site};
use tp_ops::{Command, Op, Ops};
use tp_script::{Commands, PlanLine, Script};
use tp_session::Session;
use tp_topology::Topology;

/// One partition of three replicas, two sessions with a put each, and a site that crashes at once.
pub fn small(alloc: Global) -> Result<Option<Script>, NoMemory>
    ensures { IfOk result (λ o. IfSome o (λ script. IsSmall script × (length script.commands ≡ 2))) }
{
    let mut homes = Sequence::new(alloc);
    homes.add(Rank(1))?;
    homes.add(Rank(1))?;
    let mut commands = Sequence::new(alloc);
    commands.add(put(alloc, 1)?)?;
    commands.add(put(alloc, 2)?)?;
    let mut plan = Sequence::new(alloc);
    plan.add(PlanLine::Crash {
        site: SITE,
        after: 0,
    })?;
    let Ok(topology) = Topology::new(1, 3, 1) else {
        return Ok(None);
    };
    Ok(Some(Script {
        topology,
        homes,
        commands,
        plan,
        picks: Sequence::new(alloc),
    }))
}

/// The site that crashes.
pub const SITE: Site = Site {
    partition: PartitionId(1),
    rank: Rank(1),
};

fn put(alloc: Global, session: u8) -> Result<Command, NoMemory> {
    let mut ops = Sequence::new(alloc);
    let (mut key, mut value) = (Sequence::new(alloc), Sequence::new(alloc));
    key.add(0x61)?;
    value.add(0x31)?;
    ops.add(Op::Put { key, value })?;
    Ok(Command {
        id: CommandId {
            session: SessionId(session),
            number: 1,
        },
        home: Rank(1),
        ops: Ops::new(alloc, ops)?,
    })
}

/// A session of the script, with its own commands.
pub fn small_session(alloc: Global, script: &Script, n: u8) -> Result<Session, NoMemory>
    requires small { IsSmall script.now × (length script.now.commands ≡ 2) }
    requires low { 1 ≤ n }
    requires high { n ≤ 2 }
    ensures { IfOk result (λ session. IsNew script.now n session) }
{
    let id = SessionId(n);
    let commands = commands_of(alloc, script, id)?;
    Ok(Session::new(alloc, id, Rank(1), &script.topology, commands))
}

fn commands_of(alloc: Global, script: &Script, id: SessionId) -> Result<Commands, NoMemory>
    ensures { IfOk result (λ commands. commands ≡ commands_by id.0 script.now.commands) }
{
    let mut commands = Commands::new(alloc);
    for command in script.commands.as_slice() {
        if command.id.session == id {
            commands.add(command.copy()?)?;
        }
    }
    Ok(commands)
}
