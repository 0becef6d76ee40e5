//! An executor and a session, one step at a time.

ghost use Rattle.std.specs.Prelude.{◌≡◌, ◌≤◌, ◌<◌, ◌^◌, List, false, IfOk, OnOk};
ghost use Rattle.tp_ops.specs.Limits.{IsCommand};
ghost use Rattle.tp_rules.specs.Acts.{Act};
ghost use Rattle.tp_rules.specs.Addresses.{message, site};
ghost use Rattle.tp_session.specs.States.{Stands};
ghost use Rattle.tp_wire.specs.Ranges.{IsInRange};

use std::alloc::Global;
use std::test::Fail;
use tp_base::{
    ActorName, Bytes, CommandId, NoMemory, Pairs, PartitionId, Rank, Sequence, SessionId, Site,
    Stamp,
};
use tp_executor::{Executor, Why};
use tp_ops::{Answer, Answers, Command, Op, Ops};
use tp_rules::{Actor, Inner};
use tp_session::Session;
use tp_topology::Topology;
use tp_wire::{Body, Message};

const ID: CommandId = CommandId {
    session: SessionId(1),
    number: 1,
};

const SITE: Site = Site {
    partition: PartitionId(1),
    rank: Rank(1),
};

/// `get 62`, with home 1.
fn command(alloc: Global) -> Result<Command, NoMemory>
    ensures { IfOk result IsCommand }
{
    let mut key: Bytes = Sequence::new(alloc);
    key.add(b'b')?;
    let mut ops = Sequence::new(alloc);
    ops.add(Op::Get { key })?;
    Ok(Command {
        id: ID,
        home: Rank(1),
        ops: Ops::new(alloc, ops)?,
    })
}

fn takes(executor: &mut Executor, rank: u8, body: Body) -> Result<(), NoMemory>
    requires unspent { executor.old.spent ≡ false }
    requires range { IsInRange (message (ActorName.Process (site 1 rank)) (ActorName.Executor (site 1 1)) body) }
    ensures unspent { OnOk result (executor.new.spent ≡ false) }
{
    let message = Message {
        from: ActorName::Process(Site {
            partition: PartitionId(1),
            rank: Rank(rank),
        }),
        to: ActorName::Executor(SITE),
        body,
    };
    executor.deliver(&message)?;
    Ok(())
}

/// A rank tells that its promises up to a number are detached.
fn tells(executor: &mut Executor, alloc: Global, rank: u8, hi: u64) -> Result<(), NoMemory>
    requires unspent { executor.old.spent ≡ false }
    requires from { 1 ≤ rank }
    requires to { rank ≤ 7 }
    requires some { 1 ≤ hi }
    requires few { hi < 2 ^ 48 }
    ensures unspent { OnOk result (executor.new.spent ≡ false) }
{
    let body = Body::MPromises {
        lo: 0,
        hi,
        pairs: Pairs::new(alloc, Sequence::new(alloc))?,
    };
    takes(executor, rank, body)
}

#[test]
fn stable_at_three_of_four_replicas(rt: HostRuntime) -> Result<(), Fail> {
    let topology = Topology::new(1, 4, 1)?;
    let mut executor = Executor::new(rt.alloc(), &topology, SITE)?;
    assert!(rt; executor.may_execute() == Err(Why::Nothing));
    let committed = Body::MCommitted {
        command: command(rt.alloc())?,
        stamp: Stamp(7),
    };
    takes(&mut executor, 1, committed)?;
    tells(&mut executor, rt.alloc(), 1, 7)?;
    tells(&mut executor, rt.alloc(), 2, 7)?;
    tells(&mut executor, rt.alloc(), 3, 5)?;
    let why = Why::NotStable {
        stamp: Stamp(7),
        threshold: 5,
    };
    assert!(rt; executor.may_execute() == Err(why));
    tells(&mut executor, rt.alloc(), 3, 7)?;
    assert!(rt; executor.may_execute() == Ok(ID));
    Ok(())
}

/// Makes the step that the session may make, and counts the messages sent.
fn submits(session: &mut Session) -> Result<usize, NoMemory>
    requires unspent { session.old.spent ≡ false }
    requires stands { (acts : List Act) × Stands session.old acts }
    ensures unspent { OnOk result (session.new.spent ≡ false) }
{
    if let Some(Inner::Submit(n)) = session.next_inner() {
        let outputs = session.fire(Inner::Submit(n))?;
        return Ok(outputs.len());
    }
    Ok(0)
}

/// The result of the command: its key has no value.
fn result(alloc: Global) -> Result<Message, NoMemory>
    ensures { IfOk result IsInRange }
{
    let mut answers = Sequence::new(alloc);
    answers.add(Answer::Missing)?;
    Ok(Message {
        from: ActorName::Executor(SITE),
        to: ActorName::Session(SessionId(1)),
        body: Body::MResult {
            id: ID,
            partition: PartitionId(1),
            answers: Answers::new(alloc, answers)?,
        },
    })
}

fn is_missing(answers: Option<Answers>) -> bool {
    match answers {
        Some(answers) => matches!(answers.as_slice(), [Answer::Missing]),
        None => false,
    }
}

#[test]
fn a_session_submits_and_replies(rt: HostRuntime) -> Result<(), Fail> {
    let topology = Topology::new(1, 3, 1)?;
    let mut commands = Sequence::new(rt.alloc());
    commands.add(command(rt.alloc())?)?;
    let mut session = Session::new(rt.alloc(), SessionId(1), Rank(1), &topology, commands);
    assert_eq!(rt; submits(&mut session)?, 1);
    assert!(rt; session.reply(1)?.is_none());
    session.deliver(&result(rt.alloc())?)?;
    assert!(rt; is_missing(session.reply(1)?));
    Ok(())
}
