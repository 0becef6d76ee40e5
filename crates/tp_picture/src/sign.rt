ghost use Rattle.std.specs.Option.{option_copied};
ghost use Rattle.std.specs.Prelude.{◌≡◌};
ghost use Rattle.tp_picture.specs.Signs.{sign, sign_of, sign_of_event, sign_of_message, sign_of_step, submitted};

use tp_base::{ActorName, CommandId};
use tp_journal::output;
use tp_rules::{Entry, Event, Inner};
use tp_wire::{Body, Message};

/// The kinds of messages, and of an actor's own steps.
#[derive(Clone, Copy, Debug, PartialEq, Eq)]
pub enum Kind {
    Submit,
    Propose,
    Payload,
    ProposeAck,
    Bump,
    Consensus,
    ConsensusAck,
    Commit,
    Rec,
    RecAck,
    Promises,
    Committed,
    Stable,
    Result,
    Submits,
    Recovers,
    Announces,
    Declares,
    Executes,
    Crashes,
}

/// What is told of an event: its kind, and the command, the stamp and the ballot that it names.
#[derive(Clone, Copy, Debug, PartialEq, Eq)]
pub struct Sign {
    pub kind: Kind,
    pub id: Option<CommandId>,
    pub stamp: Option<u64>,
    pub ballot: Option<u64>,
}

fn of_command(kind: Kind, id: CommandId, stamp: Option<u64>, ballot: Option<u64>) -> Sign
    ensures { result ≡ sign kind (Some id) stamp ballot }
{
    Sign {
        kind,
        id: Some(id),
        stamp,
        ballot,
    }
}

/// What is told of a message.
#[tactic(auto, unfolding(crate::specs::Signs::sign_of))]
pub(crate) fn sign_of(body: &Body) -> Sign
    ensures { result ≡ sign_of body.now }
{
    match body {
        Body::MSubmit { command } => of_command(Kind::Submit, command.id, None, None),
        Body::MPropose { command, floor } => of_command(
            Kind::Propose,
            command.id,
            Some(floor.0),
            None,
        ),
        Body::MPayload { command } => of_command(Kind::Payload, command.id, None, None),
        Body::MProposeAck { id, stamp } => of_command(Kind::ProposeAck, *id, Some(stamp.0), None),
        Body::MBump { id, stamp } => of_command(Kind::Bump, *id, Some(stamp.0), None),
        Body::MConsensus {
            command,
            stamp,
            ballot,
        } => of_command(Kind::Consensus, command.id, Some(stamp.0), Some(*ballot)),
        Body::MConsensusAck { id, ballot } => of_command(
            Kind::ConsensusAck,
            *id,
            None,
            Some(*ballot),
        ),
        Body::MCommit {
            command,
            partition: _,
            stamp,
        } => of_command(Kind::Commit, command.id, Some(stamp.0), None),
        Body::MRec { command, ballot } => of_command(Kind::Rec, command.id, None, Some(*ballot)),
        Body::MRecAck {
            id,
            stamp,
            made: _,
            accepted: _,
            ballot,
        } => of_command(Kind::RecAck, *id, Some(stamp.0), Some(*ballot)),
        Body::MPromises {
            lo: _,
            hi,
            pairs: _,
        } => Sign {
            kind: Kind::Promises,
            id: None,
            stamp: Some(*hi),
            ballot: None,
        },
        Body::MCommitted { command, stamp } => {
            of_command(Kind::Committed, command.id, Some(stamp.0), None)
        }
        Body::MStable { id } => of_command(Kind::Stable, *id, None, None),
        Body::MResult {
            id,
            partition: _,
            answers: _,
        } => of_command(Kind::Result, *id, None, None),
    }
}

fn submitted(actor: ActorName, number: u32) -> Option<CommandId>
    ensures { result ≡ submitted actor number }
{
    match actor {
        ActorName::Session(session) => Some(CommandId { session, number }),
        ActorName::Process(_) => None,
        ActorName::Executor(_) => None,
    }
}

fn plain(kind: Kind, id: Option<CommandId>) -> Sign
    ensures { result ≡ sign kind id None None }
{
    Sign {
        kind,
        id,
        stamp: None,
        ballot: None,
    }
}

/// What is told of an actor's own step.
pub(crate) fn sign_of_step(actor: ActorName, step: Inner) -> Sign
    ensures { result ≡ sign_of_step actor step }
{
    match step {
        Inner::Submit(n) => plain(Kind::Submits, submitted(actor, n)),
        Inner::Recover(id) => plain(Kind::Recovers, Some(id)),
        Inner::Announce => plain(Kind::Announces, None),
        Inner::Declare(id) => plain(Kind::Declares, Some(id)),
        Inner::Execute(id) => plain(Kind::Executes, Some(id)),
        Inner::Crash => plain(Kind::Crashes, None),
    }
}

fn sign_of_message(message: Option<&Message>) -> Option<Sign>
    ensures { result ≡ sign_of_message (option_copied message.entry) }
{
    match message {
        Some(message) => Some(sign_of(&message.body)),
        None => None,
    }
}

/// What is told of an event.
pub(crate) fn sign_of_event(entries: &[Entry], actor: ActorName, event: Event) -> Option<Sign>
    ensures { result ≡ sign_of_event entries.now actor event }
{
    match event {
        Event::Deliver { entry, place } => sign_of_message(output(entries, entry, place)),
        Event::Dropped { entry, place } => sign_of_message(output(entries, entry, place)),
        Event::Inner(step) => Some(sign_of_step(actor, step)),
    }
}
