use tp_base::{ActorName, CommandId, Sequence};
use tp_wire::Message;

/// What an actor does by itself.
#[derive(Clone, Copy, Debug, PartialEq, Eq)]
pub enum Inner {
    /// A session submits its command of this number.
    Submit(u32),
    /// A process recovers a command.
    Recover(CommandId),
    /// A process announces its promises.
    Announce,
    /// An executor declares a command stable in its partition.
    Declare(CommandId),
    /// An executor executes a command.
    Execute(CommandId),
    /// A site crashes for good.
    Crash,
}

/// An actor's step. A message is named by the number of the entry that sent it, and its place among
/// that entry's outputs, both from 1.
#[derive(Clone, Copy, Debug, PartialEq, Eq)]
pub enum Event {
    /// The message is delivered.
    Deliver { entry: u64, place: u64 },
    /// The message is lost.
    Dropped { entry: u64, place: u64 },
    Inner(Inner),
}

/// The messages that an entry sends, in order.
pub type Outputs = Sequence<Message>;

/// One step of a run.
#[derive(Debug, Drop)]
pub struct Entry {
    pub actor: ActorName,
    pub event: Event,
    pub outputs: Outputs,
}

/// A journal: the entries of a run, in order, numbered from 1.
pub type Entries = Sequence<Entry>;

/// A message that was sent, named by entry and place.
#[derive(Debug, Drop)]
pub struct Parcel {
    pub entry: u64,
    pub place: u64,
    pub message: Message,
}

/// Messages that were sent, in order.
pub type Parcels = Sequence<Parcel>;

/// A step that may come next.
#[derive(Clone, Copy, Debug, PartialEq, Eq)]
pub struct Item {
    pub actor: ActorName,
    pub event: Event,
}
