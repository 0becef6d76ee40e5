use tp_base::{ActorName, CommandId, Sequence};

/// What is drawn of a journal: the entries from a number to another, of one command or of all, and of
/// some actors, or of all where none is named.
#[derive(Debug, Drop)]
pub struct View {
    pub from: u64,
    pub to: u64,
    pub only: Option<CommandId>,
    pub actors: Sequence<ActorName>,
}
