// What is known of the shared journal. Values of these types stand in clauses alone.
use std::snapshot::Snapshot;
use tp_base::{ActorName, Sequence};
use tp_rules::Entries;
use tp_script::Script;

/// The script and the journal that the desks go on from.
pub struct Start {
    pub script: Script,
    pub journal: Entries,
}

/// What a desk knows. No value of it is made.
pub struct View {
    /// The actor whose entries it makes. The first desk has none.
    pub actor: Option<ActorName>,
    pub own: Entries,
    pub seen: Entries,
    pub holds: bool,
    /// It was joined, and is no more.
    pub spent: bool,
    /// The actors whose desks were split from this one.
    pub listed: Sequence<ActorName>,
    /// The own entries of the desks that were joined to this one.
    pub kept: Sequence<(ActorName, Entries)>,
    /// What was seen by desks that were joined.
    pub heard: Sequence<Entries>,
    pub opening: Start,
}

/// What the table is told when it is made: no copy of it is kept when the program runs.
#[derive(Drop)]
pub struct Terms {
    pub script: Snapshot<Script>,
    pub journal: Snapshot<Entries>,
}
