use tp_base::{ActorName, CommandId, Picks, Rank, Sequence, Site};
use tp_ops::Command;
use tp_topology::Topology;

/// The home ranks of the sessions, that of session 1 first.
pub type Homes = Sequence<Rank>;

/// Commands in the order in which a script gives them.
pub type Commands = Sequence<Command>;

/// Plan lines in the order in which a script gives them.
pub type Plan = Sequence<PlanLine>;

/// What a run is made of.
#[derive(Debug, Drop)]
pub struct Script {
    pub topology: Topology,
    pub homes: Homes,
    pub commands: Commands,
    pub plan: Plan,
    pub picks: Picks,
}

/// One thing that goes wrong. `after` counts the entries of the site's process, `ordinal` the
/// messages from one actor to another, from 1.
#[derive(Clone, Copy, Debug, PartialEq, Eq)]
pub enum PlanLine {
    /// The site crashes for good.
    Crash {
        site: Site,
        after: u32,
    },
    /// The site's process recovers a command.
    Recover {
        site: Site,
        id: CommandId,
        after: u32,
    },
    /// A message is lost.
    Lose {
        from: ActorName,
        to: ActorName,
        ordinal: u32,
    },
    /// A message comes several times.
    Repeat {
        from: ActorName,
        to: ActorName,
        ordinal: u32,
        times: u8,
    },
    /// Each message comes several times.
    RepeatAll {
        times: u8,
    },
}
