use thiserror::Error;

/// Why an entry is illegal after those before it. Of several causes it is the first one here.
#[derive(Clone, Copy, Debug, PartialEq, Eq, Error)]
pub enum EntryCause {
    /// The actor isn't one of the script's shape and sessions.
    #[error("stranger")]
    Stranger,
    /// The actor's site has crashed.
    #[error("dead")]
    Dead,
    /// No earlier entry sent a message at that place.
    #[error("message")]
    Message,
    /// That message goes to another actor.
    #[error("addressee")]
    Addressee,
    /// The plan has it otherwise: a line is due, or none is; or of that message nothing is left.
    #[error("plan")]
    Plan,
    /// The actor may not make this step of its own now.
    #[error("notenabled")]
    NotEnabled,
    /// The messages sent aren't those of the rules: this is the first place, from 1, at which they
    /// differ.
    #[error("outputs {place}")]
    Outputs { place: u64 },
}

/// What a check finds.
#[derive(Clone, Copy, Debug, PartialEq, Eq)]
pub enum Verdict {
    /// The journal is a run of the script, of so many entries.
    Run { entries: u64 },
    /// It is none: the first illegal entry, numbered from 1, and why.
    No { entry: u64, cause: EntryCause },
}
