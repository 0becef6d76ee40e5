use tp_base::Stamp;

/// The greatest of a fast quorum's proposals: decided at once, or to be put to the vote.
#[derive(Clone, Copy, Debug, PartialEq, Eq)]
pub enum FastChoice {
    Fast(Stamp),
    Slow(Stamp),
}
