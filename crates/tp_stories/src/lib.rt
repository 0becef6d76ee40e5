//! The stories of single actors, told message by message, and nothing else. Everything here is for
//! tests.
#![tactic(auto)]

#[cfg(test)]
mod cue;
#[cfg(test)]
mod fast;
#[cfg(test)]
mod partitions;
#[cfg(test)]
mod promises;
#[cfg(test)]
mod recovery;
#[cfg(test)]
mod slow;
#[cfg(test)]
mod stage;
#[cfg(test)]
mod telling;
