ghost use Rattle.std.specs.Prelude.{◌≡◌, ◌≤◌, ◌<◌, ◌+◌, ◌-◌, ◌^◌, IfOk};
ghost use Rattle.tp_wire.specs.Meaning.{executor_at, id_at, made_at, most, number_at, pair_at, pairs_at, pairs_from, partition_at, process_at, session_at, site_at, stamp_at};
ghost use Rattle.tp_wire.specs.Reading.{Gives};

use crate::fault::WireError;
use crate::fields::{take_byte, take_eight, take_four};
use std::alloc::Global;
use tp_base::{
    ActorName, CommandId, Cut, Made, Pair, Pairs, PartitionId, Rank, Sequence, SessionId, Site,
    Stamp,
};

/// The greatest stamp and the greatest ballot.
pub(crate) const MOST: u64 = (1 << 48) - 1;

#[tactic(auto, unfolding(crate::specs::Meaning::site_at))]
fn take_site(cut: &mut Cut) -> Result<Site, WireError>
    ensures { Gives (λ site. (site, cut.new)) result (site_at cut.old) }
{
    let partition = take_byte(cut, 1, 4)?;
    let rank = take_byte(cut, 1, 7)?;
    Ok(Site {
        partition: PartitionId(partition),
        rank: Rank(rank),
    })
}

#[tactic(auto, unfolding(crate::specs::Meaning::process_at))]
pub(crate) fn take_process(cut: &mut Cut) -> Result<ActorName, WireError>
    ensures { Gives (λ name. (name, cut.new)) result (process_at cut.old) }
{
    let site = take_site(cut)?;
    Ok(ActorName::Process(site))
}

#[tactic(auto, unfolding(crate::specs::Meaning::executor_at))]
pub(crate) fn take_executor(cut: &mut Cut) -> Result<ActorName, WireError>
    ensures { Gives (λ name. (name, cut.new)) result (executor_at cut.old) }
{
    let site = take_site(cut)?;
    Ok(ActorName::Executor(site))
}

#[tactic(auto, unfolding(crate::specs::Meaning::session_at))]
pub(crate) fn take_session(cut: &mut Cut) -> Result<ActorName, WireError>
    ensures { Gives (λ name. (name, cut.new)) result (session_at cut.old) }
{
    let session = take_byte(cut, 1, 16)?;
    Ok(ActorName::Session(SessionId(session)))
}

#[tactic(auto, unfolding(crate::specs::Meaning::id_at))]
pub(crate) fn take_id(cut: &mut Cut) -> Result<CommandId, WireError>
    ensures { Gives (λ id. (id, cut.new)) result (id_at cut.old) }
{
    let session = take_byte(cut, 1, 16)?;
    let number = take_four(cut, 1, 1000)?;
    Ok(CommandId {
        session: SessionId(session),
        number,
    })
}

#[tactic(auto, unfolding(crate::specs::Meaning::partition_at))]
pub(crate) fn take_partition(cut: &mut Cut) -> Result<PartitionId, WireError>
    ensures { Gives (λ partition. (partition, cut.new)) result (partition_at cut.old) }
{
    let partition = take_byte(cut, 1, 4)?;
    Ok(PartitionId(partition))
}

#[tactic(auto, unfolding(crate::specs::Meaning::stamp_at))]
pub(crate) fn take_stamp(cut: &mut Cut) -> Result<Stamp, WireError>
    ensures { Gives (λ stamp. (stamp, cut.new)) result (stamp_at cut.old) }
{
    let stamp = take_eight(cut, 1, MOST)?;
    Ok(Stamp(stamp))
}

pub(crate) fn take_ballot(cut: &mut Cut) -> Result<u64, WireError>
    ensures { Gives (λ ballot. (ballot, cut.new)) result (number_at 8 1 most cut.old) }
{
    take_eight(cut, 1, MOST)
}

#[tactic(auto, unfolding(crate::specs::Meaning::made_at))]
pub(crate) fn take_made(cut: &mut Cut) -> Result<Made, WireError>
    ensures { Gives (λ made. (made, cut.new)) result (made_at cut.old) }
{
    let made = take_byte(cut, 0, 1)?;
    if made == 0 {
        Ok(Made::Proposal)
    } else {
        Ok(Made::Recovery)
    }
}

#[tactic(auto, unfolding(crate::specs::Meaning::pair_at))]
fn take_pair(cut: &mut Cut, low: u64, high: u64) -> Result<Pair, WireError>
    ensures read { Gives (λ pair. (pair, cut.new)) result (pair_at low high cut.old) }
    ensures within { IfOk result (λ pair. pair.stamp.0 ≤ high) }
{
    let id = take_id(cut)?;
    let stamp = take_eight(cut, low, high)?;
    Ok(Pair {
        id,
        stamp: Stamp(stamp),
    })
}

fn take_pairs_from(
    alloc: Global,
    cut: &mut Cut,
    count: u32,
    lo: u64,
    hi: u64,
) -> Result<Pairs, WireError>
    requires order { lo ≤ hi }
    requires small { hi < 2 ^ 48 }
    ensures { Gives (λ pairs. (pairs, cut.new)) result (pairs_from count lo hi cut.old) }
{
    let mut pairs = Sequence::new(alloc);
    let mut last = lo;
    for _ in 0..count {
        let pair = take_pair(cut, last + 1, hi)?;
        last = pair.stamp.0;
        pairs.add(pair)?;
    }
    Ok(Pairs::new(alloc, pairs)?)
}

/// A count, and so many pairs above lo up to hi, each above the one before.
#[tactic(auto, unfolding(crate::specs::Meaning::pairs_at))]
pub(crate) fn take_pairs(alloc: Global, cut: &mut Cut, lo: u64, hi: u64) -> Result<Pairs, WireError>
    requires order { lo ≤ hi }
    requires small { hi < 2 ^ 48 }
    ensures { Gives (λ pairs. (pairs, cut.new)) result (pairs_at lo hi cut.old) }
{
    let count = take_four(cut, 0, (hi - lo).min(1000) as u32)?;
    take_pairs_from(alloc, cut, count, lo, hi)
}
