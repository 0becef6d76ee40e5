ghost use Rattle.std.specs.Prelude.{◌≡◌, ◌≤◌, ◌&&◌, Some, IfOk, is_none, take};
ghost use Rattle.tp_base.specs.Tables.{kept_at};
ghost use Rattle.tp_ops.specs.Parts.{is_accessed};
ghost use Rattle.tp_rules.specs.Session.{is_awaited, is_whole, merged_reply};

use std::alloc::Global;
use tp_base::{NoMemory, PartitionId};
use tp_ops::{Answers, Command, Parts, accesses, count_on, merge};
use tp_topology::Topology;

/// Whether a command accesses a partition whose answers are not kept.
fn lacks(partitions: u8, parts: &Parts, command: &Command, p: PartitionId) -> bool
    requires some { 1 ≤ partitions }
    requires few { partitions ≤ 4 }
    requires from { 1 ≤ p.0 }
    requires to { p.0 ≤ 4 }
    ensures { result ≡ (is_accessed partitions command.now p.0 && is_none (kept_at parts.now p.0)) }
{
    accesses(command, partitions, p) && parts.get(p).is_none()
}

/// Whether the answers of all partitions that a command accesses are kept.
pub fn is_whole(topology: &Topology, parts: &Parts, command: &Command) -> bool
    ensures { result ≡ is_whole topology.now (take topology.now.partitions parts.now) (Some command.now) }
{
    let partitions = topology.partitions();
    for i in 0..partitions {
        if lacks(partitions, parts, command, PartitionId(i + 1)) {
            return false;
        }
    }
    true
}

/// Whether a command's answers of a partition are as many as its operations there, and the first.
pub fn is_awaited(
    topology: &Topology,
    q: PartitionId,
    answers: &Answers,
    parts: &Parts,
    command: &Command,
) -> bool
    requires from { 1 ≤ q.0 }
    requires to { q.0 ≤ topology.now.partitions }
    ensures { result ≡ is_awaited topology.now q.0 answers.now (take topology.now.partitions parts.now)
        (Some command.now) }
{
    let partitions = topology.partitions();
    accesses(command, partitions, q)
        && parts.get(q).is_none()
        && answers.len() == count_on(command, partitions, q)
}

/// The reply to a command, None where it is not answered.
pub fn reply_of(
    alloc: Global,
    topology: &Topology,
    command: &Command,
    parts: &Parts,
) -> Result<Option<Answers>, NoMemory>
    ensures { IfOk result (λ reply. reply ≡ merged_reply topology.now (take topology.now.partitions parts.now)
        (Some command.now)) }
{
    if !is_whole(topology, parts, command) {
        return Ok(None);
    }
    let answers = merge(alloc, command, topology.partitions(), parts)?;
    Ok(Some(answers))
}
