ghost use Rattle.std.specs.List.{flat_map, list_all};
ghost use Rattle.std.specs.Option.{option_copied};
ghost use Rattle.std.specs.Prelude.{◌≡◌, ◌≤◌, ◌++◌, ℕ, List, Option, Some, is_some, map, slice_get, IfOk, OnOk};
ghost use Rattle.tp_base.specs.Tables.{kept_at};
ghost use Rattle.tp_ops.specs.Parts.{answers_in, merged};
ghost use Rattle.tp_ops.specs.declared.operation.Answer.{Answer};
ghost use Rattle.tp_print.specs.Results.{AreKept};
ghost use Rattle.tp_print.specs.Report.{answer_word, reply_line, spaced};
ghost use Rattle.tp_rules.specs.Addresses.{accessed};
ghost use Rattle.tp_rules.specs.Outcome.{reply_from};

use crate::first_results::FirstResults;
use crate::words::{put_answer, put_spaced_id};
use std::alloc::Global;
use tp_base::{NoMemory, PartitionId, Put, partition_of};
use tp_ops::{Answer, Command, accesses};
use tp_script::Script;
use tp_topology::Topology;

/// Whether the answers of all partitions that a command accesses are there.
fn is_whole(topology: &Topology, command: &Command, first: &FirstResults) -> bool
    ensures { result ≡ list_all (λ q. is_some (kept_at first.now q)) (accessed topology.now command.now) }
{
    let mut whole = true;
    for i in 0..topology.partitions() {
        let p = PartitionId(i + 1);
        if accesses(command, topology.partitions(), p) && first.get(p).is_none() {
            whole = false;
        }
    }
    whole
}

/// The answer at a place among those of a partition.
fn answer<'a>(first: &'a FirstResults, p: PartitionId, i: usize) -> Option<&'a Answer>
    requires from { 1 ≤ p.0 }
    requires to { p.0 ≤ 4 }
    ensures { option_copied result ≡ slice_get (answers_in first.now p.0) i }
{
    match first.get(p) {
        Some(answers) => answers.get(i),
        None => None,
    }
}

/// The answers in the order of a command's operations.
fn put_merged(
    alloc: Global,
    out: &mut Put,
    partitions: u8,
    command: &Command,
    first: &FirstResults,
) -> Result<(), NoMemory>
    requires some { 1 ≤ partitions }
    requires few { partitions ≤ 4 }
    ensures { OnOk result (out.new ≡ out.old ++ flat_map spaced
        (map answer_word (merged partitions command.now.ops (answers_in first.now)))) }
{
    let mut taken = [0usize; 4];
    for op in command.ops.as_slice() {
        let p = partition_of(op.key(), partitions);
        let place = usize::from(p.0) - 1;
        if let Some(answer) = answer(first, p, taken[place]) {
            put_answer(alloc, out, answer)?;
            taken[place] += 1;
        }
    }
    Ok(())
}

/// The line of a reply whose answers are all there.
fn put_whole(
    alloc: Global,
    out: &mut Put,
    partitions: u8,
    command: &Command,
    first: &FirstResults,
) -> Result<(), NoMemory>
    requires some { 1 ≤ partitions }
    requires few { partitions ≤ 4 }
    ensures { OnOk result (out.new ≡ out.old ++ reply_line command.now.id
        (Some (merged partitions command.now.ops (answers_in first.now)))) }
{
    out.bytes(b"reply")?;
    put_spaced_id(out, command.id)?;
    put_merged(alloc, out, partitions, command, first)?;
    out.byte(b'\n')
}

/// The line of a command's reply, where there is one. Tells whether there is.
pub fn put_reply(
    alloc: Global,
    out: &mut Put,
    script: &Script,
    command: &Command,
    first: &FirstResults,
) -> Result<bool, NoMemory>
    ensures line { OnOk result ((parts : ℕ → Option (List Answer)) → AreKept first.now parts
        → out.new ≡ out.old ++ reply_line command.now.id (reply_from script.now parts (Some command.now))) }
    ensures told { IfOk result (λ told. (parts : ℕ → Option (List Answer)) → AreKept first.now parts
        → told ≡ is_some (reply_from script.now parts (Some command.now))) }
{
    let partitions = script.topology.partitions();
    if !is_whole(&script.topology, command, first) {
        return Ok(false);
    }
    put_whole(alloc, out, partitions, command, first)?;
    Ok(true)
}
