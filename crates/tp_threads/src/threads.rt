ghost use Rattle.std.specs.Prelude.{◌≡◌, [], OnOk};
ghost use Rattle.tp_driver.specs.Cast.{AllStand};
ghost use Rattle.tp_rules.specs.Pending.{IsQuiet};
ghost use Rattle.tp_rules.specs.Runs.{IsRun};
ghost use Rattle.tp_script.specs.Accepted.{IsAccepted};

use crate::ending::end;
use crate::starting::cells_of;
use std::alloc::Global;
use std::sync::Wait;
use std::thread::Threads;
use tp_base::NoMemory;
use tp_journal::Journal;
use tp_outside::Gate;
use tp_rules::Actor;
use tp_script::Script;
use tp_shared::Shared;
use tp_worker::rounds;

/// Lets the script's actors, new and in the order of its roster, work beside each other until nothing is pending, each on
/// a thread of its own, and keeps what they entered. After an error that is a run too.
pub fn run_on_threads<R: Threads + Wait + Sync, A: Actor + Send, G: Gate + Sync>(
    rt: &R,
    alloc: Global,
    script: &Script,
    journal: &mut Journal,
    actors: Vec<A>,
    gate: &G,
) -> Result<(), NoMemory>
    requires accepted { IsAccepted script.now }
    requires empty { journal.old ≡ [] }
    requires cast { AllStand A.identity_of A.is_spent A.stands script.now actors.items [] }
    ensures run { IsRun script.now journal.new }
    ensures quiet { OnOk result (IsQuiet script.now journal.new) }
{
    let Ok((shared, mut first)) = Shared::begin(alloc, script, Journal::new(alloc)) else {
        return Err(NoMemory);
    };
    let mut cells = cells_of(alloc, script, &shared, &mut first, actors)?;
    rounds(rt, cells.as_mut_slice(), &shared, gate);
    let ended = end(rt, script, shared, first, cells);
    *journal = ended.journal;
    if ended.spent { Err(NoMemory) } else { Ok(()) }
}
