ghost use Rattle.std.specs.Prelude.{◌≡◌, true, IfOk};
ghost use Rattle.tp_rules.specs.Pending.{IsQuiet};
ghost use Rattle.tp_rules.specs.Runs.{IsRun};
ghost use Rattle.tp_script.specs.Accepted.{IsAccepted};

use crate::watch::Watch;
use crate::watched::watch_all;
use std::alloc::Global;
use std::sync::Wait;
use std::thread::Threads;
use tp_base::{ActorName, NoMemory};
use tp_cast::cast;
use tp_check::{Verdict, check};
use tp_driver::drive;
use tp_journal::Journal;
use tp_outside::Gate;
use tp_script::{Script, ScriptError, read_script};
use tp_text::Lines;
use tp_threads::run_on_threads;

/// The script of a text.
pub fn read(alloc: Global, text: &[u8]) -> Result<Script, ScriptError>
    ensures { IfOk result (λ script. IsAccepted script) }
{
    read_script(alloc, &mut Lines::new(text))
}

/// Whether there was memory for each step, and the journal of those that were made.
#[derive(Drop)]
pub struct Ended {
    pub whole: bool,
    pub journal: Journal,
}

/// Runs a script's actors one step at a time, each of which asks the watch.
pub fn drive_watched(alloc: Global, script: &Script, watch: &Watch) -> Result<Ended, NoMemory>
    requires { IsAccepted script.now }
    ensures run { IfOk result (λ ended. IsRun script.now ended.journal) }
    ensures quiet { IfOk result (λ ended. ended.whole ≡ true → IsQuiet script.now ended.journal) }
{
    let mut actors = watch_all(alloc, script, watch)?;
    let mut journal = Journal::new(alloc);
    let whole = drive(alloc, script, &mut journal, actors.as_mut_slice()).is_ok();
    Ok(Ended { whole, journal })
}

/// Runs a script's actors on threads, each of which asks the watch, and passes it as the gate.
pub fn run_watched<R: Threads + Wait + Sync>(
    rt: &R,
    alloc: Global,
    script: &Script,
    watch: &Watch,
) -> Result<Ended, NoMemory>
    requires { IsAccepted script.now }
    ensures run { IfOk result (λ ended. IsRun script.now ended.journal) }
    ensures quiet { IfOk result (λ ended. ended.whole ≡ true → IsQuiet script.now ended.journal) }
{
    let actors = watch_all(alloc, script, watch)?;
    let mut journal = Journal::new(alloc);
    let whole = run_on_threads(rt, alloc, script, &mut journal, actors, watch).is_ok();
    Ok(Ended { whole, journal })
}

/// Runs a script's actors on threads, each of which passes the gate before each entry.
pub fn run_gated<R: Threads + Wait + Sync, G: Gate + Sync>(
    rt: &R,
    alloc: Global,
    script: &Script,
    gate: &G,
) -> Result<Journal, NoMemory>
    requires { IsAccepted script.now }
    ensures run { IfOk result (λ journal. IsRun script.now journal) }
    ensures quiet { IfOk result (λ journal. IsQuiet script.now journal) }
{
    let actors = cast(alloc, script)?;
    let mut journal = Journal::new(alloc);
    run_on_threads(rt, alloc, script, &mut journal, actors, gate)?;
    Ok(journal)
}

/// Whether a check says that a journal is a run.
pub fn is_run(alloc: Global, script: &Script, journal: &Journal) -> Result<bool, NoMemory>
    requires { IsAccepted script.now }
    ensures { IfOk result (λ right. right ≡ true → IsRun script.now journal.now) }
{
    Ok(matches!(
        check(alloc, script, journal.entries())?,
        Verdict::Run { entries: _ }
    ))
}

/// Whether both ways to run a script end for want of memory at an actor's step after so many others of its own, each with
/// a run.
pub fn wants_memory<R: Threads + Wait + Sync>(
    rt: &R,
    alloc: Global,
    script: &Script,
    actor: ActorName,
    after: u64,
) -> Result<bool, NoMemory>
    requires { IsAccepted script.now }
{
    let refusal = Watch::Refusal { actor, after };
    let driven = drive_watched(alloc, script, &refusal)?;
    let run = run_watched(rt, alloc, script, &refusal)?;
    let both = is_run(alloc, script, &driven.journal)? && is_run(alloc, script, &run.journal)?;
    Ok(both && !driven.whole && !run.whole)
}
