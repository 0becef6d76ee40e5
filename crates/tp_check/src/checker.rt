ghost use Rattle.std.specs.Prelude.{◌≡◌, ◌↔◌, [], IfOk};
ghost use Rattle.tp_check.specs.Verdicts.{IsVerdict, SaysRun};
ghost use Rattle.tp_driver.specs.Cast.{AllStand};
ghost use Rattle.tp_rules.specs.Runs.{IsRun};
ghost use Rattle.tp_script.specs.Accepted.{IsAccepted};

use crate::cause::cause_of;
use crate::verdict::Verdict;
use std::alloc::Global;
use tp_base::NoMemory;
use tp_cast::cast;
use tp_netbook::Ledger;
use tp_rules::{Actor, Entries};
use tp_script::Script;

/// Whether a journal is a run of a script, and else its first illegal entry with the cause. It makes
/// the script's actors, and lets them make each step.
pub fn check(alloc: Global, script: &Script, entries: &Entries) -> Result<Verdict, NoMemory>
    requires accepted { IsAccepted script.now }
    ensures verdict { IfOk result (IsVerdict script.now entries.now) }
    ensures exact { IfOk result (λ verdict. SaysRun verdict ↔ IsRun script.now entries.now) }
{
    let mut actors = cast(alloc, script)?;
    replay(alloc, script, entries, actors.as_mut_slice())
}

/// Lets the actors make the steps of a journal, up to its first illegal entry.
fn replay<A: Actor>(
    alloc: Global,
    script: &Script,
    entries: &Entries,
    actors: &mut [A],
) -> Result<Verdict, NoMemory>
    requires accepted { IsAccepted script.now }
    requires cast { AllStand A.identity_of A.is_spent A.stands script.now actors.old [] }
    ensures verdict { IfOk result (IsVerdict script.now entries.now) }
    ensures exact { IfOk result (λ verdict. SaysRun verdict ↔ IsRun script.now entries.now) }
{
    let mut ledger = Ledger::new(alloc, script)?;
    let journal = entries.as_slice();
    for k in 0..journal.len() {
        let entry = &journal[k];
        let cause = cause_of(alloc, script, &journal[..k], &ledger, actors, entry)?;
        if let Some(cause) = cause {
            return Ok(Verdict::No {
                entry: k as u64 + 1,
                cause,
            });
        }
        ledger.entered(entry)?;
    }
    Ok(Verdict::Run {
        entries: journal.len() as u64,
    })
}
