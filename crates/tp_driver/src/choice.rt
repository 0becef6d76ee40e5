ghost use Rattle.std.specs.Prelude.{◌≡◌, ◌<◌, ◌^◌, length, slice_get, unwrap_or};
ghost use Rattle.tp_driver.specs.Driving.{IsChosen};
ghost use Rattle.tp_netbook.specs.Netbook.{AreNext, IsNetbook};
ghost use Rattle.tp_script.specs.Accepted.{IsAccepted};
ghost use Rattle.tp_rules.specs.Runs.{IsRun};

use tp_journal::Journal;
use tp_netbook::{Netbook, OwnSteps};
use tp_rules::Item;
use tp_script::Script;

/// The one of the steps that may come next which the next pick chooses.
pub fn choose(
    script: &Script,
    journal: &Journal,
    netbook: &Netbook,
    next: &OwnSteps,
) -> Option<Item>
    requires accepted { IsAccepted script.now }
    requires run { IsRun script.now journal.now }
    requires netbook { IsNetbook script.now journal.now netbook.now }
    requires next { AreNext script.now journal.now next.now }
    ensures chosen { IsChosen script.now journal.now result }
    ensures short { length journal.now < 2 ^ 63 }
{
    let pick = next_pick(script, journal);
    if pick == 0 {
        return netbook.item(next, 0);
    }
    let all = netbook.pending(next);
    if all == 0 {
        return None;
    }
    netbook.item(next, pick % all)
}

fn next_pick(script: &Script, journal: &Journal) -> u64
    ensures pick { result ≡ unwrap_or (slice_get script.now.picks (length journal.now)) 0 }
    ensures short { length journal.now < 2 ^ 63 }
{
    match script.picks.get(journal.entries().len()) {
        Some(pick) => u64::from(*pick),
        None => 0,
    }
}
