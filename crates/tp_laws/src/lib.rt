//! The laws over runs. Each function does nothing and takes no memory: its contract is a law over the
//! definitions alone, for every script that some text reads as and every journal of its condition.
#![tactic(auto)]

ghost use Rattle.std.specs.Prelude.{◌≡◌, false, reverse};
ghost use Rattle.tp_base.specs.Lists.{Each};
ghost use Rattle.tp_quiet.specs.Finished.{IsFinished, IsHarmless};
ghost use Rattle.tp_rules.specs.Laws.{CommitsAgree, KeepsLaws, LineKeepsRealTime, LineOrders, RepliesAreSequential, ResultsAreSequential};
ghost use Rattle.tp_rules.specs.Pending.{IsQuiet};
ghost use Rattle.tp_rules.specs.Plan.{is_planned};
ghost use Rattle.tp_rules.specs.Runs.{AreInRange, IsFreeRun, IsRun};
ghost use Rattle.tp_script.specs.Accepted.{IsAccepted};

use tp_rules::Entries;
use tp_script::Script;

/// Each message that is sent has bytes: its numbers are in the ranges of the wire format.
pub fn law_messages(script: &Script, entries: &Entries)
    requires accepted { IsAccepted script.now }
    requires free_run { IsFreeRun script.now entries.now }
    ensures { AreInRange entries.now }
{}

/// A run is a run without the plan.
pub fn law_free(script: &Script, entries: &Entries)
    requires accepted { IsAccepted script.now }
    requires run { IsRun script.now entries.now }
    ensures { IsFreeRun script.now entries.now }
{}

/// Agreement: no two processes commit different stamps for one command.
pub fn law_agreement(script: &Script, entries: &Entries)
    requires accepted { IsAccepted script.now }
    requires free_run { IsFreeRun script.now entries.now }
    ensures { CommitsAgree (reverse entries.now) }
{}

/// One line: each replica's executions begin its partition's share of one line of commands, whose
/// commands are committed, and whose keys ascend in each partition.
pub fn law_line(script: &Script, entries: &Entries)
    requires accepted { IsAccepted script.now }
    requires free_run { IsFreeRun script.now entries.now }
    ensures { LineOrders script.now (reverse entries.now) }
{}

/// Real time: what was answered before another command was submitted stands before it in the line.
pub fn law_real_time(script: &Script, entries: &Entries)
    requires accepted { IsAccepted script.now }
    requires free_run { IsFreeRun script.now entries.now }
    ensures { LineKeepsRealTime script.now (reverse entries.now) }
{}

/// Replies: each answered command is in the line, and its reply is that of one sequential store
/// executing the line.
pub fn law_replies(script: &Script, entries: &Entries)
    requires accepted { IsAccepted script.now }
    requires free_run { IsFreeRun script.now entries.now }
    ensures { RepliesAreSequential script.now (reverse entries.now) }
{}

/// Each result that an executor sends, delivered or not, has the answers of that one store.
pub fn law_each_result(script: &Script, entries: &Entries)
    requires accepted { IsAccepted script.now }
    requires free_run { IsFreeRun script.now entries.now }
    ensures { ResultsAreSequential script.now (reverse entries.now) }
{}

/// All four laws, whatever is lost, repeated, reordered, recovered or crashed.
pub fn law_legal(script: &Script, entries: &Entries)
    requires accepted { IsAccepted script.now }
    requires free_run { IsFreeRun script.now entries.now }
    ensures { KeepsLaws script.now entries.now }
{}

/// All four laws of runs without recoveries and crashes.
pub fn law_plain(script: &Script, entries: &Entries)
    requires accepted { IsAccepted script.now }
    requires free_run { IsFreeRun script.now entries.now }
    requires plain { Each (λ entry. is_planned entry.event ≡ false) entries.now }
    ensures { KeepsLaws script.now entries.now }
{}

/// Quiet means finished: where the plan loses no message and crashes no site, a run that ends with nothing
/// pending has committed and executed each command at each replica of its partitions, and answered it.
pub fn law_quiet(script: &Script, entries: &Entries)
    requires accepted { IsAccepted script.now }
    requires run { IsRun script.now entries.now }
    requires quiet { IsQuiet script.now entries.now }
    requires harmless { IsHarmless script.now }
    ensures { IsFinished script.now entries.now }
{}
