ghost use Rattle.std.specs.Prelude.{true, false, ◌≡◌, ◌≢◌, ◌⊎◌, ◌++◌, [], Some, None, IfOk, OnOk};
ghost use Rattle.tp_entry.specs.Print.{text_of};
ghost use Rattle.tp_outside.specs.Causes.{Rose};
ghost use Rattle.tp_rules.specs.Pending.{IsPickedRun, IsQuiet};
ghost use Rattle.tp_rules.specs.Runs.{IsRun};
ghost use Rattle.tp_run.specs.Calls.{call_of, checks, is_threaded, picks, runs, threaded};
ghost use Rattle.tp_run.specs.TopCall.{IsAnswer, IsDue, IsInputFor, IsKept, IsRead, IsServed, IsStatusOf, IsWritten};
ghost use Rattle.tp_print.specs.Report.{report_text};
ghost use Rattle.tp_script.specs.Accepted.{IsAccepted};

use crate::call::{Call, threaded_call};
use crate::finished::{Cause, Finished};
use crate::looking::look;
use crate::reading::script_of;
use crate::serving::{Answer, finish, refused, without_cause};
use std::alloc::Global;
use std::sync::Wait;
use std::thread::Threads;
use tp_base::{Bytes, NoMemory, Put};
use tp_cast::cast;
use tp_entry::print_journal;
use tp_journal::Journal;
use tp_outside::{Gate, Sink, Source};
use tp_print::report;
use tp_rules::Entries;
use tp_script::Script;
use tp_threads::run_on_threads;

/// Does what the words `run` and `trace` say: each reads a script, runs its actors, each on a thread of its own, and
/// writes the run's report; `trace` writes the journal's text behind it. Other words are refused.
/// It waits for threads.
pub fn tempo_run<R: Threads + Wait + Sync, S: Source, K: Sink, G: Gate + Sync>(
    rt: &R,
    alloc: Global,
    words: &[String],
    input: &mut S,
    out: &mut K,
    gate: &G,
) -> Finished
    ensures status { IsStatusOf result.cause result.status }
    ensures read { IsRead (threaded (call_of words.now)) (S.left input.old) (S.left input.new) (S.ended input.new)
        (S.faults input.old) (S.faults input.new) result }
    ensures kept { IsKept (threaded (call_of words.now)) result }
    ensures written { IsWritten (threaded (call_of words.now)) (K.written out.old) (K.written out.new)
        (K.faults out.old) (K.faults out.new) result }

    // Where no count of faults rose, the answer is the call's own, but for want of memory: an input is refused for its
    // cause alone, and the text of each accepted script is run.
    ensures exact { ¬ Rose (S.faults input.old) (S.faults input.new) → ¬ Rose (K.faults out.old) (K.faults out.new)
        → IsDue (threaded (call_of words.now)) (S.left input.old) result.cause ⊎ (result.cause ≡ Some Cause.Memory) }
    ensures complete { IsInputFor (threaded (call_of words.now)) (S.left input.old)
        → ¬ Rose (S.faults input.old) (S.faults input.new) → ¬ Rose (K.faults out.old) (K.faults out.new)
        → IsServed (threaded (call_of words.now)) result.cause ⊎ (result.cause ≡ Some Cause.Memory) }
{
    let Some(call) = threaded_call(words) else {
        return refused(alloc, Cause::Words);
    };
    match script_of(alloc, call, input) {
        Ok(given) => {
            let (script, mut journal) = (given.script, given.journal);
            let answer = respond(rt, alloc, call, &script, &mut journal, gate);
            finish(script, journal, answer, out)
        }
        Err(cause) => refused(alloc, cause),
    }
}

// What a call finds and writes once its script was run.
fn respond<R: Threads + Wait + Sync, G: Gate + Sync>(
    rt: &R,
    alloc: Global,
    call: Call,
    script: &Script,
    journal: &mut Journal,
    gate: &G,
) -> Result<Answer, NoMemory>
    requires threaded { is_threaded call ≡ true }
    requires accepted { IsAccepted script.now }
    requires empty { checks (Some call) ≡ false → journal.old ≡ [] }
    ensures run { runs (Some call) ≡ true → IsRun script.now journal.new }
    ensures picked { picks (Some call) ≡ true → IsPickedRun script.now journal.new }
    ensures unrun { runs (Some call) ≡ false → journal.new ≡ journal.old }
    ensures quiet { OnOk result (runs (Some call) ≡ true → IsQuiet script.now journal.new) }
    ensures right { IfOk result (λ answer. IsAnswer (Some call) script.now journal.new answer.cause answer.output) }
    ensures unfailed { IfOk result (λ answer. answer.cause ≢ Some Cause.Write) }
{
    run(rt, alloc, script, journal, gate)?;
    match call {
        Call::Run => without_cause(report(alloc, script, journal.entries())),
        Call::Trace => without_cause(traced(alloc, script, journal.entries())),
        Call::Step | Call::Check | Call::Gen(_) | Call::Load(_) => unreachable!(),
    }
}

// The report of a run, and behind it the journal's text.
fn traced(alloc: Global, script: &Script, journal: &Entries) -> Result<Bytes, NoMemory>
    requires accepted { IsAccepted script.now }
    requires run { IsRun script.now journal.now }
    ensures { IfOk result (λ output. output ≡ report_text script.now journal.now ++ text_of journal.now) }
{
    let mut output = Put::new(alloc);
    output.bytes(report(alloc, script, journal)?.as_slice())?;
    look(journal.as_slice());
    output.bytes(print_journal(alloc, journal)?.as_slice())?;
    Ok(output.finish())
}

// Makes the script's actors, and runs them on threads until nothing is pending.
fn run<R: Threads + Wait + Sync, G: Gate + Sync>(
    rt: &R,
    alloc: Global,
    script: &Script,
    journal: &mut Journal,
    gate: &G,
) -> Result<(), NoMemory>
    requires accepted { IsAccepted script.now }
    requires empty { journal.old ≡ [] }
    ensures run { IsRun script.now journal.new }
    ensures quiet { OnOk result (IsQuiet script.now journal.new) }
{
    let actors = cast(alloc, script)?;
    run_on_threads(rt, alloc, script, journal, actors, gate)
}
