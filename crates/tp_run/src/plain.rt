ghost use Rattle.std.specs.Prelude.{true, false, ◌≡◌, ◌≢◌, ◌⊎◌, [], Some, None, IfOk, OnOk};
ghost use Rattle.tp_outside.specs.Causes.{Rose};
ghost use Rattle.tp_rules.specs.Pending.{IsPickedRun, IsQuiet};
ghost use Rattle.tp_rules.specs.Runs.{IsRun};
ghost use Rattle.tp_run.specs.Calls.{call_of, checks, is_threaded, picks, plain, runs};
ghost use Rattle.tp_run.specs.TopCall.{IsAnswer, IsDue, IsInputFor, IsKept, IsRead, IsServed, IsStatusOf, IsWritten, answer_of};
ghost use Rattle.tp_script.specs.Accepted.{IsAccepted};

use crate::call::{Call, plain_call};
use crate::finished::{Cause, Finished};
use crate::reading::script_of;
use crate::serving::{Answer, finish, refused, without_cause};
use std::alloc::Global;
use tp_base::NoMemory;
use tp_cast::cast;
use tp_check::{Verdict, check, print_verdict};
use tp_driver::drive;
use tp_journal::Journal;
use tp_outside::{Sink, Source};
use tp_print::{report, summary};
use tp_rules::Entries;
use tp_script::{Script, print_script};

/// Does what the words say, one step at a time: `step` reads a script, runs it and writes its report,
/// `check` reads a script and a journal and writes whether the journal is a run of the script, `gen N`
/// writes the script of a number, and `load N` runs it and writes a summary. Other words are refused.
/// It takes no lock and waits for nobody.
pub fn tempo_plain<S: Source, K: Sink>(
    alloc: Global,
    words: &[String],
    input: &mut S,
    out: &mut K,
) -> Finished
    ensures status { IsStatusOf result.cause result.status }
    ensures read { IsRead (plain (call_of words.now)) (S.left input.old) (S.left input.new) (S.ended input.new)
        (S.faults input.old) (S.faults input.new) result }
    ensures kept { IsKept (plain (call_of words.now)) result }
    ensures written { IsWritten (plain (call_of words.now)) (K.written out.old) (K.written out.new) (K.faults out.old)
        (K.faults out.new) result }

    // Where no count of faults rose, the answer is the call's own, but for want of memory: an input is refused for its
    // cause alone, the text of each accepted script is run, each text of a script and a journal is
    // checked, and each number is served.
    ensures exact { ¬ Rose (S.faults input.old) (S.faults input.new) → ¬ Rose (K.faults out.old) (K.faults out.new)
        → IsDue (plain (call_of words.now)) (S.left input.old) result.cause ⊎ (result.cause ≡ Some Cause.Memory) }
    ensures complete { IsInputFor (plain (call_of words.now)) (S.left input.old)
        → ¬ Rose (S.faults input.old) (S.faults input.new) → ¬ Rose (K.faults out.old) (K.faults out.new)
        → IsServed (plain (call_of words.now)) result.cause ⊎ (result.cause ≡ Some Cause.Memory) }
{
    let Some(call) = plain_call(words) else {
        return refused(alloc, Cause::Words);
    };
    match script_of(alloc, call, input) {
        Ok(given) => {
            let (script, mut journal) = (given.script, given.journal);
            let answer = respond(alloc, call, &script, &mut journal);
            finish(script, journal, answer, out)
        }
        Err(cause) => refused(alloc, cause),
    }
}

// What a call finds and writes. A script is run for it where the call runs one.
fn respond(
    alloc: Global,
    call: Call,
    script: &Script,
    journal: &mut Journal,
) -> Result<Answer, NoMemory>
    requires plain { is_threaded call ≡ false }
    requires accepted { IsAccepted script.now }
    requires empty { checks (Some call) ≡ false → journal.old ≡ [] }
    ensures run { runs (Some call) ≡ true → IsRun script.now journal.new }
    ensures picked { picks (Some call) ≡ true → IsPickedRun script.now journal.new }
    ensures unrun { runs (Some call) ≡ false → journal.new ≡ journal.old }
    ensures quiet { OnOk result (runs (Some call) ≡ true → IsQuiet script.now journal.new) }
    ensures right { IfOk result (λ answer. IsAnswer (Some call) script.now journal.new answer.cause answer.output) }
    ensures unfailed { IfOk result (λ answer. answer.cause ≢ Some Cause.Write) }
{
    match call {
        Call::Run | Call::Trace => unreachable!(),
        Call::Step => {
            run(alloc, script, journal)?;
            without_cause(report(alloc, script, journal.entries()))
        }
        Call::Check => checked(alloc, script, journal.entries()),
        Call::Gen(_) => without_cause(print_script(alloc, script)),
        Call::Load(n) => {
            run(alloc, script, journal)?;
            without_cause(summary(alloc, n, script, journal.entries()))
        }
    }
}

// What a check finds of a journal.
fn checked(alloc: Global, script: &Script, journal: &Entries) -> Result<Answer, NoMemory>
    requires accepted { IsAccepted script.now }
    ensures right { IfOk result
        (λ answer. IsAnswer (Some Call.Check) script.now journal.now answer.cause answer.output) }
    ensures unfailed { IfOk result (λ answer. answer.cause ≢ Some Cause.Write) }
{
    let verdict = check(alloc, script, journal)?;
    let output = print_verdict(alloc, verdict)?;
    Ok(Answer {
        output,
        cause: cause_of(verdict),
    })
}

// The cause of a verdict that the journal is no run.
fn cause_of(verdict: Verdict) -> Option<Cause>
    ensures answer { result ≡ answer_of verdict }
    ensures unfailed { result ≢ Some Cause.Write }
{
    match verdict {
        Verdict::Run { entries: _ } => None,
        Verdict::No { entry, cause } => Some(Cause::Verdict { entry, cause }),
    }
}

// Makes the script's actors, and runs them until nothing is pending.
fn run(alloc: Global, script: &Script, journal: &mut Journal) -> Result<(), NoMemory>
    requires accepted { IsAccepted script.now }
    requires empty { journal.old ≡ [] }
    ensures run { IsRun script.now journal.new }
    ensures picked { IsPickedRun script.now journal.new }
    ensures quiet { OnOk result (IsQuiet script.now journal.new) }
{
    let mut actors = cast(alloc, script)?;
    drive(alloc, script, journal, actors.as_mut_slice())
}
