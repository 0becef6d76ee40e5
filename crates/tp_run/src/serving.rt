ghost use Rattle.std.specs.Prelude.{true, ◌≡◌, ◌≢◌, ◌⊎◌, [], Some, None, Ok, IfErr, IfOk, OnErr, is_ok};
ghost use Rattle.std.specs.Io.KnownBytes.{Appends, Keeps};
ghost use Rattle.tp_outside.specs.Bytes.{AppendsFront};
ghost use Rattle.tp_run.specs.TopCall.{IsFaultOf, IsStatusOf};

use crate::finished::{Cause, Finished};
use std::alloc::Global;
use tp_base::{Bytes, NoMemory};
use tp_journal::Journal;
use tp_outside::{Sink, WriteFault, write_all};
use tp_script::Script;

/// The answer where there is no script.
pub fn refused(alloc: Global, cause: Cause) -> Finished
    ensures status { IsStatusOf result.cause result.status }
    ensures cause { result.cause ≡ Some cause }
    ensures script { result.script ≡ None }
    ensures journal { result.journal ≡ [] }
{
    Finished {
        status: cause.status(),
        cause: Some(cause),
        script: None,
        journal: Journal::new(alloc),
    }
}

/// What a call answers if its output can be written.
#[derive(Drop)]
pub struct Answer {
    pub output: Bytes,
    pub cause: Option<Cause>,
}

/// An output without a cause.
pub fn without_cause(output: Result<Bytes, NoMemory>) -> Result<Answer, NoMemory>
    ensures { IfOk result (λ answer. (output ≡ Ok answer.output) × (answer.cause ≡ None)) }
{
    Ok(Answer {
        output: output?,
        cause: None,
    })
}

/// Writes an answer's output, and tells how that ended.
pub fn finish<K: Sink>(
    script: Script,
    journal: Journal,
    answer: Result<Answer, NoMemory>,
    out: &mut K,
) -> Finished
    requires unfailed { IfOk answer (λ a. a.cause ≢ Some Cause.Write) }
    ensures script { result.script ≡ Some script }
    ensures journal { result.journal ≡ journal }
    ensures status { IsStatusOf result.cause result.status }
    ensures memory { result.cause ≢ Some Cause.Memory → is_ok answer ≡ true }
    ensures all { IfOk answer
        (λ a. ((result.cause ≡ a.cause) × Appends (K.written out.old) (K.written out.new) a.output)
        ⊎ (result.cause ≡ Some Cause.Write) ⊎ (result.cause ≡ Some Cause.Memory)) }
    ensures none { OnErr answer (result.cause ≡ Some Cause.Memory) }
    ensures front { IfOk answer (λ a. AppendsFront (K.written out.old) (K.written out.new) a.output) }
    ensures unwritten { OnErr answer (Keeps (K.written out.old) (K.written out.new)) }
    ensures fault { IsFaultOf Cause.Write (K.faults out.old) (K.faults out.new) result.cause }
{
    let cause = match answer {
        Ok(answer) => write(answer, out),
        Err(NoMemory) => Some(Cause::Memory),
    };
    let status = match &cause {
        None => 0,
        Some(cause) => cause.status(),
    };
    Finished {
        status,
        cause,
        script: Some(script),
        journal,
    }
}

// Writes an answer's output, and gives the answer's cause, or else why that failed.
fn write<K: Sink>(answer: Answer, out: &mut K) -> Option<Cause>
    requires unfailed { answer.cause ≢ Some Cause.Write }
    ensures all { ((result ≡ answer.cause) × Appends (K.written out.old) (K.written out.new) answer.output)
        ⊎ (result ≡ Some Cause.Write) ⊎ (result ≡ Some Cause.Memory) }
    ensures front { AppendsFront (K.written out.old) (K.written out.new) answer.output }
    ensures fault { IsFaultOf Cause.Write (K.faults out.old) (K.faults out.new) result }
{
    match write_all(out, answer.output.as_slice()) {
        Ok(()) => answer.cause,
        Err(WriteFault::Failed) => Some(Cause::Write),
        Err(WriteFault::NoMemory) => Some(Cause::Memory),
    }
}
