ghost use Rattle.std.specs.Prelude.{ℕ, ◌+◌, ◌≤◌, true, false, ◌≡◌, ◌⊎◌, List, [], length, take, Option, Some, None, Ok, Err, IfOk, IfErr, IfSome, OnOk};
ghost use Rattle.std.specs.Io.KnownBytes.{IsAtEnd};
ghost use Rattle.tp_gen.specs.Generator.{numbered_script};
ghost use Rattle.tp_outside.specs.Bytes.{TakesAtMost, TakesFewer};
ghost use Rattle.tp_outside.specs.Causes.{HasCause};
ghost use Rattle.tp_run.specs.Both.{IsTextOfBoth, checked_of};
ghost use Rattle.tp_run.specs.Calls.{checks, reads};
ghost use Rattle.tp_run.specs.Texts.{INPUT_MOST, cause_of};
ghost use Rattle.tp_run.specs.TopCall.{IsAnswer, IsDue, IsRefusal, IsRefusedFor, IsSaidBy, IsScriptOf, IsUnchecked};
ghost use Rattle.tp_script.specs.Accepted.{IsAccepted};

use crate::both::read_both;
use crate::call::Call;
use crate::finished::Cause;
use crate::text::{INPUT_LIMIT, read_text};
use std::alloc::Global;
use tp_base::Bytes;
use tp_gen::gen_script;
use tp_journal::Journal;
use tp_outside::{ReadError, Source, read_to_limit};
use tp_script::Script;

/// What a call works on: a script, and the journal that is to be checked.
#[derive(Drop)]
pub struct Given {
    pub script: Script,
    pub journal: Journal,
}

/// The script of a call, read or generated, and the journal that it checks, which is empty where it checks none.
pub fn script_of<S: Source>(alloc: Global, call: Call, input: &mut S) -> Result<Given, Cause>
    ensures script { IfOk result (λ given. IsScriptOf (Some call) (S.left input.old) given.script given.journal) }
    ensures accepted { IfOk result (λ given. IsAccepted given.script) }
    ensures empty { IfOk result (λ given. checks (Some call) ≡ false → given.journal ≡ []) }
    ensures ended { OnOk result (reads (Some call) ≡ true → S.ended input.new × IsAtEnd (S.left input.new)) }
    ensures unread { reads (Some call) ≡ false → (S.left input.new ≡ S.left input.old)
        × (S.faults input.new ≡ S.faults input.old) }
    ensures taken { TakesAtMost (INPUT_MOST + 1) (S.left input.old) (S.left input.new) }
    ensures below { IfErr result (λ cause. cause ≡ Cause.Read
        → TakesFewer (INPUT_MOST + 1) (S.left input.old) (S.left input.new)) }
    ensures due { IfOk result (λ given. (answer : Option Cause) (output : List ℕ)
        → IsAnswer (Some call) given.script given.journal answer output → IsDue (Some call) (S.left input.old) answer) }
    ensures refused { IfErr result (IsRefusal (Some call) (S.left input.old)) }
    ensures fault { HasCause (S.faults input.old) (S.faults input.new) result Cause.Read }
{
    match call {
        Call::Run | Call::Trace | Call::Step => alone(alloc, read_input(alloc, input)),
        Call::Check => read_to_check(alloc, input),
        Call::Gen(n) => alone(alloc, generated(alloc, n)),
        Call::Load(n) => alone(alloc, generated(alloc, n)),
    }
}

// A script without a journal.
fn alone(alloc: Global, script: Result<Script, Cause>) -> Result<Given, Cause>
    ensures script { IfOk result (λ given. script ≡ Ok given.script) }
    ensures empty { IfOk result (λ given. given.journal ≡ []) }
    ensures refused { IfErr result (λ cause. script ≡ Err cause) }
{
    match script {
        Ok(script) => Ok(Given {
            script,
            journal: Journal::new(alloc),
        }),
        Err(cause) => Err(cause),
    }
}

// The script of a number.
fn generated(alloc: Global, n: u32) -> Result<Script, Cause>
    ensures script { IfOk result (λ script. script ≡ numbered_script n) }
    ensures accepted { IfOk result (λ script. IsAccepted script) }
    ensures refused { IfErr result (λ cause. cause ≡ Cause.Memory) }
{
    match gen_script(alloc, n) {
        Ok(script) => Ok(script),
        Err(_) => Err(Cause::Memory),
    }
}

// The script that the whole input is.
fn read_input<S: Source>(alloc: Global, input: &mut S) -> Result<Script, Cause>
    ensures script { IfOk result (λ script. IsSaidBy (S.left input.old) (Some script)) }
    ensures accepted { IfOk result (λ script. IsAccepted script) }
    ensures ended { OnOk result (S.ended input.new × IsAtEnd (S.left input.new)) }
    ensures taken { TakesAtMost (INPUT_MOST + 1) (S.left input.old) (S.left input.new) }
    ensures below { IfErr result (λ cause. cause ≡ Cause.Read
        → TakesFewer (INPUT_MOST + 1) (S.left input.old) (S.left input.new)) }
    ensures unrefused { OnOk result (IfSome (S.left input.old) (λ text. cause_of text ≡ None)) }
    ensures refused { IfErr result (IsRefusedFor (S.left input.old)) }
    ensures fault { HasCause (S.faults input.old) (S.faults input.new) result Cause.Read }
{
    let bytes = read_bytes(alloc, input)?;
    read_text(alloc, bytes.as_slice())
}

/// The script and the journal behind it that the whole input is. Its bytes are given up before the check.
pub fn read_to_check<S: Source>(alloc: Global, input: &mut S) -> Result<Given, Cause>
    ensures both { IfOk result
        (λ given. IfSome (S.left input.old) (λ text. IsTextOfBoth text given.script given.journal)) }
    ensures accepted { IfOk result (λ given. IsAccepted given.script) }
    ensures ended { OnOk result (S.ended input.new × IsAtEnd (S.left input.new)) }
    ensures taken { TakesAtMost (INPUT_MOST + 1) (S.left input.old) (S.left input.new) }
    ensures below { IfErr result (λ cause. cause ≡ Cause.Read
        → TakesFewer (INPUT_MOST + 1) (S.left input.old) (S.left input.new)) }
    ensures checked { IfOk result
        (λ given. IfSome (S.left input.old) (λ text. checked_of text ≡ Ok (given.script, given.journal))) }
    ensures refused { IfErr result (IsUnchecked (S.left input.old)) }
    ensures fault { HasCause (S.faults input.old) (S.faults input.new) result Cause.Read }
{
    let bytes = read_bytes(alloc, input)?;
    match read_both(alloc, bytes.as_slice()) {
        Ok((script, entries)) => Ok(Given {
            script,
            journal: Journal::of(entries),
        }),
        Err(cause) => Err(cause),
    }
}

// The bytes of the input, of which one more than it may have is enough.
fn read_bytes<S: Source>(alloc: Global, input: &mut S) -> Result<Bytes, Cause>
    ensures first { IfOk result (λ bytes. IfSome (S.left input.old) (λ text. bytes ≡ take (INPUT_MOST + 1) text)) }
    ensures end { IfOk result (λ bytes. length bytes ≤ INPUT_MOST → S.ended input.new × IsAtEnd (S.left input.new)) }
    ensures taken { TakesAtMost (INPUT_MOST + 1) (S.left input.old) (S.left input.new) }
    ensures below { IfErr result (λ cause. cause ≡ Cause.Read
        → TakesFewer (INPUT_MOST + 1) (S.left input.old) (S.left input.new)) }
    ensures refused { IfErr result (λ cause. (cause ≡ Cause.Read) ⊎ (cause ≡ Cause.Memory)) }
    ensures fault { HasCause (S.faults input.old) (S.faults input.new) result Cause.Read }
{
    match read_to_limit(alloc, input, INPUT_LIMIT + 1) {
        Ok(bytes) => Ok(bytes),
        Err(ReadError::Failed) => Err(Cause::Read),
        Err(ReadError::NoMemory) => Err(Cause::Memory),
    }
}
