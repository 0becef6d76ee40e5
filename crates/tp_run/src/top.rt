ghost use Rattle.std.specs.Prelude.{◌≡◌, ◌⊎◌, Some};
ghost use Rattle.tp_outside.specs.Causes.{Rose};
ghost use Rattle.tp_run.specs.Calls.{call_of};
ghost use Rattle.tp_run.specs.TopCall.{IsDue, IsInputFor, IsKept, IsRead, IsServed, IsStatusOf, IsWritten};

use crate::call::threaded_call;
use crate::finished::{Cause, Finished};
use crate::plain::tempo_plain;
use crate::threaded::tempo_run;
use std::alloc::Global;
use std::sync::Wait;
use std::thread::Threads;
use tp_outside::{Gate, Sink, Source};

/// Does what the words say: `run` and `trace` as `tempo_run` does, and all else as `tempo_plain` does.
/// For `run` and `trace` it waits for threads.
pub fn tempo<R: Threads + Wait + Sync, S: Source, K: Sink, G: Gate + Sync>(
    rt: &R,
    alloc: Global,
    words: &[String],
    input: &mut S,
    out: &mut K,
    gate: &G,
) -> Finished
    ensures status { IsStatusOf result.cause result.status }
    ensures read { IsRead (call_of words.now) (S.left input.old) (S.left input.new) (S.ended input.new)
        (S.faults input.old) (S.faults input.new) result }
    ensures kept { IsKept (call_of words.now) result }
    ensures written { IsWritten (call_of words.now) (K.written out.old) (K.written out.new) (K.faults out.old)
        (K.faults out.new) result }

    // Where no count of faults rose, the answer is the call's own, but for want of memory: an input is refused for its
    // cause alone, the text of each accepted script is run, each text of a script and a journal is
    // checked, and each number is served.
    ensures exact { ¬ Rose (S.faults input.old) (S.faults input.new) → ¬ Rose (K.faults out.old) (K.faults out.new)
        → IsDue (call_of words.now) (S.left input.old) result.cause ⊎ (result.cause ≡ Some Cause.Memory) }
    ensures complete { IsInputFor (call_of words.now) (S.left input.old)
        → ¬ Rose (S.faults input.old) (S.faults input.new) → ¬ Rose (K.faults out.old) (K.faults out.new)
        → IsServed (call_of words.now) result.cause ⊎ (result.cause ≡ Some Cause.Memory) }
{
    if threaded_call(words).is_some() {
        tempo_run(rt, alloc, words, input, out, gate)
    } else {
        tempo_plain(alloc, words, input, out)
    }
}
