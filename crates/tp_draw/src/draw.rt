ghost use Rattle.std.specs.Io.KnownBytes.{Appends, IsAtEnd, Keeps};
ghost use Rattle.std.specs.Prelude.{◌≡◌, ◌≢◌, ◌+◌, ◌⊎◌, [], is_some, true, Some, None, IfOk, IfSome};
ghost use Rattle.tp_draw.specs.TopCall.{IsBegun, IsDrawn, IsDue, IsInputFor, IsRefusal, picture_text};
ghost use Rattle.tp_draw.specs.Words.{view_of};
ghost use Rattle.tp_outside.specs.Bytes.{AppendsFront, TakesAtMost, TakesFewer};
ghost use Rattle.tp_outside.specs.Causes.{Rose};
ghost use Rattle.tp_run.specs.Both.{IsTextOfBoth};
ghost use Rattle.tp_run.specs.Texts.{INPUT_MOST};
ghost use Rattle.tp_run.specs.TopCall.{IsFaultOf, IsStatusOf};
ghost use Rattle.tp_script.specs.Accepted.{IsAccepted};

use crate::view::view_of;
use std::alloc::Global;
use tp_base::{Bytes, NoMemory};
use tp_journal::Journal;
use tp_outside::{Sink, Source};
use tp_picture::{View, shapes};
use tp_run::{Cause, Finished, Given, finish, read_to_check, refused, without_cause};
use tp_script::Script;
use tp_svg::print_picture;

/// Reads a script and a journal, and writes the picture of the journal that the words choose.
pub fn tempo_draw<S: Source, K: Sink>(
    alloc: Global,
    words: &[String],
    input: &mut S,
    out: &mut K,
) -> Finished
    ensures status { IsStatusOf result.cause result.status }

    // The words are refused only where they choose no view, and then the input is as it was.
    ensures words { result.cause ≡ Some Cause.Words → view_of words.now ≡ None }
    ensures unread { view_of words.now ≡ None → (S.left input.new ≡ S.left input.old)
        × (S.faults input.new ≡ S.faults input.old) }

    // No more is read than shows that the input is too long, and no fault past that is answered.
    ensures taken { TakesAtMost (INPUT_MOST + 1) (S.left input.old) (S.left input.new) }
    ensures below { result.cause ≡ Some Cause.Read → TakesFewer (INPUT_MOST + 1) (S.left input.old) (S.left input.new) }

    // There is no script where the words or the input are refused, or memory ran out. Else the input, read to its end, is
    // the text of the script and the journal, and the words choose a view.
    ensures refused { IfSome result.cause (λ cause. result.script ≡ None → (cause ≡ Cause.Memory)
        ⊎ IsRefusal (view_of words.now) (S.left input.old) cause) }
    ensures script { IfSome result.script
        (λ script. IfSome (S.left input.old) (λ text. IsTextOfBoth text script result.journal)) }
    ensures ended { IfSome result.script (λ script. S.ended input.new × IsAtEnd (S.left input.new)) }
    ensures chosen { IfSome result.script (λ script. is_some (view_of words.now) ≡ true) }
    ensures answered { result.cause ≡ None → is_some result.script ≡ true }

    // With a script only writing or memory can fail. Else the whole picture is written, and in any case a front of it.
    ensures written { IfSome result.script
        (λ script. IsDrawn (view_of words.now) script result.journal result.cause (K.written out.old)
        (K.written out.new) ⊎ (result.cause ≡ Some Cause.Write) ⊎ (result.cause ≡ Some Cause.Memory)) }
    ensures front { IfSome result.script
        (λ script. IsBegun (view_of words.now) script result.journal (K.written out.old) (K.written out.new)) }
    ensures unwritten { result.script ≡ None → Keeps (K.written out.old) (K.written out.new) }
    ensures unkept { result.script ≡ None → result.journal ≡ [] }

    // A fault is answered exactly where the count of faults rose.
    ensures read_fault { IsFaultOf Cause.Read (S.faults input.old) (S.faults input.new) result.cause }
    ensures write_fault { IsFaultOf Cause.Write (K.faults out.old) (K.faults out.new) result.cause }

    // Where no count of faults rose, the answer is the one that is due, but for want of memory, and each text of a script
    // and a journal is drawn.
    ensures exact { ¬ Rose (S.faults input.old) (S.faults input.new) → ¬ Rose (K.faults out.old) (K.faults out.new)
        → IsDue (view_of words.now) (S.left input.old) result.cause ⊎ (result.cause ≡ Some Cause.Memory) }
    ensures complete { IsInputFor (view_of words.now) (S.left input.old)
        → ¬ Rose (S.faults input.old) (S.faults input.new) → ¬ Rose (K.faults out.old) (K.faults out.new)
        → (result.cause ≡ None) ⊎ (result.cause ≡ Some Cause.Memory) }
{
    let view = match view_of(alloc, words) {
        Ok(Some(view)) => view,
        Ok(None) => return refused(alloc, Cause::Words),
        Err(_) => return refused(alloc, Cause::Memory),
    };
    match read_to_check(alloc, input) {
        Ok(given) => draw(alloc, &view, given, out),
        Err(cause) => refused(alloc, cause),
    }
}

// Draws a journal, and writes the picture.
fn draw<K: Sink>(alloc: Global, view: &View, given: Given, out: &mut K) -> Finished
    requires accepted { IsAccepted given.script }
    ensures script { result.script ≡ Some given.script }
    ensures journal { result.journal ≡ given.journal }
    ensures status { IsStatusOf result.cause result.status }
    ensures written { IsDrawn (Some view.now) given.script given.journal result.cause (K.written out.old)
        (K.written out.new) ⊎ (result.cause ≡ Some Cause.Write) ⊎ (result.cause ≡ Some Cause.Memory) }
    ensures front { IsBegun (Some view.now) given.script given.journal (K.written out.old) (K.written out.new) }
    ensures fault { IsFaultOf Cause.Write (K.faults out.old) (K.faults out.new) result.cause }
{
    let Given { script, journal } = given;
    let answer = without_cause(picture(alloc, &script, &journal, view));
    finish(script, journal, answer, out)
}

// The text of the picture of a journal.
fn picture(
    alloc: Global,
    script: &Script,
    journal: &Journal,
    view: &View,
) -> Result<Bytes, NoMemory>
    requires { IsAccepted script.now }
    ensures { IfOk result (λ bytes. bytes ≡ picture_text script.now journal.now view.now) }
{
    let shapes = shapes(alloc, script, journal, view)?;
    print_picture(alloc, shapes.as_slice())
}
