ghost use Rattle.std.specs.Prelude.{◌≡◌, ◌≢◌, ◌≤◌, None, Some, length, IfErr, IfOk, OnOk};
ghost use Rattle.tp_run.specs.Texts.{INPUT_MOST, IsTextOf, cause_of, is_end, read_to_end, script_of};
ghost use Rattle.tp_run.specs.TopCall.{IsRefusedFor};
ghost use Rattle.tp_script.specs.Accepted.{IsAccepted};
ghost use Rattle.tp_script.specs.Print.{script_lines};
ghost use Rattle.tp_text.specs.Lines.{lines_of};
ghost use Rattle.tp_text.specs.Reading.{Reads};

use crate::finished::Cause;
use std::alloc::Global;
use tp_script::{Script, ScriptCause, ScriptError, ScriptFault, read_script};
use tp_text::{LineFault, Lines};

/// The most bytes that an input may have.
pub const INPUT_LIMIT: usize = 67_108_864;

/// Reads the script that a whole input is, of which one byte more than it may have is enough.
pub fn read_text(alloc: Global, text: &[u8]) -> Result<Script, Cause>
    ensures script { IfOk result (IsTextOf text.now) }
    ensures accepted { IfOk result (λ script. IsAccepted script) }
    ensures short { OnOk result (length text.now ≤ INPUT_MOST) }
    ensures unrefused { OnOk result (cause_of text.now ≡ None) }
    ensures refused { IfErr result (IsRefusedFor (Some text.now)) }
    ensures unfailed { IfErr result (λ cause. cause ≢ Cause.Read) }
{
    if text.len() > INPUT_LIMIT {
        return Err(Cause::Input {
            got: INPUT_LIMIT as u64 + 1,
            limit: INPUT_LIMIT as u64,
        });
    }
    match read_to_end(alloc, text) {
        Ok(script) => Ok(script),
        Err(ScriptError::Fault(fault)) => Err(Cause::Script(fault)),
        Err(ScriptError::NoMemory) => Err(Cause::Memory),
    }
}

// The script whose text this is.
fn read_to_end(alloc: Global, text: &[u8]) -> Result<Script, ScriptError>
    ensures { Reads (λ script. script) result (script_of text.now) }
{
    let mut lines = Lines::new(text);
    match read_script(alloc, &mut lines) {
        Ok(script) => ended(script, &mut lines),
        Err(error) => Err(error),
    }
}

// The script that was read, where nothing stands behind its last line.
fn ended(script: Script, lines: &mut Lines) -> Result<Script, ScriptError>
    requires counted { lines.old.count ≡ length (script_lines script) }
    ensures { Reads (λ s. s) result (read_to_end (script, lines_of lines.old.left)) }
{
    let line = lines.number() + 1;
    if is_end(lines) {
        Ok(script)
    } else {
        Err(ScriptError::Fault(ScriptFault {
            line,
            cause: ScriptCause::Word,
        }))
    }
}

// Whether nothing is left.
pub(crate) fn is_end(lines: &mut Lines) -> bool
    ensures { result ≡ is_end (lines_of lines.old.left) }
{
    match lines.next_line() {
        Ok(_) => false,
        Err(LineFault::Unended) => false,
        Err(LineFault::AtEnd) => true,
    }
}
