ghost use Rattle.std.specs.Prelude.{◌≡◌, ◌≢◌, ◌≤◌, ◌+◌, [], Ok, length, IfErr, IfOk, OnOk};
ghost use Rattle.tp_entry.specs.Journals.{IsJournal};
ghost use Rattle.tp_entry.specs.Meaning.{journal_at};
ghost use Rattle.tp_entry.specs.Print.{journal_lines, text_of};
ghost use Rattle.tp_run.specs.Both.{IsTextOfBoth, ReadsBoth, both_of, checked_of, journal_to_end};
ghost use Rattle.tp_run.specs.Texts.{INPUT_MOST};
ghost use Rattle.tp_script.specs.Print.{script_lines};
ghost use Rattle.tp_text.specs.Lines.{lines_of};

use crate::finished::Cause;
use crate::text::{INPUT_LIMIT, is_end};
use std::alloc::Global;
use tp_entry::{JournalCause, JournalError, JournalFault, read_journal};
use tp_rules::Entries;
use tp_script::{Script, ScriptError, read_script};
use tp_text::Lines;

/// Reads the script and the journal that a whole input is, of which one byte more than it may have
/// is enough.
pub fn read_both(alloc: Global, text: &[u8]) -> Result<(Script, Entries), Cause>
    ensures both { IfOk result (λ both. IsTextOfBoth text.now both.0 both.1) }
    ensures short { OnOk result (length text.now ≤ INPUT_MOST) }
    ensures exact { ReadsBoth result (checked_of text.now) }
    ensures unfailed { IfErr result (λ cause. cause ≢ Cause.Read) }
{
    if text.len() > INPUT_LIMIT {
        return Err(Cause::Input {
            got: INPUT_LIMIT as u64 + 1,
            limit: INPUT_LIMIT as u64,
        });
    }
    read_whole(alloc, text)
}

// The script and the journal whose texts these are.
fn read_whole(alloc: Global, text: &[u8]) -> Result<(Script, Entries), Cause>
    ensures both { IfOk result (λ both. IsTextOfBoth text.now both.0 both.1) }
    ensures exact { ReadsBoth result (both_of text.now) }
    ensures unfailed { IfErr result (λ cause. cause ≢ Cause.Read) }
{
    let mut lines = Lines::new(text);
    match read_script(alloc, &mut lines) {
        Ok(script) => read_behind(alloc, script, &mut lines),
        Err(ScriptError::Fault(fault)) => Err(Cause::Script(fault)),
        Err(ScriptError::NoMemory) => Err(Cause::Memory),
    }
}

// The journal behind a script that was read.
fn read_behind(alloc: Global, script: Script, lines: &mut Lines) -> Result<(Script, Entries), Cause>
    requires counted { lines.old.count ≡ length (script_lines script) }
    ensures exact { ReadsBoth result
        (journal_to_end script (journal_at (length (script_lines script) + 1) (lines_of lines.old.left))) }
    ensures script { IfOk result (λ both. both.0 ≡ script) }
    ensures journal { IfOk result (λ both. IsJournal both.1) }
    ensures whole { IfOk result (λ both. lines.old.left ≡ text_of both.1) }
    ensures unfailed { IfErr result (λ cause. cause ≢ Cause.Read) }
{
    match read_journal(alloc, lines) {
        Ok(journal) => ended(script, journal, lines),
        Err(JournalError::Fault(fault)) => Err(Cause::Journal(fault)),
        Err(JournalError::NoMemory) => Err(Cause::Memory),
    }
}

// Both, where nothing stands behind the journal's last line.
fn ended(script: Script, journal: Entries, lines: &mut Lines) -> Result<(Script, Entries), Cause>
    requires counted { lines.old.count ≡ length (script_lines script) + length (journal_lines journal) }
    ensures exact { ReadsBoth result (journal_to_end script (Ok (journal, lines_of lines.old.left))) }
    ensures both { IfOk result (λ both. both ≡ (script, journal)) }
    ensures nothing { OnOk result (lines.old.left ≡ []) }
    ensures unfailed { IfErr result (λ cause. cause ≢ Cause.Read) }
{
    let line = lines.number() + 1;
    if is_end(lines) {
        Ok((script, journal))
    } else {
        Err(Cause::Journal(JournalFault {
            line,
            cause: JournalCause::Word,
        }))
    }
}
