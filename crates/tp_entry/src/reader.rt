ghost use Rattle.std.specs.Prelude.{◌≡◌, ◌+◌, ◌++◌, ℕ, List, length, IfOk, OnOk};
ghost use Rattle.tp_entry.specs.Journals.{IsJournal};
ghost use Rattle.tp_entry.specs.Meaning.{entries_from, journal_at};
ghost use Rattle.tp_entry.specs.Print.{journal_lines, text_of};
ghost use Rattle.tp_rules.specs.declared.event.Entry.{Entry};
ghost use Rattle.tp_text.specs.Lines.{lines_of};
ghost use Rattle.tp_text.specs.Reading.{IsReadAs, Reads, all_lines};

use crate::draft::{Draft, close};
use crate::fault::{JournalCause, JournalError};
use std::alloc::Global;
use tp_base::NoMemory;
use tp_rules::Entries;
use tp_text::{HeaderCauses, Lines, take_header, take_lines};

// The lines behind the first.
#[tactic(auto, unfolding(crate::specs::Meaning::entries_from))]
fn take_entries(alloc: Global, lines: &mut Lines) -> Result<Entries, JournalError>
    ensures read { Reads (λ es. (es, lines_of lines.new.left)) result
        (entries_from (lines.old.count + 1) (lines_of lines.old.left)) }
    ensures all { OnOk result (all_lines lines.new ≡ all_lines lines.old) }
{
    let mut draft = Draft {
        entries: Entries::new(alloc),
        last: None,
    };
    take_lines(alloc, lines, JournalCause::Missing, &mut draft)?;
    match close(draft) {
        Ok(entries) => Ok(entries),
        Err(NoMemory) => Err(JournalError::NoMemory),
    }
}

// What a journal's lines say.
#[tactic(auto, unfolding(crate::specs::Meaning::journal_at))]
fn read_all(alloc: Global, lines: &mut Lines) -> Result<Entries, JournalError>
    ensures exact { Reads (λ es. (es, lines_of lines.new.left)) result
        (journal_at (lines.old.count + 1) (lines_of lines.old.left)) }
    ensures all { OnOk result (all_lines lines.new ≡ all_lines lines.old) }
{
    let causes = HeaderCauses {
        header: JournalCause::Header,
        newer: JournalCause::Newer,
    };
    take_header(lines, b"journal", causes)?;
    take_entries(alloc, lines)
}

/// Reads a journal up to its line `end`, and takes nothing more.
pub fn read_journal(alloc: Global, lines: &mut Lines) -> Result<Entries, JournalError>
    // What is read is a journal that has a text, and its text stood there.
    ensures found { IfOk result (λ es. IsJournal es × (lines.old.left ≡ text_of es ++ lines.new.left)) }
    // The text of such a journal is read as it, unless memory runs out.
    ensures only { (es : List Entry) (rest : List ℕ) → IsJournal es → lines.old.left ≡ text_of es ++ rest
        → IsReadAs es rest lines.new.left result }
    // A fault is the first one of the first faulty line.
    ensures exact { Reads (λ es. (es, lines_of lines.new.left)) result
        (journal_at (lines.old.count + 1) (lines_of lines.old.left)) }
    // Its lines were counted.
    ensures counted { IfOk result (λ es. lines.new.count ≡ lines.old.count + length (journal_lines es)) }
{
    read_all(alloc, lines)
}
