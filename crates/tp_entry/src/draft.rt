ghost use Rattle.std.specs.Prelude.{◌≡◌, IfOk, OnOk};
ghost use Rattle.tp_entry.specs.Meaning.{all_of, with_entry};

use std::mem;
use tp_base::NoMemory;
use tp_rules::{Entries, Entry};

/// The entries so far. The last one may get more outputs.
#[derive(Debug, Drop)]
pub(crate) struct Draft {
    pub(crate) entries: Entries,
    pub(crate) last: Option<Entry>,
}

/// Adds an entry.
pub(crate) fn enter(draft: &mut Draft, entry: Entry) -> Result<(), NoMemory>
    ensures { OnOk result (draft.new ≡ with_entry draft.old entry) }
{
    match mem::replace(&mut draft.last, Some(entry)) {
        Some(before) => draft.entries.add(before),
        None => Ok(()),
    }
}

/// All entries.
pub(crate) fn close(draft: Draft) -> Result<Entries, NoMemory>
    ensures { IfOk result (λ entries. entries ≡ all_of draft) }
{
    let Draft { mut entries, last } = draft;
    if let Some(last) = last {
        entries.add(last)?;
    }
    Ok(entries)
}
