ghost use Rattle.std.specs.Prelude.{◌≡◌, reverse, slice_get};
ghost use Rattle.std.specs.Option.{option_copied};
ghost use Rattle.tp_rules.specs.Journal.{output_at};

use tp_rules::Entry;
use tp_wire::Message;

fn entry_at(journal: &[Entry], place: usize) -> Option<&Entry>
    ensures { option_copied result ≡ slice_get journal.now place }
{
    if place < journal.len() {
        Some(&journal[place])
    } else {
        None
    }
}

/// The output at a place of an entry of a journal, both counted from 1.
pub fn output(journal: &[Entry], entry: u64, place: u64) -> Option<&Message>
    ensures { option_copied result ≡ output_at (reverse journal.now) entry place }
{
    if entry == 0 {
        return None;
    }
    if place == 0 {
        return None;
    }
    match entry_at(journal, entry as usize - 1) {
        Some(found) => found.outputs.get(place as usize - 1),
        None => None,
    }
}
