ghost use Rattle.std.specs.Fmt.{decimal};
ghost use Rattle.std.specs.Prelude.{◌≡◌, ◌∷◌, [], map, IfOk, OnOk};
ghost use Rattle.tp_base.specs.Lists.{Each};
ghost use Rattle.tp_entry.specs.Journals.{IsEntry, IsJournal};
ghost use Rattle.tp_entry.specs.Print.{body, entry_lines, event_words, output_words, text_of};
ghost use Rattle.tp_text.specs.Names.{id_word};
ghost use Rattle.tp_text.specs.Writing.{ended, with_lines, with_words};
ghost use Rattle.tp_wire.specs.Ranges.{IsInRange};

use std::alloc::Global;
use tp_base::{Bytes, CommandId, NoMemory};
use tp_rules::{Entries, Entry, Event, Inner};
use tp_text::Text;
use tp_wire::{Message, encode};

fn put_place(text: &mut Text, name: &[u8], entry: u64, place: u64) -> Result<(), NoMemory>
    ensures { OnOk result (text.new ≡ with_words text.old (name.now ∷ decimal entry ∷ decimal place ∷ [])) }
{
    text.word(name)?;
    text.number(entry)?;
    text.number(place)
}

fn put_id(text: &mut Text, name: &[u8], id: CommandId) -> Result<(), NoMemory>
    ensures { OnOk result (text.new ≡ with_words text.old (name.now ∷ id_word id ∷ [])) }
{
    text.word(name)?;
    text.id(id)
}

fn put_event(text: &mut Text, event: Event) -> Result<(), NoMemory>
    ensures { OnOk result (text.new ≡ with_words text.old (event_words event)) }
{
    match event {
        Event::Deliver { entry, place } => put_place(text, b"deliver", entry, place),
        Event::Dropped { entry, place } => put_place(text, b"drop", entry, place),
        Event::Inner(Inner::Submit(n)) => {
            text.word(b"submit")?;
            text.number(u64::from(n))
        }
        Event::Inner(Inner::Recover(id)) => put_id(text, b"recover", id),
        Event::Inner(Inner::Announce) => text.word(b"announce"),
        Event::Inner(Inner::Declare(id)) => put_id(text, b"declare", id),
        Event::Inner(Inner::Execute(id)) => put_id(text, b"execute", id),
        Event::Inner(Inner::Crash) => text.word(b"crash"),
    }
}

fn put_output(alloc: Global, text: &mut Text, message: &Message) -> Result<(), NoMemory>
    requires { IsInRange message.now }
    ensures { OnOk result (text.new ≡ ended (with_words text.old (output_words message.now))) }
{
    text.word(b">")?;
    let bytes = encode(alloc, message)?;
    text.hex(bytes.as_slice())?;
    text.end_line()
}

fn put_outputs(alloc: Global, text: &mut Text, outputs: &[Message]) -> Result<(), NoMemory>
    requires { Each IsInRange outputs.now }
    ensures { OnOk result (text.new ≡ with_lines text.old (map output_words outputs.now)) }
{
    for message in outputs {
        put_output(alloc, text, message)?;
    }
    Ok(())
}

fn put_entry(alloc: Global, text: &mut Text, entry: &Entry) -> Result<(), NoMemory>
    requires { IsEntry entry.now }
    ensures { OnOk result (text.new ≡ with_lines text.old (entry_lines entry.now)) }
{
    text.actor(entry.actor)?;
    put_event(text, entry.event)?;
    text.end_line()?;
    put_outputs(alloc, text, entry.outputs.as_slice())
}

fn put_entries(alloc: Global, text: &mut Text, entries: &[Entry]) -> Result<(), NoMemory>
    requires { IsJournal entries.now }
    ensures { OnOk result (text.new ≡ with_lines text.old (body entries.now)) }
{
    for entry in entries {
        put_entry(alloc, text, entry)?;
    }
    Ok(())
}

/// The one text that is read as the journal.
pub fn print_journal(alloc: Global, entries: &Entries) -> Result<Bytes, NoMemory>
    requires { IsJournal entries.now }
    ensures { IfOk result (λ bytes. bytes ≡ text_of entries.now) }
{
    let mut text = Text::new(alloc);
    text.header(b"journal")?;
    put_entries(alloc, &mut text, entries.as_slice())?;
    text.end()?;
    Ok(text.finish())
}
