ghost use Rattle.std.specs.Prelude.{◌≡◌, ◌≤◌, IfOk};
ghost use Rattle.tp_entry.specs.Kinds.{most};
ghost use Rattle.tp_entry.specs.Meaning.{entry_at, event_at, event_begun, line_of, one_id, one_number, output_at, two_places};
ghost use Rattle.tp_text.specs.Reading.{Gives};

use crate::draft::{Draft, enter};
use crate::fault::{JournalCause, Refusal};
use crate::words::{MOST, read_actor, take_end, take_id, take_message, take_number};
use std::alloc::Global;
use tp_base::CommandId;
use tp_rules::{Entry, Event, Inner, Outputs};
use tp_text::{LineReader, Words};

// An entry and a place.
#[tactic(auto, unfolding(crate::specs::Meaning::two_places))]
fn two_places(words: &mut Words) -> Result<(u64, u64), Refusal>
    ensures { Gives (λ at. at) result (two_places words.old) }
{
    let entry = take_number(words, 1, u64::MAX)?;
    let place = take_number(words, 1, u64::MAX)?;
    take_end(words)?;
    Ok((entry, place))
}

#[tactic(auto, unfolding(crate::specs::Meaning::one_number))]
fn one_number(words: &mut Words) -> Result<u64, Refusal>
    ensures read { Gives (λ n. n) result (one_number words.old) }
    ensures within { IfOk result (λ n. n ≤ most) }
{
    let number = take_number(words, 0, MOST)?;
    take_end(words)?;
    Ok(number)
}

#[tactic(auto, unfolding(crate::specs::Meaning::one_id))]
fn one_id(words: &mut Words) -> Result<CommandId, Refusal>
    ensures { Gives (λ i. i) result (one_id words.old) }
{
    let id = take_id(words)?;
    take_end(words)?;
    Ok(id)
}

#[tactic(auto, unfolding(crate::specs::Meaning::event_at))]
fn read_event(word: &[u8], words: &mut Words) -> Result<Event, Refusal>
    ensures { Gives (λ e. e) result (event_at word.now words.old) }
{
    if word == b"deliver".as_slice() {
        let (entry, place) = two_places(words)?;
        Ok(Event::Deliver { entry, place })
    } else if word == b"drop".as_slice() {
        let (entry, place) = two_places(words)?;
        Ok(Event::Dropped { entry, place })
    } else if word == b"submit".as_slice() {
        Ok(Event::Inner(Inner::Submit(one_number(words)? as u32)))
    } else if word == b"recover".as_slice() {
        Ok(Event::Inner(Inner::Recover(one_id(words)?)))
    } else if word == b"announce".as_slice() {
        take_end(words)?;
        Ok(Event::Inner(Inner::Announce))
    } else if word == b"declare".as_slice() {
        Ok(Event::Inner(Inner::Declare(one_id(words)?)))
    } else if word == b"execute".as_slice() {
        Ok(Event::Inner(Inner::Execute(one_id(words)?)))
    } else if word == b"crash".as_slice() {
        take_end(words)?;
        Ok(Event::Inner(Inner::Crash))
    } else {
        Err(Refusal::Cause(JournalCause::Word))
    }
}

#[tactic(auto, unfolding(crate::specs::Meaning::event_begun))]
fn take_event(words: &mut Words) -> Result<Event, Refusal>
    ensures { Gives (λ e. e) result (event_begun words.old) }
{
    match words.next_word() {
        Some(word) => read_event(word, words),
        None => Err(Refusal::Cause(JournalCause::Word)),
    }
}

#[tactic(auto, unfolding(crate::specs::Meaning::entry_at))]
fn read_entry(alloc: Global, word: &[u8], words: &mut Words) -> Result<Entry, Refusal>
    ensures { Gives (λ e. e) result (entry_at word.now words.old) }
{
    let actor = read_actor(word)?;
    let event = take_event(words)?;
    Ok(Entry {
        actor,
        event,
        outputs: Outputs::new(alloc),
    })
}

#[tactic(auto, unfolding(crate::specs::Meaning::output_at))]
fn read_output(alloc: Global, draft: &mut Draft, words: &mut Words) -> Result<(), Refusal>
    ensures { Gives (λ _. draft.new) result (output_at draft.old words.old) }
{
    match &mut draft.last {
        Some(last) => {
            let message = take_message(alloc, words)?;
            take_end(words)?;
            last.outputs.add(message)?;
            Ok(())
        }
        None => Err(Refusal::Cause(JournalCause::Word)),
    }
}

/// The lines behind the first.
impl LineReader<JournalCause> for Draft {
    ghost line_of = { line_of };

    ghost is_fit = { λ _. Unit {0} };

    #[tactic(auto, unfolding(crate::specs::Meaning::line_of))]
    fn read_line(&mut self, alloc: Global, words: &mut Words) -> Result<bool, Refusal> {
        let Some(word) = words.next_word() else {
            return Err(Refusal::Cause(JournalCause::Word));
        };
        if word == b">".as_slice() {
            read_output(alloc, self, words)?;
            Ok(true)
        } else if word == b"end".as_slice() {
            take_end(words)?;
            Ok(false)
        } else {
            let entry = read_entry(alloc, word, words)?;
            enter(self, entry)?;
            Ok(true)
        }
    }
}
