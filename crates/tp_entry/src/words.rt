ghost use Rattle.std.specs.Prelude.{◌≡◌, ◌≤◌, Ok, IfOk};
ghost use Rattle.tp_entry.specs.Kinds.{dotted_at, id, message, no_word, number, parts, read_actor, read_id, read_message, read_session, read_site, else_wire, take_word};
ghost use Rattle.tp_text.specs.Reading.{Gives};
ghost use Rattle.tp_wire.specs.Meaning.{message_of};

use crate::fault::{JournalCause, Refusal};
use std::alloc::Global;
use tp_base::{ActorName, CommandId, PartitionId, Rank, SessionId, Site};
use tp_text::{HexFault, NumberFault, Words, halves, hex, number, number_from};
use tp_wire::{Message, WireError, decode};

// The greatest partition, rank or session.
const MOST_PART: u64 = 255;

/// The greatest number that is no entry and no place.
pub(crate) const MOST: u64 = 4_294_967_295;

/// The next word, a number in a range.
#[tactic(auto, unfolding(tp_text::specs::Rows::take_word))]
pub(crate) fn take_number(words: &mut Words, low: u64, high: u64) -> Result<u64, Refusal>
    ensures read { Gives (λ n. (n, words.new)) result (take_word (number low high) words.old) }
    ensures within { IfOk result (λ n. n ≤ high) }
{
    match words.next_word() {
        Some(word) => number_from(word, low, high, JournalCause::Number),
        None => Err(Refusal::Cause(JournalCause::Word)),
    }
}

/// No further word.
pub(crate) fn take_end(words: &mut Words) -> Result<(), Refusal>
    ensures { Gives (λ _. tt) result (no_word words.old) }
{
    tp_text::take_end(words, JournalCause::Word)
}

// A part that is no number spoils the word's form, also where the other part is too large.
#[tactic(auto, unfolding(crate::specs::Kinds::parts))]
fn both_parts(
    first: Result<u64, NumberFault>,
    second: Result<u64, NumberFault>,
) -> Result<(u64, u64), Refusal>
    ensures read { Gives (λ pair. pair) result (parts first second) }
    ensures parts { IfOk result (λ pair. (first ≡ Ok pair.0) × (second ≡ Ok pair.1)) }
{
    match (first, second) {
        (Ok(m), Ok(n)) => Ok((m, n)),
        (Err(NumberFault::NotANumber), _) => Err(Refusal::Cause(JournalCause::Word)),
        (_, Err(NumberFault::NotANumber)) => Err(Refusal::Cause(JournalCause::Word)),
        (_, _) => Err(Refusal::Cause(JournalCause::Number)),
    }
}

// Two numbers with a point between them, each up to its limit.
#[tactic(auto, unfolding(crate::specs::Kinds::dotted_at))]
fn read_dotted(word: &[u8], first: u64, second: u64) -> Result<(u64, u64), Refusal>
    ensures read { Gives (λ pair. pair) result (dotted_at first second word.now) }
    ensures within { IfOk result (λ pair. (pair.0 ≤ first) × (pair.1 ≤ second)) }
{
    match halves(word, b'.') {
        Some((before, behind)) => both_parts(number(before, first), number(behind, second)),
        None => Err(Refusal::Cause(JournalCause::Word)),
    }
}

#[tactic(auto, unfolding(crate::specs::Kinds::read_site))]
fn read_site(word: &[u8]) -> Result<Site, Refusal>
    ensures { Gives (λ s. s) result (read_site word.now) }
{
    let (partition, rank) = read_dotted(word, MOST_PART, MOST_PART)?;
    Ok(Site {
        partition: PartitionId(partition as u8),
        rank: Rank(rank as u8),
    })
}

#[tactic(auto, unfolding(crate::specs::Kinds::read_id))]
fn read_id(word: &[u8]) -> Result<CommandId, Refusal>
    ensures { Gives (λ i. i) result (read_id word.now) }
{
    let (session, number) = read_dotted(word, MOST_PART, MOST)?;
    Ok(CommandId {
        session: SessionId(session as u8),
        number: number as u32,
    })
}

#[tactic(auto, unfolding(crate::specs::Kinds::read_session))]
fn read_session(word: &[u8]) -> Result<ActorName, Refusal>
    ensures { Gives (λ a. a) result (read_session word.now) }
{
    match number(word, MOST_PART) {
        Ok(session) => Ok(ActorName::Session(SessionId(session as u8))),
        Err(NumberFault::NotANumber) => Err(Refusal::Cause(JournalCause::Word)),
        Err(NumberFault::NumberTooLarge) => Err(Refusal::Cause(JournalCause::Number)),
    }
}

/// The actor that a word names.
#[tactic(auto, unfolding(crate::specs::Kinds::read_actor))]
pub(crate) fn read_actor(word: &[u8]) -> Result<ActorName, Refusal>
    ensures { Gives (λ a. a) result (read_actor word.now) }
{
    match word {
        [b'p', site @ ..] => Ok(ActorName::Process(read_site(site)?)),
        [b'e', site @ ..] => Ok(ActorName::Executor(read_site(site)?)),
        [b's', session @ ..] => read_session(session),
        _ => Err(Refusal::Cause(JournalCause::Word)),
    }
}

/// The next word, a command's identifier.
#[tactic(auto, unfolding(tp_text::specs::Rows::take_word))]
pub(crate) fn take_id(words: &mut Words) -> Result<CommandId, Refusal>
    ensures { Gives (λ i. (i, words.new)) result (take_word id words.old) }
{
    match words.next_word() {
        Some(word) => read_id(word),
        None => Err(Refusal::Cause(JournalCause::Word)),
    }
}

fn decoded(alloc: Global, bytes: &[u8]) -> Result<Message, Refusal>
    ensures { Gives (λ m. m) result (else_wire (message_of bytes.now)) }
{
    match decode(alloc, bytes) {
        Ok(message) => Ok(message),
        Err(WireError::NoMemory) => Err(Refusal::Memory),
        Err(WireError::Fault(fault)) => Err(Refusal::Cause(JournalCause::Wire(fault))),
    }
}

#[tactic(auto, unfolding(crate::specs::Kinds::read_message))]
fn read_message(alloc: Global, word: &[u8]) -> Result<Message, Refusal>
    ensures { Gives (λ m. m) result (read_message word.now) }
{
    match hex(alloc, word) {
        Ok(bytes) => {
            if bytes.len() > 0 {
                decoded(alloc, bytes.as_slice())
            } else {
                Err(Refusal::Cause(JournalCause::Hex))
            }
        }
        Err(HexFault::NoMemory) => Err(Refusal::Memory),
        Err(_) => Err(Refusal::Cause(JournalCause::Hex)),
    }
}

/// The next word, a message.
#[tactic(auto, unfolding(tp_text::specs::Rows::take_word))]
pub(crate) fn take_message(alloc: Global, words: &mut Words) -> Result<Message, Refusal>
    ensures { Gives (λ m. (m, words.new)) result (take_word message words.old) }
{
    match words.next_word() {
        Some(word) => read_message(alloc, word),
        None => Err(Refusal::Cause(JournalCause::Word)),
    }
}
