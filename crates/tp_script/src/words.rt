ghost use Rattle.std.specs.Prelude.{◌≡◌, ◌≤◌, ◌<◌, length, codes, IfOk, OnOk};
ghost use Rattle.tp_script.specs.Kinds.{bytes_at, key, literal, no_word, number, take_word, value, value_at};
ghost use Rattle.tp_script.specs.declared.fault.ScriptCause.TheVariants.{Number};
ghost use Rattle.tp_text.specs.Numbers.{number_at};
ghost use Rattle.tp_text.specs.Reading.{Gives};

use crate::fault::{Refusal, ScriptCause};
use std::alloc::Global;
use tp_base::Bytes;
use tp_text::{HexFault, Words, hex, number_from};

/// The greatest number of a script.
pub(crate) const MOST: u32 = u32::MAX;

fn read_number(word: &[u8], low: u32, high: u32) -> Result<u32, Refusal>
    ensures read { Gives (λ n. n) result (number_at Number low high word.now) }
    ensures within { IfOk result (λ n. n ≤ high) }
{
    let number = number_from(word, u64::from(low), u64::from(high), ScriptCause::Number)?;
    Ok(number as u32)
}

/// The next word, a number in a range.
#[tactic(auto, unfolding(tp_text::specs::Rows::take_word))]
pub(crate) fn take_number(words: &mut Words, low: u32, high: u32) -> Result<u32, Refusal>
    ensures read { Gives (λ n. (n, words.new)) result (take_word (number low high) words.old) }
    ensures within { IfOk result (λ n. n ≤ high) }
{
    match words.next_word() {
        Some(word) => read_number(word, low, high),
        None => Err(Refusal::Cause(ScriptCause::Word)),
    }
}

/// The word `after`.
#[tactic(auto, unfolding(tp_text::specs::Rows::take_word))]
pub(crate) fn take_after(words: &mut Words) -> Result<(), Refusal>
    ensures { Gives (λ _. (tt, words.new)) result (take_word (literal (codes "after")) words.old) }
{
    match words.next_word() {
        Some(word) => {
            if word == b"after".as_slice() {
                Ok(())
            } else {
                Err(Refusal::Cause(ScriptCause::Word))
            }
        }
        None => Err(Refusal::Cause(ScriptCause::Word)),
    }
}

/// No further word.
pub(crate) fn take_end(words: &mut Words) -> Result<(), Refusal>
    ensures { Gives (λ _. tt) result (no_word words.old) }
{
    tp_text::take_end(words, ScriptCause::Word)
}

#[tactic(auto, unfolding(crate::specs::Kinds::bytes_at))]
fn read_bytes(
    alloc: Global,
    word: &[u8],
    longest: usize,
    cause: ScriptCause,
) -> Result<Bytes, Refusal>
    ensures { Gives (λ bytes. bytes) result (bytes_at cause longest word.now) }
{
    match hex(alloc, word) {
        Ok(bytes) => {
            if 1 <= bytes.len() && bytes.len() <= longest {
                Ok(bytes)
            } else {
                Err(Refusal::Cause(cause))
            }
        }
        Err(HexFault::NoMemory) => Err(Refusal::Memory),
        Err(_) => Err(Refusal::Cause(cause)),
    }
}

#[tactic(auto, unfolding(crate::specs::Kinds::value_at))]
fn read_value(alloc: Global, word: &[u8]) -> Result<Bytes, Refusal>
    ensures { Gives (λ bytes. bytes) result (value_at word.now) }
{
    if word == b"-".as_slice() {
        return Ok(Bytes::new(alloc));
    }
    read_bytes(alloc, word, 64, ScriptCause::Value)
}

/// The next word, a key.
#[tactic(auto, unfolding(tp_text::specs::Rows::take_word))]
pub(crate) fn take_key(alloc: Global, words: &mut Words) -> Result<Bytes, Refusal>
    ensures read { Gives (λ bytes. (bytes, words.new)) result (take_word key words.old) }
    ensures shorter { OnOk result (length words.new < length words.old) }
{
    match words.next_word() {
        Some(word) => read_bytes(alloc, word, 32, ScriptCause::Key),
        None => Err(Refusal::Cause(ScriptCause::Word)),
    }
}

/// The next word, a value.
#[tactic(auto, unfolding(tp_text::specs::Rows::take_word))]
pub(crate) fn take_value(alloc: Global, words: &mut Words) -> Result<Bytes, Refusal>
    ensures read { Gives (λ bytes. (bytes, words.new)) result (take_word value words.old) }
    ensures shorter { OnOk result (length words.new < length words.old) }
{
    match words.next_word() {
        Some(word) => read_value(alloc, word),
        None => Err(Refusal::Cause(ScriptCause::Word)),
    }
}
