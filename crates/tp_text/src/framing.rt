ghost use Rattle.std.specs.Prelude.{◌≡◌, ◌+◌, ◌∷◌, [], None, IfOk, MatchOption, OnOk};
ghost use Rattle.tp_text.specs.Framing.{ended_line, header_at, header_line, line_at, lines_from, most_version, version};
ghost use Rattle.tp_text.specs.Lines.{lines_of, two_of};
ghost use Rattle.tp_text.specs.Numbers.{number_of};
ghost use Rattle.tp_text.specs.Reading.{Gives, IsTail, Reads, all_lines};

use crate::fault::{Refusal, TextError, TextFault};
use crate::lines::Lines;
use crate::numbers::number;
use crate::words::Words;
use std::alloc::Global;

/// Why a text's first line is faulty.
#[derive(Clone, Copy, Debug)]
pub struct HeaderCauses<C> {
    /// It isn't the text's name and a version.
    pub header: C,
    /// It names a later version.
    pub newer: C,
}

/// What the lines behind the first ones said so far, and how the next one is read.
pub trait LineReader<C> {
    ghost use Rattle.std.specs.Prelude.{ℕ, Bool, List, Result, OnOk};
    ghost use Rattle.tp_text.specs.Reading.{Gives};

    /// What the words of a line say: whether more lines follow, and what was said with it.
    ghost line_of: { Self → List (List ℕ) → Result (Bool × Self) C };

    /// What is kept from line to line.
    ghost is_fit: { Self → Type 0 };

    /// Reads a line. Whether more lines follow it.
    fn read_line(&mut self, alloc: Global, words: &mut Words) -> Result<bool, Refusal<C>>
        requires { is_fit self.old }
        ensures read { Gives (λ more. (more, self.new)) result (line_of self.old words.old) }
        ensures fit { OnOk result (is_fit self.new) };
}

/// A line with its end. Where there is none, the cause that is given.
#[tactic(auto, unfolding(crate::specs::Framing::ended_line))]
pub fn take_line<'a, C: Copy>(lines: &mut Lines<'a>, missing: C) -> Result<&'a [u8], TextError<C>>
    ensures read { Reads (λ line. (line.now, lines_of lines.new.left)) result
        (ended_line (lines.old.count + 1) missing (lines_of lines.old.left)) }
    ensures rest { IfOk result (λ line. lines_of lines.old.left ≡ line.now ∷ lines_of lines.new.left) }
    ensures count { OnOk result (lines.new.count ≡ lines.old.count + 1) }
    ensures all { OnOk result (all_lines lines.new ≡ all_lines lines.old) }
{
    match lines.next_line() {
        Ok(line) => Ok(line),
        Err(_) => Err(TextError::Fault(TextFault {
            line: lines.number() + 1,
            cause: missing,
        })),
    }
}

// Whether a word is the version that is read.
fn read_version<C: Copy>(causes: HeaderCauses<C>, word: &[u8]) -> Result<(), Refusal<C>>
    ensures { Gives (λ _. tt) result (version causes (number_of most_version word.now)) }
{
    match number(word, u64::from(u32::MAX)) {
        Ok(1) => Ok(()),
        Ok(n) => {
            if n >= 2 {
                Err(Refusal::Cause(causes.newer))
            } else {
                Err(Refusal::Cause(causes.header))
            }
        }
        Err(_) => Err(Refusal::Cause(causes.header)),
    }
}

// Two words and no others.
fn two_words<'a>(words: &mut Words<'a>) -> Option<(&'a [u8], &'a [u8])>
    ensures { MatchOption result (two_of words.old ≡ None) (λ p. words.old ≡ p.0.now ∷ p.1.now ∷ []) }
{
    match words.next_word() {
        Some(first) => match words.next_word() {
            Some(second) => match words.next_word() {
                Some(_) => None,
                None => Some((first, second)),
            },
            None => None,
        },
        None => None,
    }
}

#[tactic(auto, unfolding(crate::specs::Framing::header_line))]
fn read_header<C: Copy>(
    name: &[u8],
    causes: HeaderCauses<C>,
    words: &mut Words,
) -> Result<(), Refusal<C>>
    ensures { Gives (λ _. tt) result (header_line name.now causes words.old) }
{
    match two_words(words) {
        Some((word, version)) => {
            if word == name {
                read_version(causes, version)
            } else {
                Err(Refusal::Cause(causes.header))
            }
        }
        None => Err(Refusal::Cause(causes.header)),
    }
}

/// Takes the first line of a text.
#[tactic(auto, unfolding(crate::specs::Framing::line_at))]
pub fn take_header<C: Copy>(
    lines: &mut Lines,
    name: &[u8],
    causes: HeaderCauses<C>,
) -> Result<(), TextError<C>>
    ensures read { Reads (λ _. (tt, lines_of lines.new.left)) result
        (header_at name.now causes (lines.old.count + 1) (lines_of lines.old.left)) }
    ensures count { OnOk result (lines.new.count ≡ lines.old.count + 1) }
    ensures all { OnOk result (all_lines lines.new ≡ all_lines lines.old) }
{
    let number = lines.number() + 1;
    let line = take_line(lines, causes.header)?;
    match read_header(name, causes, &mut Words::new(line)) {
        Ok(()) => Ok(()),
        Err(Refusal::Memory) => Err(TextError::NoMemory),
        Err(Refusal::Cause(cause)) => Err(TextError::Fault(TextFault {
            line: number,
            cause,
        })),
    }
}

// The next line of a draft. Whether more lines follow it.
#[tactic(auto, unfolding(crate::specs::Framing::line_at))]
fn take_one<C: Copy, D: LineReader<C>>(
    alloc: Global,
    lines: &mut Lines,
    missing: C,
    draft: &mut D,
) -> Result<bool, TextError<C>>
    requires { D.is_fit draft.old }
    ensures read { Reads (λ more. ((more, draft.new), lines_of lines.new.left)) result
        (line_at (lines.old.count + 1) missing (D.line_of draft.old) (lines_of lines.old.left)) }
    ensures fit { OnOk result (D.is_fit draft.new) }
    ensures rest { OnOk result (IsTail (lines_of lines.old.left) (lines_of lines.new.left)) }
    ensures count { OnOk result (lines.new.count ≡ lines.old.count + 1) }
    ensures all { OnOk result (all_lines lines.new ≡ all_lines lines.old) }
{
    let number = lines.number() + 1;
    let line = take_line(lines, missing)?;
    match draft.read_line(alloc, &mut Words::new(line)) {
        Ok(more) => Ok(more),
        Err(Refusal::Memory) => Err(TextError::NoMemory),
        Err(Refusal::Cause(cause)) => Err(TextError::Fault(TextFault {
            line: number,
            cause,
        })),
    }
}

/// Takes lines up to the first one behind which no more follow.
pub fn take_lines<C: Copy, D: LineReader<C>>(
    alloc: Global,
    lines: &mut Lines,
    missing: C,
    draft: &mut D,
) -> Result<(), TextError<C>>
    requires { D.is_fit draft.old }
    ensures read { Reads (λ _. (draft.new, lines_of lines.new.left)) result
        (lines_from missing D.line_of (lines.old.count + 1) draft.old (lines_of lines.old.left)) }
    ensures all { OnOk result (all_lines lines.new ≡ all_lines lines.old) }
{
    let mut more = true;
    while more {
        more = take_one(alloc, lines, missing, draft)?;
    }
    Ok(())
}
