ghost use Rattle.std.specs.Prelude.{◌≡◌, ◌≤◌, ◌^◌, ◌∷◌, [], length, MatchOption, IfNone};
ghost use Rattle.tp_text.specs.Lines.{IsFirst, words_of};
ghost use Rattle.tp_text.specs.Reading.{Gives};
ghost use Rattle.tp_text.specs.Rows.{no_more};

use crate::cut::cut;
use crate::fault::Refusal;
use std::marker::Model;

/// The words of a line that are not yet taken, that contracts see as their list.
#[derive(Debug, Drop)]
pub struct Words<'a> {
    rest: &'a [u8],
    more: bool,
}

impl<'a> Model for Words<'a> {
    ghost use Rattle.std.specs.Prelude.{ℕ, List, [], if◌then◌else◌};
    ghost use Rattle.tp_text.specs.Lines.{words_of};

    ghost Value = { List (List ℕ) };

    ghost view = { λ w. if w.more then words_of w.rest.now else [] };
}

impl<'a> Words<'a> {
    /// The words of a line: the pieces between its spaces, an empty piece too.
    pub fn new(line: &'a [u8]) -> Self
        ensures { result ≡ words_of line.now }
    {
        Words {
            rest: line,
            more: true,
        }
    }

    /// No fewer words than are left.
    #[tactic(auto, using(crate::proofs::Joined::few_pieces))]
    pub fn most(&self) -> usize
        ensures bound { length self.now ≤ result }
        ensures small { result ≤ 2 ^ 63 }
    {
        if self.more { self.rest.len() + 1 } else { 0 }
    }

    /// The next word, which stays the next.
    pub fn peek(&self) -> Option<&'a [u8]>
        ensures { MatchOption result (self.now ≡ []) (λ w. IsFirst w.now self.now) }
    {
        if !self.more {
            return None;
        }
        match cut(self.rest, b' ') {
            Some((word, _)) => Some(word),
            None => Some(self.rest),
        }
    }

    /// Takes the next word.
    pub fn next_word(&mut self) -> Option<&'a [u8]>
        ensures word { MatchOption result (self.old ≡ []) (λ w. self.old ≡ w.now ∷ self.new) }
        ensures none { IfNone result (self.new ≡ []) }
    {
        if !self.more {
            return None;
        }
        let rest: &'a [u8] = self.rest;
        match cut(rest, b' ') {
            Some((word, behind)) => {
                self.rest = behind;
                Some(word)
            }
            None => {
                self.more = false;
                Some(rest)
            }
        }
    }
}

/// No further word. Where there is one, the cause that is given.
#[tactic(auto, unfolding(crate::specs::Rows::no_more))]
pub fn take_end<C: Copy>(words: &mut Words, cause: C) -> Result<(), Refusal<C>>
    ensures { Gives (λ _. tt) result (no_more cause words.old) }
{
    match words.next_word() {
        Some(_) => Err(Refusal::Cause(cause)),
        None => Ok(()),
    }
}
