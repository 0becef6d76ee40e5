ghost use Rattle.std.specs.Prelude.{◌≡◌, ◌∷◌, ◌+◌, ◌<◌, ◌^◌, [], IfOk, OnOk, IfErr, OnErr};
ghost use Rattle.tp_text.specs.Lines.{lines_of, end_fault};

use crate::cut::cut;
use std::marker::Model;
use thiserror::Error;

/// Why there is no next line.
#[derive(Clone, Copy, Debug, PartialEq, Eq, Error)]
pub enum LineFault {
    /// Nothing is left.
    #[error("at end")]
    AtEnd,
    /// Something is left, without a line end.
    #[error("unended")]
    Unended,
}

/// A reader that takes an input line by line.
#[derive(Debug, Drop)]
pub struct Lines<'a> {
    rest: &'a [u8],
    count: u64,
}

impl<'a> Model for Lines<'a> {
    ghost use Rattle.std.specs.Prelude.{◌+◌, ◌<◌, ◌^◌, length};
    ghost use Rattle.tp_text.specs.Lines.{Input};

    ghost Value = { Input };

    ghost view = { λ lines. record { left = lines.rest.now; count = lines.count } };

    ghost invariant = { λ lines. lines.count + length lines.rest.now < 2 ^ 63 };
}

impl<'a> Lines<'a> {
    pub fn new(bytes: &'a [u8]) -> Self
        ensures { result ≡ record { left = bytes.now; count = 0 } }
    {
        Lines {
            rest: bytes,
            count: 0,
        }
    }

    /// Takes the next line, and hands it out without its line end.
    pub fn next_line(&mut self) -> Result<&'a [u8], LineFault>
        ensures line { IfOk result (λ line. lines_of self.old.left ≡ line.now ∷ lines_of self.new.left) }
        ensures count { OnOk result (self.new.count ≡ self.old.count + 1) }
        ensures cause { IfErr result (λ fault. fault ≡ end_fault self.old.left) }
        ensures last { OnErr result (lines_of self.old.left ≡ self.old.left ∷ []) }
        ensures same { OnErr result (self.new ≡ self.old) }
    {
        let rest: &'a [u8] = self.rest;
        if rest.is_empty() {
            return Err(LineFault::AtEnd);
        }
        match cut(rest, b'\n') {
            Some((line, behind)) => {
                self.rest = behind;
                self.count += 1;
                Ok(line)
            }
            None => Err(LineFault::Unended),
        }
    }

    /// How many lines were taken.
    pub fn number(&self) -> u64
        ensures count { result ≡ self.now.count }
        ensures small { result < 2 ^ 63 }
    {
        let _ = &self.rest;
        self.count
    }
}
