ghost use Rattle.std.specs.Prelude.{◌≡◌, ◌≤◌, ◌<◌, true, nat_le, if◌then◌else◌, Ok, Err, IfOk};
ghost use Rattle.std.specs.Char.{is_ascii_digit};
ghost use Rattle.std.specs.List.{list_all};
ghost use Rattle.std.specs.Str.Parse.{digits_value};
ghost use Rattle.tp_text.specs.Numbers.{is_number, number_at, number_of};
ghost use Rattle.tp_text.specs.Reading.{Gives};

use crate::fault::Refusal;
use thiserror::Error;

/// Why a word is no number of a range.
#[derive(Clone, Copy, Debug, PartialEq, Eq, Error)]
pub enum NumberFault {
    /// It isn't `0`, nor digits without a leading zero.
    #[error("not a number")]
    NotANumber,
    /// It is above the limit.
    #[error("number too large")]
    NumberTooLarge,
}

fn are_digits(word: &[u8]) -> bool
    ensures { result ≡ list_all is_ascii_digit word.now }
{
    word.iter().all(|c| c.is_ascii_digit())
}

fn is_numeral(word: &[u8]) -> bool
    ensures { result ≡ is_number word.now }
{
    match word {
        [] => false,
        [c] => c.is_ascii_digit(),
        [first, ..] => {
            if *first == b'0' {
                false
            } else {
                are_digits(word)
            }
        }
    }
}

fn value(word: &[u8], limit: u64) -> Result<u64, NumberFault>
    requires { list_all is_ascii_digit word.now ≡ true }
    ensures { result ≡ (if nat_le (digits_value 10 word.now) limit
        then Ok (digits_value 10 word.now) else Err NumberFault.NumberTooLarge) }
{
    let mut n = 0u64;
    for c in word {
        let next = u128::from(n) * 10 + u128::from(*c - b'0');
        if next > u128::from(limit) {
            return Err(NumberFault::NumberTooLarge);
        }
        n = next as u64;
    }
    Ok(n)
}

/// The decimal number that a word says, up to a limit.
#[tactic(auto, unfolding(crate::specs::Numbers::number_of))]
pub fn number(word: &[u8], limit: u64) -> Result<u64, NumberFault>
    ensures exact { result ≡ number_of limit word.now }
    ensures within { IfOk result (λ n. n ≤ limit) }
{
    if is_numeral(word) {
        value(word, limit)
    } else {
        Err(NumberFault::NotANumber)
    }
}

/// The decimal number that a word says, from a number to another. Where there is none, the cause that
/// is given.
#[tactic(auto, unfolding(crate::specs::Numbers::number_at))]
pub fn number_from<C: Copy>(word: &[u8], low: u64, high: u64, cause: C) -> Result<u64, Refusal<C>>
    ensures read { Gives (λ n. n) result (number_at cause low high word.now) }
    ensures within { IfOk result (λ n. n ≤ high) }
{
    match number(word, high) {
        Ok(n) => {
            if low <= n {
                Ok(n)
            } else {
                Err(Refusal::Cause(cause))
            }
        }
        Err(_) => Err(Refusal::Cause(cause)),
    }
}
