ghost use Rattle.std.specs.Prelude.{◌≡◌, ◌≢◌, ◌<◌, true, length, Ok, Err, IfOk, IfErr};
ghost use Rattle.std.specs.List.{list_all};
ghost use Rattle.tp_text.specs.Hexadecimal.{is_hex, nibble, pair_values, hex_of};

use std::alloc::Global;
use thiserror::Error;
use tp_base::{Bytes, NoMemory};

/// Why a word is no hexadecimal.
#[derive(Clone, Copy, Debug, PartialEq, Eq, Error)]
pub enum HexFault {
    /// Its length is odd.
    #[error("odd hexadecimal")]
    OddHex,
    /// Its length is even, and a byte is none of `0-9a-f`.
    #[error("bad hexadecimal")]
    BadHex,
    #[error("memory")]
    NoMemory,
}

fn is_digit(c: u8) -> bool
    ensures { result ≡ is_hex c }
{
    (b'0' <= c && c <= b'9') || (b'a' <= c && c <= b'f')
}

fn are_digits(word: &[u8]) -> bool
    ensures { result ≡ list_all is_hex word.now }
{
    word.iter().all(|c| is_digit(*c))
}

fn digit_value(c: u8) -> u8
    requires { is_hex c ≡ true }
    ensures value { result ≡ nibble c }
    ensures small { result < 16 }
{
    if c <= b'9' { c - b'0' } else { c - b'a' + 10 }
}

fn values(alloc: Global, word: &[u8]) -> Result<Bytes, NoMemory>
    requires { list_all is_hex word.now ≡ true }
    ensures { IfOk result (λ bytes. bytes ≡ pair_values word.now) }
{
    let mut bytes = Vec::with_capacity(alloc, word.len() / 2)?;
    let mut rest = word;
    while let [high, low, behind @ ..] = rest {
        bytes.push(digit_value(*high) * 16 + digit_value(*low))?;
        rest = behind;
    }
    Ok(Bytes::from_vec(bytes))
}

/// The bytes that a hexadecimal word says.
#[tactic(auto, unfolding(crate::specs::Hexadecimal::hex_of))]
pub fn hex(alloc: Global, word: &[u8]) -> Result<Bytes, HexFault>
    ensures read { IfOk result (λ bytes. hex_of word.now ≡ Ok bytes) }
    ensures refused { IfErr result (λ fault. fault ≢ HexFault.NoMemory → hex_of word.now ≡ Err fault) }
{
    if word.len() % 2 == 1 {
        return Err(HexFault::OddHex);
    }
    if !are_digits(word) {
        return Err(HexFault::BadHex);
    }
    match values(alloc, word) {
        Ok(bytes) => Ok(bytes),
        Err(NoMemory) => Err(HexFault::NoMemory),
    }
}
