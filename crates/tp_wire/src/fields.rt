ghost use Rattle.std.specs.Prelude.{◌≡◌, ◌≤◌, ◌<◌, ◌^◌, Ok, IfOk, length};
ghost use Rattle.tp_wire.specs.Meaning.{bytes_at, fault_at, number_at, text_at, value_at};
ghost use Rattle.tp_wire.specs.Reading.{Gives};
ghost use Rattle.tp_wire.specs.declared.fault.WireError.TheVariants.{Fault};

use crate::fault::{WireCause, WireError, WireFault};
use std::alloc::Global;
use tp_base::{Bytes, Cut, NoMemory, Sequence};

/// A fault at the place where the reader stood.
pub(crate) fn fault(place: usize, cause: WireCause) -> WireError
    ensures { result ≡ Fault (record { place = place; cause = cause }) }
{
    WireError::Fault(WireFault {
        place: place as u64,
        cause,
    })
}

#[tactic(auto, using(crate::proofs::OneByte::one_byte_value), unfolding(crate::specs::Meaning::value_at, crate::specs::Meaning::bytes_at))]
pub(crate) fn take_u8(cut: &mut Cut) -> Result<u8, WireError>
    ensures { Gives (λ n. (n, cut.new)) result (value_at 1 cut.old) }
{
    let place = cut.place();
    match cut.u8_at() {
        Ok(n) => Ok(n),
        Err(_) => Err(fault(place, WireCause::Short)),
    }
}

#[tactic(auto, unfolding(crate::specs::Meaning::value_at, crate::specs::Meaning::bytes_at))]
fn take_u32(cut: &mut Cut) -> Result<u32, WireError>
    ensures { Gives (λ n. (n, cut.new)) result (value_at 4 cut.old) }
{
    let place = cut.place();
    match cut.u32_be() {
        Ok(n) => Ok(n),
        Err(_) => Err(fault(place, WireCause::Short)),
    }
}

#[tactic(auto, unfolding(crate::specs::Meaning::value_at, crate::specs::Meaning::bytes_at))]
fn take_u64(cut: &mut Cut) -> Result<u64, WireError>
    ensures { Gives (λ n. (n, cut.new)) result (value_at 8 cut.old) }
{
    let place = cut.place();
    match cut.u64_be() {
        Ok(n) => Ok(n),
        Err(_) => Err(fault(place, WireCause::Short)),
    }
}

/// A number of one byte, from low to high.
#[tactic(auto, unfolding(crate::specs::Meaning::number_at))]
pub(crate) fn take_byte(cut: &mut Cut, low: u8, high: u8) -> Result<u8, WireError>
    ensures read { Gives (λ n. (n, cut.new)) result (number_at 1 low high cut.old) }
    ensures within { IfOk result (λ n. n ≤ high) }
{
    let place = cut.place();
    let n = take_u8(cut)?;
    if low <= n && n <= high {
        Ok(n)
    } else {
        Err(fault(place, WireCause::Range))
    }
}

/// A number of four bytes, from low to high.
#[tactic(auto, unfolding(crate::specs::Meaning::number_at))]
pub(crate) fn take_four(cut: &mut Cut, low: u32, high: u32) -> Result<u32, WireError>
    ensures { Gives (λ n. (n, cut.new)) result (number_at 4 low high cut.old) }
{
    let place = cut.place();
    let n = take_u32(cut)?;
    if low <= n && n <= high {
        Ok(n)
    } else {
        Err(fault(place, WireCause::Range))
    }
}

/// A number of eight bytes, from low to high.
#[tactic(auto, unfolding(crate::specs::Meaning::number_at))]
pub(crate) fn take_eight(cut: &mut Cut, low: u64, high: u64) -> Result<u64, WireError>
    ensures read { Gives (λ n. (n, cut.new)) result (number_at 8 low high cut.old) }
    ensures from { IfOk result (λ n. low ≤ n) }
    ensures within { IfOk result (λ n. n ≤ high) }
{
    let place = cut.place();
    let n = take_u64(cut)?;
    if low <= n && n <= high {
        Ok(n)
    } else {
        Err(fault(place, WireCause::Range))
    }
}

#[tactic(auto, unfolding(crate::specs::Meaning::bytes_at))]
fn take_bytes<'a>(cut: &mut Cut<'a>, len: usize) -> Result<&'a [u8], WireError>
    ensures { Gives (λ bytes. (bytes.now, cut.new)) result (bytes_at len cut.old) }
{
    let place = cut.place();
    match cut.bytes(len, len) {
        Ok(bytes) => Ok(bytes),
        Err(_) => Err(fault(place, WireCause::Short)),
    }
}

fn kept(alloc: Global, bytes: &[u8]) -> Result<Bytes, NoMemory>
    ensures { IfOk result (λ kept. kept ≡ bytes.now) }
{
    let mut kept = Vec::new(alloc);
    kept.extend_from_slice(bytes)?;
    Ok(Sequence::from_vec(kept))
}

/// A length from low to high, and so many bytes.
#[tactic(auto, unfolding(crate::specs::Meaning::text_at))]
fn take_text(alloc: Global, cut: &mut Cut, low: u8, high: u8) -> Result<Bytes, WireError>
    ensures { Gives (λ bytes. (bytes, cut.new)) result (text_at low high cut.old) }
{
    let len = take_byte(cut, low, high)?;
    let bytes = take_bytes(cut, usize::from(len))?;
    Ok(kept(alloc, bytes)?)
}

pub(crate) fn take_key(alloc: Global, cut: &mut Cut) -> Result<Bytes, WireError>
    ensures { Gives (λ bytes. (bytes, cut.new)) result (text_at 1 32 cut.old) }
{
    take_text(alloc, cut, 1, 32)
}

pub(crate) fn take_value(alloc: Global, cut: &mut Cut) -> Result<Bytes, WireError>
    ensures { Gives (λ bytes. (bytes, cut.new)) result (text_at 0 64 cut.old) }
{
    take_text(alloc, cut, 0, 64)
}
