ghost use Rattle.std.specs.Prelude.{◌≡◌, ◌≤◌, ◌<◌, ◌↔◌, ◌∷◌, [], length, take, IfOk, OnOk, OnErr, IfErr, IsOk, IsErr};
ghost use Rattle.tp_base.specs.Fields.{IsBytes, big_endian, big_endian_value, left, past};

use std::marker::Model;
use thiserror::Error;

/// Why a field was not cut off.
#[derive(Clone, Copy, Debug, PartialEq, Eq, Error)]
pub enum CutFault {
    #[error("too long")]
    TooLong { got: usize, limit: usize },
    #[error("short")]
    Short,
}

/// A reader that cuts an input into fields, from its first byte on.
#[derive(Debug, Drop)]
pub struct Cut<'a> {
    input: &'a [u8],
    place: usize,
}

impl<'a> Model for Cut<'a> {
    ghost use Rattle.std.specs.Prelude.{◌≤◌, length};
    ghost use Rattle.tp_base.specs.Fields.{At};

    ghost Value = { At };

    ghost view = { λ cut. record { input = cut.input.now; place = cut.place } };

    ghost invariant = { λ cut. cut.place ≤ length cut.input.now };
}

fn array_of<const N: usize>(field: &[u8]) -> [u8; N]
    requires { length field.now ≡ N }
    ensures same { result ≡ field.now }
    ensures bytes { IsBytes result }
{
    let mut bytes = [0u8; N];
    bytes.copy_from_slice(field);
    bytes
}

impl<'a> Cut<'a> {
    pub fn new(bytes: &'a [u8]) -> Self
        ensures input { result.input ≡ bytes.now }
        ensures place { result.place ≡ 0 }
    {
        Cut {
            input: bytes,
            place: 0,
        }
    }

    /// How many bytes were taken.
    pub fn place(&self) -> usize
        ensures place { result ≡ self.now.place }
        ensures within { result ≤ length self.now.input }
    {
        let _ = &self.input;
        self.place
    }

    fn field(&mut self, len: usize) -> Result<&'a [u8], CutFault>
        ensures short { IsErr result ↔ (length (left self.old) < len) }
        ensures cause { IfErr result (λ fault. fault ≡ CutFault.Short) }
        ensures taken { IfOk result (λ field. field.now ≡ take len (left self.old)) }
        ensures past { OnOk result (self.new ≡ past len self.old) }
        ensures same { OnErr result (self.new ≡ self.old) }
    {
        let input: &'a [u8] = self.input;
        let from = self.place;
        if input.len() - from < len {
            return Err(CutFault::Short);
        }
        self.place = from + len;
        Ok(&input[from..from + len])
    }

    fn array<const N: usize>(&mut self) -> Result<[u8; N], CutFault>
        ensures short { IsErr result ↔ (length (left self.old) < N) }
        ensures cause { IfErr result (λ fault. fault ≡ CutFault.Short) }
        ensures taken { IfOk result (λ field. field ≡ take N (left self.old)) }
        ensures bytes { IfOk result (λ field. (length field ≡ N) × IsBytes field) }
        ensures past { OnOk result (self.new ≡ past N self.old) }
        ensures same { OnErr result (self.new ≡ self.old) }
    {
        let field = self.field(N)?;
        Ok(array_of(field))
    }

    pub fn u8_at(&mut self) -> Result<u8, CutFault>
        ensures short { IsErr result ↔ (length (left self.old) < 1) }
        ensures cause { IfErr result (λ fault. fault ≡ CutFault.Short) }
        ensures taken { IfOk result (λ byte. take 1 (left self.old) ≡ byte ∷ []) }
        ensures past { OnOk result (self.new ≡ past 1 self.old) }
        ensures same { OnErr result (self.new ≡ self.old) }
    {
        let [byte] = self.array::<1>()?;
        Ok(byte)
    }

    pub fn u32_be(&mut self) -> Result<u32, CutFault>
        ensures short { IsErr result ↔ (length (left self.old) < 4) }
        ensures cause { IfErr result (λ fault. fault ≡ CutFault.Short) }
        ensures value { IfOk result (λ number. number ≡ big_endian_value (take 4 (left self.old))) }
        ensures taken { IfOk result (λ number. take 4 (left self.old) ≡ big_endian 4 number) }
        ensures past { OnOk result (self.new ≡ past 4 self.old) }
        ensures same { OnErr result (self.new ≡ self.old) }
    {
        let bytes = self.array::<4>()?;
        Ok(u32::from_be_bytes(bytes))
    }

    pub fn u64_be(&mut self) -> Result<u64, CutFault>
        ensures short { IsErr result ↔ (length (left self.old) < 8) }
        ensures cause { IfErr result (λ fault. fault ≡ CutFault.Short) }
        ensures value { IfOk result (λ number. number ≡ big_endian_value (take 8 (left self.old))) }
        ensures taken { IfOk result (λ number. take 8 (left self.old) ≡ big_endian 8 number) }
        ensures past { OnOk result (self.new ≡ past 8 self.old) }
        ensures same { OnErr result (self.new ≡ self.old) }
    {
        let bytes = self.array::<8>()?;
        Ok(u64::from_be_bytes(bytes))
    }

    /// The next `len` bytes, where that is within the limit.
    pub fn bytes(&mut self, len: usize, limit: usize) -> Result<&'a [u8], CutFault>
        ensures ok { IsOk result ↔ ((len ≤ limit) × (len ≤ length (left self.old))) }
        ensures too_long { (result ≡ Err (CutFault.TooLong len limit)) ↔ (limit < len) }
        ensures short { (result ≡ Err CutFault.Short) ↔ ((len ≤ limit) × (length (left self.old) < len)) }
        ensures taken { IfOk result (λ field. field.now ≡ take len (left self.old)) }
        ensures past { OnOk result (self.new ≡ past len self.old) }
        ensures same { OnErr result (self.new ≡ self.old) }
    {
        if limit < len {
            return Err(CutFault::TooLong { got: len, limit });
        }
        self.field(len)
    }
}
