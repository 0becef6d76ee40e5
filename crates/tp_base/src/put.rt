ghost use Rattle.std.specs.Prelude.{◌≡◌, [], ◌∷◌, ◌++◌, OnOk, OnErr};
ghost use Rattle.tp_base.specs.Fields.{big_endian};

use crate::names::NoMemory;
use crate::sequence::{Bytes, Sequence};
use std::alloc::Global;
use std::marker::Model;

/// A writer of fields, that contracts see as the list of the bytes written.
#[derive(Debug, Drop)]
pub struct Put {
    bytes: Vec<u8>,
}

impl Model for Put {
    ghost use Rattle.std.specs.Prelude.{List, ℕ};

    ghost Value = { List ℕ };

    ghost view = { λ put. put.bytes.items };
}

impl Put {
    /// A writer that has written nothing. It takes no memory.
    pub fn new(alloc: Global) -> Self
        ensures { result ≡ [] }
    {
        Put {
            bytes: Vec::new(alloc),
        }
    }

    pub fn byte(&mut self, v: u8) -> Result<(), NoMemory>
        ensures written { OnOk result (self.new ≡ self.old ++ v ∷ []) }
        ensures same { OnErr result (self.new ≡ self.old) }
    {
        self.bytes.push(v)?;
        Ok(())
    }

    pub fn u32_be(&mut self, v: u32) -> Result<(), NoMemory>
        ensures written { OnOk result (self.new ≡ self.old ++ big_endian 4 v) }
        ensures same { OnErr result (self.new ≡ self.old) }
    {
        self.bytes.extend_from_slice(&u32::to_be_bytes(v))?;
        Ok(())
    }

    pub fn u64_be(&mut self, v: u64) -> Result<(), NoMemory>
        ensures written { OnOk result (self.new ≡ self.old ++ big_endian 8 v) }
        ensures same { OnErr result (self.new ≡ self.old) }
    {
        self.bytes.extend_from_slice(&u64::to_be_bytes(v))?;
        Ok(())
    }

    pub fn bytes(&mut self, v: &[u8]) -> Result<(), NoMemory>
        ensures written { OnOk result (self.new ≡ self.old ++ v.now) }
        ensures same { OnErr result (self.new ≡ self.old) }
    {
        self.bytes.extend_from_slice(v)?;
        Ok(())
    }

    /// What was written. It takes no memory.
    pub fn finish(self) -> Bytes
        ensures { result ≡ self }
    {
        let Put { bytes } = self;
        Sequence::from_vec(bytes)
    }
}
