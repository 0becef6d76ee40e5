ghost use Rattle.std.specs.Prelude.{◌≡◌, [], ◌∷◌, ◌++◌, ◌≤◌, ◌<◌, ◌^◌, ◌↔◌, length, slice_get, IfOk, OnOk, OnErr, IsNone, IsTrue};
ghost use Rattle.std.specs.Option.{option_copied};

use crate::names::NoMemory;
use std::alloc::Global;
use std::marker::Model;

/// A list that grows at its end, and that contracts see as the list of its items.
#[derive(Debug, Drop)]
pub struct Sequence<T> {
    items: Vec<T>,
}

/// Bytes of a text, a key or a value.
pub type Bytes = Sequence<u8>;

/// The numbers by which a run chooses its steps, or the numbers of the calls that fail.
pub type Picks = Sequence<u32>;

impl<T> Model for Sequence<T> {
    ghost use Rattle.std.specs.Prelude.{List};
    ghost use Rattle.std.specs.Coded.{coded_list};

    ghost Value = { List T };

    ghost coded = { coded_list T.code };

    ghost view = { λ s. s.items.items };
}

impl<T> Sequence<T> {
    /// The empty list. It takes no memory.
    pub fn new(alloc: Global) -> Self
        ensures { result ≡ [] }
    {
        Sequence {
            items: Vec::new(alloc),
        }
    }

    /// The list with the items of a `Vec`. It takes no memory.
    pub fn from_vec(items: Vec<T>) -> Self
        ensures { result ≡ items.items }
    {
        Sequence { items }
    }

    pub fn len(&self) -> usize
        ensures count { result ≡ length self.now }
        ensures small { result < 2 ^ 63 }
    {
        self.items.len()
    }

    pub fn is_empty(&self) -> bool
        ensures { IsTrue result ↔ (self.now ≡ []) }
    {
        self.items.is_empty()
    }

    /// The item at `i`, counted from 0.
    pub fn get(&self, i: usize) -> Option<&T>
        ensures item { option_copied result ≡ slice_get self.now i }
        ensures past { IsNone result ↔ (length self.now ≤ i) }
    {
        self.items.get(i)
    }

    pub fn as_slice(&self) -> &[T]
        ensures { result.now ≡ self.now }
    {
        self.items.as_slice()
    }
}

impl<T: Drop> Sequence<T> {
    /// Appends an item.
    pub fn add(&mut self, item: T) -> Result<(), NoMemory>
        ensures added { OnOk result (self.new ≡ self.old ++ item ∷ []) }
        ensures same { OnErr result (self.new ≡ self.old) }
    {
        self.items.push(item)?;
        Ok(())
    }
}

/// What can be copied where there is memory for the copy.
pub trait Duplicate: Drop {
    /// An equal value.
    fn copy(&self) -> Result<Self, NoMemory>
        ensures { IfOk result (λ copy. copy ≡ self.now) };
}

impl<T: Duplicate> Duplicate for Sequence<T> {
    fn copy(&self) -> Result<Self, NoMemory> {
        let mut items = Vec::with_capacity(*self.items.allocator(), self.items.len())?;
        for item in &self.items {
            items.push(item.copy()?)?;
        }
        Ok(Sequence { items })
    }
}

impl Duplicate for u8 {
    fn copy(&self) -> Result<Self, NoMemory> {
        Ok(*self)
    }
}
