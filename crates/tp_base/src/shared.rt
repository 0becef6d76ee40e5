ghost use Rattle.std.specs.Prelude.{◌≡◌, ◌≤◌, ◌<◌, ◌^◌, ◌↔◌, length, slice_get, IfOk, IsNone};
ghost use Rattle.std.specs.Option.{option_copied};

use crate::names::{NoMemory, Pair};
use crate::sequence::{Duplicate, Sequence};
use std::alloc::Global;
use std::marker::Model;
use std::sync::Arc;

/// A list that does not change any more. All its copies are one list, so a copy is a count.
#[derive(Debug, Drop)]
pub struct Shared<T> {
    items: Arc<Sequence<T>>,
}

/// Attached promises.
pub type Pairs = Shared<Pair>;

impl<T> Model for Shared<T> {
    ghost use Rattle.std.specs.Prelude.{List};
    ghost use Rattle.std.specs.Coded.{coded_list};
    ghost use Rattle.std.specs.Arc.{arc_value};

    ghost Value = { List T };

    ghost coded = { coded_list T.code };

    ghost view = { λ s. arc_value s.items };
}

impl<T> Shared<T> {
    pub fn len(&self) -> usize
        ensures count { result ≡ length self.now }
        ensures small { result < 2 ^ 63 }
    {
        self.items.len()
    }

    /// The item at `i`, counted from 0.
    pub fn get(&self, i: usize) -> Option<&T>
        ensures item { option_copied result ≡ slice_get self.now i }
        ensures past { IsNone result ↔ (length self.now ≤ i) }
    {
        self.items.get(i)
    }

    pub fn as_slice(&self) -> &[T]
        ensures { result.now ≡ self.now }
    {
        self.items.as_slice()
    }
}

impl<T: Drop> Shared<T> {
    /// The list of these items, which stay where they are.
    pub fn new(alloc: Global, items: Sequence<T>) -> Result<Self, NoMemory>
        ensures { IfOk result (λ shared. shared ≡ items) }
    {
        let items = Arc::new(alloc, items)?;
        Ok(Shared { items })
    }
}

impl<T: Drop> Duplicate for Shared<T> {
    fn copy(&self) -> Result<Self, NoMemory> {
        let items = Arc::try_clone(&self.items)?;
        Ok(Shared { items })
    }
}
