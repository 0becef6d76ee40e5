ghost use Rattle.std.specs.Prelude.{◌≡◌, is_some, map, set, IfOk};
ghost use Rattle.tp_bits.specs.Bits.{ones, select};

use std::alloc::Global;
use std::marker::Model;
use tp_base::NoMemory;
use tp_bits::Bits;
use tp_rules::Inner;

/// The step of its own that each actor may make, in the order of the roster.
#[derive(Debug, Drop)]
pub struct OwnSteps {
    steps: Vec<Option<Inner>>,
    // Which of them are there.
    able: Bits,
}

impl Model for OwnSteps {
    ghost use Rattle.std.specs.Prelude.{List, Option, is_some, map};
    ghost use Rattle.tp_bits.specs.Bits.{AreBits};
    ghost use Rattle.tp_rules.specs.declared.event.Inner.{Inner};

    ghost Value = { List (Option Inner) };

    ghost view = { λ own. own.steps.items };

    ghost invariant = { λ own. AreBits (map is_some own.steps.items) own.able };
}

impl OwnSteps {
    /// The steps as they are given.
    pub fn new(alloc: Global, steps: Vec<Option<Inner>>) -> Result<OwnSteps, NoMemory>
        ensures { IfOk result (λ own. own ≡ steps.items) }
    {
        let mut able = Bits::new(alloc);
        for step in &steps {
            able.push(step.is_some())?;
        }
        Ok(OwnSteps { steps, able })
    }

    /// Writes the step at a place, where there is one.
    pub fn set(&mut self, place: usize, step: Option<Inner>)
        ensures { self.new ≡ set self.old place step }
    {
        if place < self.steps.len() {
            self.steps[place] = step;
            self.able.set(place, step.is_some());
        }
    }

    pub(crate) fn as_slice(&self) -> &[Option<Inner>]
        ensures { result.now ≡ self.now }
    {
        self.steps.as_slice()
    }

    /// How many actors may make one.
    pub(crate) fn count(&self) -> u64
        ensures { result ≡ ones (map is_some self.now) }
    {
        self.able.count_ones()
    }

    /// The place of the step that has so many before it.
    pub(crate) fn select(&self, rank: u64) -> Option<usize>
        ensures { result ≡ select (map is_some self.now) rank }
    {
        self.able.select(rank)
    }
}
