ghost use Rattle.std.specs.Prelude.{◌≡◌, ◌↔◌, ◌≤◌, Contains, IsTrue};
ghost use Rattle.tp_outside.specs.Causes.{raised};

use tp_base::Picks;

/// Calls that are counted: those of some numbers, from 1, fail.
#[derive(Drop)]
pub struct Calls {
    pub failing: Picks,
    pub made: u64,
    pub faults: u64,
}

impl Calls {
    pub fn new(failing: Picks) -> Self
        ensures { result ≡ record { failing = failing; made = 0; faults = 0 } }
    {
        Calls {
            failing,
            made: 0,
            faults: 0,
        }
    }

    /// Counts one more call, and answers whether it fails.
    pub fn next_fails(&mut self) -> bool
        ensures fails { IsTrue result ↔ Contains self.old.failing (raised self.old.made) }
        ensures later { self.old.faults ≤ self.new.faults }
        ensures failed { IsTrue result
            → self.new ≡ record self.old { made = raised self.old.made; faults = raised self.old.faults } }
        ensures passed { ¬ IsTrue result → self.new ≡ record self.old { made = raised self.old.made } }
    {
        self.made = self.made.saturating_add(1);
        let fails = is_among(self.made, self.failing.as_slice());
        if fails {
            self.faults = self.faults.saturating_add(1);
        }
        fails
    }
}

fn is_among(number: u64, numbers: &[u32]) -> bool
    ensures { IsTrue result ↔ Contains numbers.now number }
{
    numbers.iter().any(|n| u64::from(*n) == number)
}
