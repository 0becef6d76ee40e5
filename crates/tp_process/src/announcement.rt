ghost use Rattle.std.specs.Prelude.{◌≡◌, IfOk, OnOk};
ghost use Rattle.tp_process.specs.State.{IsState, all_told, identity};
ghost use Rattle.tp_rules.specs.Process.{ProcessState, announced, on_announce};

use crate::addresses::{executors_of, send_each};
use crate::process::Process;
use std::mem;
use tp_base::{NoMemory, Pairs, Sequence};
use tp_rules::Outputs;
use tp_wire::Body;

impl Process {
    /// Announces the promises that were not told yet to all executors of the partition.
    pub(crate) fn on_announce(&mut self) -> Result<Outputs, NoMemory>
        ensures identity { identity self.new ≡ identity self.old }
        ensures outputs { IfOk result (λ outputs. (s : ProcessState) → IsState self.old s
            → outputs ≡ (on_announce self.old.place.topology self.old.place.site s).1) }
        ensures state { OnOk result ((s : ProcessState) → IsState self.old s
            → IsState self.new (on_announce self.old.place.topology self.old.place.site s).0) }
    {
        if self.clock.told() < self.clock.now() {
            return self.announce();
        }
        Ok(self.nothing())
    }

    #[tactic(auto, unfolding(tp_rules::specs::Process::announced))]
    fn announce(&mut self) -> Result<Outputs, NoMemory>
        ensures identity { identity self.new ≡ identity self.old }
        ensures outputs { IfOk result (λ outputs. (s : ProcessState) → IsState self.old s
            → outputs ≡ announced self.old.place.topology self.old.place.site s) }
        ensures state { OnOk result ((s : ProcessState) → IsState self.old s → IsState self.new (all_told s)) }
    {
        let place = self.place;
        let names = executors_of(self.alloc, &place.topology, place.site.partition)?;
        let mut outputs = self.room(names.len())?;
        let (lo, hi) = self.clock.tell();
        let untold = mem::replace(&mut self.untold, Sequence::new(self.alloc));
        let pairs = Pairs::new(self.alloc, untold)?;
        let body = Body::MPromises { lo, hi, pairs };
        send_each(&mut outputs, place.name(), names.as_slice(), &body)?;
        Ok(outputs)
    }
}
