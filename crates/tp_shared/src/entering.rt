ghost use Rattle.std.specs.Prelude.{◌≡◌, ◌≢◌, true, None, length, IfOk, OnErr, OnOk, MatchResult};
ghost use Rattle.tp_shared.specs.Histories.{MayFollow};
ghost use Rattle.tp_shared.specs.Known.{crash_in, entered, entry_of, FaultIs};

use crate::desk::Desk;
use crate::looking::crash_after;
use thiserror::Error;
use tp_base::NoMemory;
use tp_rules::{Entry, Event, Outputs};

/// Why nothing was entered.
#[derive(Clone, Copy, Debug, PartialEq, Eq, Error)]
pub enum EnterFault {
    /// The actor's site crashed, first by this entry.
    #[error("site crashed by entry {entry}")]
    Crashed { entry: u64 },
    #[error("out of memory")]
    NoMemory,
}

impl Desk {
    /// Appends the actor's entry to the journal in hand, and answers its number. It costs what the
    /// entry sends.
    pub fn enter(&mut self, event: Event, outputs: Outputs) -> Result<u64, EnterFault>
        requires held { (self.old.holds ≡ true) × (self.old.actor ≢ None) }
        requires legal { crash_in self.old.actor self.old.seen ≡ None
            → MayFollow self.old.opening.script self.old.seen (entry_of self.old event outputs) }
        ensures entered { OnOk result (self.new ≡ entered self.old (entry_of self.old event outputs)) }
        ensures number { IfOk result (λ n. n ≡ length self.new.seen) }
        ensures same { OnErr result (self.new ≡ self.old) }
        ensures crashed { MatchResult result
            (λ _. crash_in self.old.actor self.old.seen ≡ None) (FaultIs (crash_in self.old.actor self.old.seen)) }
    {
        if let Some(entry) = self.crash {
            return Err(EnterFault::Crashed { entry });
        }
        let (Some(actor), Some(mut journal)) = (self.actor, self.hand.take()) else {
            unreachable!()
        };
        match journal.enter(Entry {
            actor,
            event,
            outputs,
        }) {
            Ok(number) => {
                self.crash = crash_after(self.actor, None, &journal, self.looked);
                self.count = number;
                self.looked = number;
                self.hand = Some(journal);
                Ok(number)
            }
            Err(NoMemory) => {
                self.hand = Some(journal);
                Err(EnterFault::NoMemory)
            }
        }
    }
}
