ghost use Rattle.std.specs.Prelude.{◌≡◌, ◌∷◌, List, Some, IfOk, OnOk};
ghost use Rattle.tp_fates.specs.Fates.{AreFates, Names, TellsNext, fate_of, is_lost, named_in, repeated};
ghost use Rattle.tp_fates.specs.declared.fate.Fate.{Fate};
ghost use Rattle.tp_rules.specs.Plan.{fate_by};
ghost use Rattle.tp_script.specs.declared.script.PlanLine.{PlanLine as LineValue};

use crate::route::{Route, Routes};
use indexmap::IndexMap;
use std::alloc::Global;
use tp_base::{ActorName, NoMemory};
use tp_script::PlanLine;

/// What becomes of an output: it is lost, or delivered so often.
#[derive(Clone, Copy, Debug, PartialEq, Eq)]
pub enum Fate {
    Lost,
    Times(u8),
}

/// An output by its number among all outputs between two actors, from 1.
#[derive(Clone, Copy, Debug, PartialEq, Eq, Hash)]
struct Passage {
    route: Route,
    ordinal: u128,
}

impl Passage {
    fn new(from: ActorName, to: ActorName, ordinal: u32) -> Passage
        ensures { result ≡ record { route = record { from = from; to = to }; ordinal = ordinal } }
    {
        Passage {
            route: Route { from, to },
            ordinal: ordinal as u128,
        }
    }
}

/// The fates that a plan gives: of the outputs that it names, and of all others.
#[derive(Debug, Drop)]
pub struct Fates {
    named: IndexMap<Passage, Fate>,
    others: u8,
}

impl Fates {
    /// The fates of a plan.
    pub fn new(alloc: Global, plan: &[PlanLine]) -> Result<Fates, NoMemory>
        ensures { IfOk result (AreFates plan.now) }
    {
        let mut fates = Fates {
            named: IndexMap::new(alloc),
            others: 1,
        };
        for k in 0..plan.len() {
            fates.add(&plan[plan.len() - 1 - k])?;
        }
        Ok(fates)
    }

    /// The fate of the next output between two actors. It is counted there only if the plan names an output at all.
    pub fn of_next(&self, routes: &mut Routes, route: Route) -> Result<Fate, NoMemory>
        ensures { IfOk result (TellsNext self.now routes.old routes.new route) }
    {
        if self.named.is_empty() {
            return Ok(Fate::Times(self.others));
        }
        let ordinal = routes.count(route)?;
        Ok(self.of(Passage { route, ordinal }))
    }

    /// The fate of an output.
    fn of(&self, passage: Passage) -> Fate
        ensures { (plan : List LineValue) → AreFates plan self.now
            → fate_of result ≡ fate_by plan passage.route.from passage.route.to passage.ordinal }
    {
        match self.named.get(&passage) {
            Some(fate) => *fate,
            None => Fate::Times(self.others),
        }
    }

    fn is_lost(&self, passage: Passage) -> bool
        ensures { result ≡ is_lost (named_in self.now passage) }
    {
        match self.named.get(&passage) {
            Some(Fate::Lost) => true,
            Some(Fate::Times(_)) | None => false,
        }
    }

    // Adds a line in front of those that were added.
    fn add(&mut self, line: &PlanLine) -> Result<(), NoMemory>
        ensures { OnOk result ((plan : List LineValue) → AreFates plan self.old → AreFates (line.now ∷ plan) self.new) }
    {
        match *line {
            PlanLine::Crash { .. } | PlanLine::Recover { .. } => Ok(()),
            PlanLine::Lose { from, to, ordinal } => self.lose(Passage::new(from, to, ordinal)),
            PlanLine::Repeat {
                from,
                to,
                ordinal,
                times,
            } => self.repeat(Passage::new(from, to, ordinal), times),
            PlanLine::RepeatAll { times } => {
                self.others = times;
                Ok(())
            }
        }
    }

    fn lose(&mut self, passage: Passage) -> Result<(), NoMemory>
        ensures { OnOk result (Names self.old self.new passage (Some Fate.Lost)) }
    {
        self.named.insert(passage, Fate::Lost)?;
        Ok(())
    }

    // An output that is lost isn't repeated.
    fn repeat(&mut self, passage: Passage, times: u8) -> Result<(), NoMemory>
        ensures { OnOk result (Names self.old self.new passage (repeated times (named_in self.old passage))) }
    {
        if self.is_lost(passage) {
            return Ok(());
        }
        self.named.insert(passage, Fate::Times(times))?;
        Ok(())
    }
}
