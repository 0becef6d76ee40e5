ghost use Rattle.std.specs.Prelude.{◌≡◌, [], IfOk, OnOk};
ghost use Rattle.tp_fates.specs.Routes.{AreCounts, HasCounted, counted_in};

use indexmap::IndexMap;
use std::alloc::Global;
use tp_base::{ActorName, NoMemory};

/// Between two actors.
#[derive(Clone, Copy, Debug, PartialEq, Eq, Hash)]
pub struct Route {
    pub from: ActorName,
    pub to: ActorName,
}

/// How many outputs there were on each route.
#[derive(Debug, Drop)]
pub struct Routes {
    counts: IndexMap<Route, u128>,
}

impl Routes {
    /// Before the first output.
    pub fn new(alloc: Global) -> Routes
        ensures { AreCounts [] result }
    {
        Routes {
            counts: IndexMap::new(alloc),
        }
    }

    /// Counts one more output, and gives its number.
    pub fn count(&mut self, route: Route) -> Result<u128, NoMemory>
        ensures { IfOk result (HasCounted self.old self.new route) }
    {
        let number = self.counted(route).saturating_add(1);
        self.counts.insert(route, number)?;
        Ok(number)
    }

    fn counted(&self, route: Route) -> u128
        ensures { result ≡ counted_in self.now route }
    {
        match self.counts.get(&route) {
            Some(count) => *count,
            None => 0,
        }
    }
}
