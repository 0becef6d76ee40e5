ghost use Rattle.std.specs.Prelude.{◌≡◌, ◌∷◌, [], false, IfOk, OnOk};
ghost use Rattle.tp_base.specs.Lists.{Each, has};
ghost use Rattle.tp_base.specs.Names.{same_name};
ghost use Rattle.tp_driver.specs.Cast.{AllStand};
ghost use Rattle.tp_rules.specs.Acts.{name_in};
ghost use Rattle.tp_script.specs.Accepted.{IsAccepted};
ghost use Rattle.tp_shared.specs.Known.{listed_too, new_desk};
ghost use Rattle.tp_threads.specs.Threads.{HasCells, IsCellAt, IsFirst, IsNew};

use std::alloc::Global;
use tp_base::NoMemory;
use tp_netbook::Inbox;
use tp_rules::Actor;
use tp_script::Script;
use tp_shared::{Desk, Shared};
use tp_worker::Cell;

/// A cell for each of the script's actors, with a desk that is split from the first.
pub fn cells_of<A: Actor>(
    alloc: Global,
    script: &Script,
    shared: &Shared,
    first: &mut Desk,
    mut actors: Vec<A>,
) -> Result<Vec<Cell<A>>, NoMemory>
    requires accepted { IsAccepted script.now }
    requires cast { AllStand A.identity_of A.is_spent A.stands script.now actors.items [] }
    requires first { IsFirst script.now shared.now first.old }
    requires empty { (first.old.seen ≡ []) × (first.old.listed ≡ []) }
    ensures first { OnOk result (IsFirst script.now shared.now first.new) }
    ensures empty { OnOk result (first.new.seen ≡ []) }
    ensures cells { IfOk result (λ cells. Each (IsCellAt script.now shared.now) cells.items) }
    ensures all { IfOk result (λ cells. HasCells script.now 0 first.new cells.items) }
{
    let mut cells = Vec::new(alloc);
    while let Some(actor) = actors.pop() {
        let cell = cell_of(alloc, script, shared, first, actor)?;
        cells.push(cell)?;
    }
    Ok(cells)
}

// The cell of a new actor, with a desk that is split for it.
fn cell_of<A: Actor>(
    alloc: Global,
    script: &Script,
    shared: &Shared,
    first: &mut Desk,
    actor: A,
) -> Result<Cell<A>, NoMemory>
    requires accepted { IsAccepted script.now }
    requires actor { IsNew A.identity_of A.is_spent A.stands script.now (name_in (A.identity_of actor)) actor }
    requires first { IsFirst script.now shared.now first.old }
    requires fresh { has same_name (name_in (A.identity_of actor)) first.old.listed ≡ false }
    ensures first { OnOk result (first.new ≡ listed_too first.old (name_in (A.identity_of actor))) }
    ensures cell { IfOk result (λ cell. cell.desk ≡ new_desk first.old (name_in (A.identity_of actor))) }
{
    let name = actor.name();
    let inbox = Inbox::new(alloc, script, name)?;
    let desk = first.split(shared, name);
    Ok(Cell::new(alloc, actor, desk, inbox))
}
