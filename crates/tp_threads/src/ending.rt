ghost use Rattle.std.specs.Prelude.{◌≡◌, ◌≢◌, ◌⊎◌, [], true, false, None, Some, List};
ghost use Rattle.tp_base.specs.Lists.{Each, IsIn, IsPrefixOf, has};
ghost use Rattle.tp_base.specs.Names.{same_name};
ghost use Rattle.tp_base.specs.declared.names.ActorName.{ActorName as ActorValue};
ghost use Rattle.tp_rules.specs.Pending.{IsQuiet};
ghost use Rattle.tp_rules.specs.Runs.{IsRun};
ghost use Rattle.tp_script.specs.Accepted.{IsAccepted};
ghost use Rattle.tp_shared.specs.Known.{AllJoined, joined};
ghost use Rattle.tp_threads.specs.Threads.{HasCells, IsCellAt, IsFirst, IsJoined, IsOneSeen, IsPartOf, JoinsTo};
ghost use Rattle.tp_worker.specs.Cells.{AllDone, IsCell, NoneSpent, Worker};
ghost use Rattle.tp_worker.specs.declared.cell.CellState.TheVariants.{Spent};

use std::sync::Wait;
use tp_journal::Journal;
use tp_rules::Actor;
use tp_script::Script;
use tp_shared::{Desk, Shared};
use tp_worker::{Cell, CellState};

/// The journal when the work is done, and whether a cell is spent.
#[derive(Drop)]
pub struct Ended {
    pub journal: Journal,
    pub spent: bool,
}

/// Joins the desks of all cells, whose work is done, to the first, which then closes the journal.
pub fn end<A: Actor>(
    rt: &impl Wait,
    script: &Script,
    shared: Shared,
    mut first: Desk,
    cells: Vec<Cell<A>>,
) -> Ended
    requires first { IsFirst script.now shared first }
    requires accepted { IsAccepted script.now }
    requires empty { first.seen ≡ [] }
    requires cells { Each (IsCellAt script.now shared) cells.items }
    requires all { HasCells script.now 0 first cells.items }
    requires done { NoneSpent cells.items → AllDone cells.items }
    ensures run { IsRun script.now result.journal }
    ensures own { (w : Worker A) → IsIn w cells.items → (name : ActorValue)
        × IsCell A.identity_of A.is_spent A.stands name w × IsPartOf w name result.journal }
    ensures one { IsOneSeen first.seen cells.items result.journal }
    ensures spent { result.spent ≡ false → NoneSpent cells.items }
    ensures quiet { result.spent ≡ false → IsQuiet script.now result.journal }
{
    let spent = join_all(script, &shared, &mut first, cells);
    first.hold(rt, &shared);
    Ended {
        journal: shared.close(first),
        spent,
    }
}

// Joins the desks of all cells to the first. Tells whether a cell is spent.
fn join_all<A: Actor>(
    script: &Script,
    shared: &Shared,
    first: &mut Desk,
    mut cells: Vec<Cell<A>>,
) -> bool
    requires first { IsFirst script.now shared.now first.old }
    requires cells { Each (IsCellAt script.now shared.now) cells.items }
    requires all { HasCells script.now 0 first.old cells.items }
    ensures first { JoinsTo first.old first.new }
    ensures all { AllJoined first.new }
    ensures joined { (w : Worker A) → IsIn w cells.items → IsJoined A.identity_of A.is_spent A.stands w first.new }
    ensures one { IsOneSeen first.old.seen cells.items first.new.seen }
    ensures spent { result ≡ false → NoneSpent cells.items }
{
    let mut spent = false;
    while let Some(cell) = cells.pop() {
        spent |= join_cell(shared, first, cell);
    }
    spent
}

// Joins the desk of a cell to the first. Tells whether the cell is spent.
fn join_cell<A: Actor>(shared: &Shared, first: &mut Desk, cell: Cell<A>) -> bool
    requires table { (first.old.table ≡ shared.now) × (cell.desk.table ≡ shared.now) }
    requires first { (first.old.actor ≡ None) × (first.old.holds ≡ false) }
    ensures first { first.new ≡ joined first.old cell.desk }
    ensures longer { IsPrefixOf first.old.seen first.new.seen }
    ensures joined { IsJoined A.identity_of A.is_spent A.stands cell first.new }
    ensures spent { result ≡ false → cell.state ≢ Spent }
{
    let spent = matches!(cell.state(), CellState::Spent);
    let (_actor, desk) = cell.parts();
    first.join(shared, desk);
    spent
}
