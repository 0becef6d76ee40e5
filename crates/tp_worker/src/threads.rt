ghost use Rattle.std.specs.Prelude.{◌≡◌, ◌≤◌, length, true};
ghost use Rattle.tp_base.specs.Lists.{Each};
ghost use Rattle.tp_worker.specs.Cells.{AllDone, AllGoOn, GoesOn, IsDone, NoneSpent};
ghost use Rattle.tp_worker.specs.declared.cell.CellState.TheVariants.{Live};

use crate::bells::Bells;
use crate::cell::{Cell, CellState};
use crate::working::work_beside;
use std::sync::Wait;
use std::thread;
use std::thread::Threads;
use tp_outside::Gate;
use tp_rules::Actor;
use tp_shared::Shared;

/// Lets all cells work beside each other, each on a thread of its own, until nothing is pending for any live cell or a cell
/// is spent.
pub fn rounds<R: Threads + Wait + Sync, A: Actor + Send, G: Gate + Sync>(
    rt: &R,
    cells: &mut [Cell<A>],
    shared: &Shared,
    gate: &G,
)
    requires table { Each (λ c. c.desk.table ≡ shared.now) cells.old }
    ensures go_on { AllGoOn A.identity_of cells.old cells.new }
    ensures done { NoneSpent cells.new → AllDone cells.new }
{
    let bells = Bells::new();
    for _ in rt.forever() {
        round(rt, cells, shared, &bells, gate);
        if has_ended(cells) {
            return;
        }
    }
    unreachable!()
}

// Each cell works until it finds nothing to do.
fn round<R: Threads + Wait + Sync, A: Actor + Send, G: Gate + Sync>(
    rt: &R,
    cells: &mut [Cell<A>],
    shared: &Shared,
    bells: &Bells,
    gate: &G,
)
    requires table { Each (λ c. c.desk.table ≡ shared.now) cells.old }
    ensures go_on { AllGoOn A.identity_of cells.old cells.new }
    ensures done { Each (λ c. c.state ≡ Live → IsDone c) cells.new }
{
    let threads = cells.len();
    if threads == 0 {
        return;
    }
    thread::for_each_mut(
        rt,
        cells,
        threads,
        &|_, cell: &mut Cell<A>|
            requires { cell.now.desk.table ≡ shared.now }
            ensures { GoesOn A.identity_of cell.entry.now cell.exit.now
                × (cell.exit.now.state ≡ Live → IsDone cell.exit.now) }
        {
            work_beside(rt, cell, shared, bells, gate);
        },
    );
}

// Whether a cell is spent, or each live one has seen as much as any.
fn has_ended<A: Actor>(cells: &[Cell<A>]) -> bool
    requires done { Each (λ c. c.state ≡ Live → IsDone c) cells.now }
    ensures { result ≡ true → NoneSpent cells.now → AllDone cells.now }
{
    if is_any_spent(cells) {
        return true;
    }
    have_seen(cells, most_seen(cells))
}

fn is_any_spent<A: Actor>(cells: &[Cell<A>]) -> bool
    ensures { result ≡ true → NoneSpent cells.now → ⊥ }
{
    for cell in cells {
        if let CellState::Spent = cell.state() {
            return true;
        }
    }
    false
}

// The length of the longest list that a cell's desk has seen.
fn most_seen<A: Actor>(cells: &[Cell<A>]) -> u64
    ensures { Each (λ c. length c.desk.seen ≤ result) cells.now }
{
    let mut most = 0;
    for cell in cells {
        most = most.max(cell.seen());
    }
    most
}

// Whether the desk of each live cell has seen so much.
fn have_seen<A: Actor>(cells: &[Cell<A>], most: u64) -> bool
    ensures { result ≡ true → Each (λ c. c.state ≡ Live → length c.desk.seen ≡ most) cells.now }
{
    for cell in cells {
        if cell.state() == CellState::Live && cell.seen() != most {
            return false;
        }
    }
    true
}
