ghost use Rattle.std.specs.Prelude.{◌≡◌, ◌+◌, length};
ghost use Rattle.tp_worker.specs.Cells.{GoesOn, HasAllFetched, IsDone};
ghost use Rattle.tp_worker.specs.declared.cell.CellState.TheVariants.{Live};

use crate::bells::Bells;
use crate::cell::{Cell, CellState};
use std::sync::Wait;
use std::thread;
use tp_outside::Gate;
use tp_rules::Actor;
use tp_shared::Shared;

// A cell that finds nothing looks so often for mail before it sleeps.
const LOOKS: u32 = 4;

/// Enters the cell's steps, one after the other, until none is pending or the cell isn't live. It passes the gate before
/// each entry that it offers, and neither runs the actor nor passes the gate while it holds the turn. It answers how many
/// entries it made.
pub fn work<R: Wait, A: Actor, G: Gate>(
    rt: &R,
    cell: &mut Cell<A>,
    shared: &Shared,
    gate: &G,
) -> u64
    requires table { cell.old.desk.table ≡ shared.now }
    ensures goes_on { GoesOn A.identity_of cell.old cell.new }
    ensures made { length cell.new.desk.own ≡ length cell.old.desk.own + result }
    ensures done { cell.new.state ≡ Live → IsDone cell.new }
{
    work_beside(rt, cell, shared, &Bells::new(), gate)
}

/// The same beside the other cells of a round, whose bells these are: it waits for their messages until all of them wait.
pub(crate) fn work_beside<R: Wait, A: Actor, G: Gate>(
    rt: &R,
    cell: &mut Cell<A>,
    shared: &Shared,
    bells: &Bells,
    gate: &G,
) -> u64
    requires table { cell.old.desk.table ≡ shared.now }
    ensures goes_on { GoesOn A.identity_of cell.old cell.new }
    ensures made { length cell.new.desk.own ≡ length cell.old.desk.own + result }
    ensures done { cell.new.state ≡ Live → IsDone cell.new }
{
    if cell.state() != CellState::Live {
        return 0;
    }
    let before = cell.made();
    bells.wake();
    cell.listen(rt, shared, bells);
    take_steps(rt, cell, shared, bells, gate);
    cell.made() - before
}

// Enters one step after the other, and waits for messages where there is none.
fn take_steps<R: Wait, A: Actor, G: Gate>(
    rt: &R,
    cell: &mut Cell<A>,
    shared: &Shared,
    bells: &Bells,
    gate: &G,
)
    requires table { cell.old.desk.table ≡ shared.now }
    requires fetched { HasAllFetched cell.old }
    ensures goes_on { GoesOn A.identity_of cell.old cell.new }
    ensures done { cell.new.state ≡ Live → IsDone cell.new }
{
    for _ in rt.forever() {
        if cell.state() != CellState::Live {
            bells.rest();
            return;
        }
        if cell.step(rt, shared, bells, gate) {
            continue;
        }
        if !waits(rt, cell, bells) {
            return;
        }
        cell.listen(rt, shared, bells);
    }
    unreachable!()
}

// Waits until the cell has mail. False where no cell is awake any more.
fn waits<R: Wait, A: Actor>(rt: &R, cell: &Cell<A>, bells: &Bells) -> bool {
    for _ in 0..LOOKS {
        if cell.has_mail(bells) {
            return true;
        }
        thread::yield_now();
    }
    cell.sleep(rt, bells)
}
