// The steps on the turn word.
ghost use Rattle.std.specs.Prelude.{◌≡◌, ◌≢◌, true, false, [], ◌∷◌, Some, None};
ghost use Rattle.tp_base.specs.Lists.{has};
ghost use Rattle.tp_base.specs.Names.{same_name};
ghost use Rattle.tp_shared.specs.Steps.{Won, both, listing, newcomer, Looks};

use crate::law::{Acquire, Cut, Glue, Look, Naming, Place, Room};
use std::marker::Brand;
use std::sync::Wait;
use std::thread;
use tp_base::ActorName;

// Tries for the turn until it is won.
pub fn win(rt: &impl Wait, room: &Room, seat: &mut Place)
    requires table { (seat.old.table_id ≡ room.now.table_id) × (room.now.table_id.words ≡ 1)
        × (room.now.table_id.slots ≡ 1) }
    requires seat { (seat.old.me.0.spent ≡ false) × (seat.old.me.0.holds ≡ false) × (seat.old.me.1 ≡ []) }
    ensures table { seat.new.table_id ≡ seat.old.table_id }
    ensures won { Won seat.old.me.0 seat.new.me }
{
    for _ in rt.forever() {
        if room.compare_exchange::<Acquire>(seat, 0, 0, 1) == 0 {
            return;
        }
        thread::yield_now();
    }
    unreachable!()
}

fn cut<N: Naming>(room: &Room, seat: &mut Place, actor: ActorName) -> Place
    requires actor { actor ≡ N.actor }
    requires table { (seat.old.table_id ≡ room.now.table_id) × (room.now.table_id.words ≡ 1) }
    requires seat { (seat.old.me.0.spent ≡ false) × (seat.old.me.0.holds ≡ false) × (seat.old.me.0.actor ≡ None) }
    requires fresh { has same_name actor seat.old.me.0.listed ≡ false }
    ensures left { (seat.new.table_id ≡ seat.old.table_id)
        × (seat.new.me ≡ (listing actor seat.old.me.0, seat.old.me.1)) }
    ensures right { (result.table_id ≡ seat.old.table_id) × (result.me ≡ (newcomer actor seat.old.me.0, [])) }
{
    let _ = actor;
    room.split_seat::<Cut<N>>(seat)
}

// Splits a seat for an actor off the first.
pub fn split(room: &Room, seat: &mut Place, actor: ActorName) -> Place
    requires table { (seat.old.table_id ≡ room.now.table_id) × (room.now.table_id.words ≡ 1) }
    requires seat { (seat.old.me.0.spent ≡ false) × (seat.old.me.0.holds ≡ false) × (seat.old.me.0.actor ≡ None) }
    requires fresh { has same_name actor seat.old.me.0.listed ≡ false }
    ensures left { (seat.new.table_id ≡ seat.old.table_id)
        × (seat.new.me ≡ (listing actor seat.old.me.0, seat.old.me.1)) }
    ensures right { (result.table_id ≡ seat.old.table_id) × (result.me ≡ (newcomer actor seat.old.me.0, [])) }
{
    cut::<Brand>(room, seat, actor)
}

// Joins a seat to the first, and looks.
pub fn join(room: &Room, seat: &mut Place, other: Place)
    requires table { (seat.old.table_id ≡ room.now.table_id) × (other.table_id ≡ room.now.table_id)
        × (room.now.table_id.words ≡ 1) }
    requires seat { (seat.old.me.0.spent ≡ false) × (seat.old.me.0.holds ≡ false) × (seat.old.me.0.actor ≡ None) }
    requires other { (other.me.0.spent ≡ false) × (other.me.0.holds ≡ false) × (other.me.1 ≡ []) }
    ensures same { (seat.new.table_id ≡ seat.old.table_id)
        × (seat.new.me ≡ (both seat.old.me.0 other.me.0, seat.old.me.1)) }
    ensures looks { Looks (both seat.old.me.0 other.me.0) }
{
    room.join_seat::<Glue>(seat, other);
    room.load::<Look>(seat, 0);
}
