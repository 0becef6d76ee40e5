ghost use Rattle.std.specs.Prelude.{◌≡◌, ◌≢◌, [], ◌∷◌, ◌++◌, true, false, None, IfOk, OnOk, filter};
ghost use Rattle.tp_rules.specs.Journal.{numbered};
ghost use Rattle.tp_shared.specs.Fetched.{is_for, parcels_for};
ghost use Rattle.tp_shared.specs.Known.{name_of};

use crate::desk::Desk;
use std::alloc::Global;
use tp_base::{ActorName, Duplicate, NoMemory};
use tp_journal::Journal;
use tp_rules::{Outputs, Parcel, Parcels};
use tp_wire::Message;

impl Desk {
    /// The outputs that are addressed to the desk's actor, in the entries behind a number, in order.
    /// It costs what it gives and what was entered since.
    pub fn fetch(&self, after: u64) -> Result<Parcels, NoMemory>
        requires held { (self.now.holds ≡ true) × (self.now.actor ≢ None) }
        ensures { IfOk result (λ parcels. parcels ≡ parcels_for (name_of self.now.actor) after self.now.seen) }
    {
        let (Some(actor), Some(journal)) = (self.actor, &self.hand) else {
            unreachable!()
        };
        parcels_behind(self.alloc, journal, actor, after)
    }
}

fn parcels_behind(
    alloc: Global,
    journal: &Journal,
    actor: ActorName,
    number: u64,
) -> Result<Parcels, NoMemory>
    ensures { IfOk result (λ parcels. parcels ≡ parcels_for actor number journal.now) }
{
    let mut parcels = Parcels::new(alloc);
    let entries = journal.entries();
    for behind in number..entries.len() as u64 {
        let Some(entry) = entries.get(behind as usize) else {
            unreachable!()
        };
        add_outputs(&mut parcels, behind + 1, &entry.outputs, actor)?;
    }
    Ok(parcels)
}

// Appends the outputs of an entry that are addressed to an actor.
fn add_outputs(
    parcels: &mut Parcels,
    entry: u64,
    outputs: &Outputs,
    actor: ActorName,
) -> Result<(), NoMemory>
    ensures { OnOk result (parcels.new ≡ parcels.old ++ filter (is_for actor) (numbered entry 1 outputs.now)) }
{
    for place in 0..outputs.len() {
        let Some(message) = outputs.get(place) else {
            unreachable!()
        };
        add_output(parcels, entry, place as u64 + 1, message, actor)?;
    }
    Ok(())
}

// Appends an output where it is addressed to an actor.
fn add_output(
    parcels: &mut Parcels,
    entry: u64,
    place: u64,
    message: &Message,
    actor: ActorName,
) -> Result<(), NoMemory>
    ensures { OnOk result
        (parcels.new ≡ parcels.old ++ filter (is_for actor)
        (record { entry = entry; place = place; message = message.now } ∷ [])) }
{
    if message.to != actor {
        return Ok(());
    }
    parcels.add(Parcel {
        entry,
        place,
        message: message.copy()?,
    })
}
