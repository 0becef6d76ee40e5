// The rule of the shared journal, and what each step on the turn word tells.
use crate::view::{Terms, View};
use atomic_table::{Join, Play, Seat, Split, Table, TableRule};
use std::alloc::Global;
use std::marker::{Brand, PhantomData};
use tp_base::ActorName;
use tp_journal::Journal;

/// The rule.
pub struct Law;

impl TableRule<Option<Journal>, View, Terms> for Law {
    ghost use Rattle.tp_shared.specs.Rule.{Holds, first_view};

    ghost holds = { λ k. Holds (record { script = k.script.value; journal = k.journal.value }) };

    ghost first = { λ k. first_view (record { script = k.script.value; journal = k.journal.value }) };
}

/// The turn word and the slot of the journal, as desks step on them.
pub type Room = atomic_table::Shared<Option<Journal>, View, Terms, Law>;

/// The same with their memory.
pub type Board = Table<Option<Journal>, View, Terms, Law, Global>;

/// A desk's seat at the table.
pub type Place = Seat<Option<Journal>, View>;

/// A try for the turn.
pub struct Acquire;

impl Play<Option<Journal>, View> for Acquire {
    ghost use Rattle.tp_shared.specs.Steps.{Acquires};

    ghost then = { Acquires };
}

/// The turn is given back.
pub struct Release;

impl Play<Option<Journal>, View> for Release {
    ghost use Rattle.tp_shared.specs.Steps.{Releases};

    ghost then = { Releases };
}

/// A look that changes nothing.
pub struct Look;

impl Play<Option<Journal>, View> for Look {
    ghost use Rattle.tp_shared.specs.Steps.{Looked};

    ghost then = { Looked };
}

/// Names the actor of a new desk.
pub trait Naming {
    ghost use Rattle.tp_base.specs.declared.names.ActorName.{ActorName};

    ghost actor: { ActorName };
}

impl Naming for Brand {
    ghost use Rattle.tp_shared.specs.Steps.{nobody};

    ghost actor = { nobody };
}

/// A new desk is split from the first.
pub struct Cut<N: Naming> {
    naming: PhantomData<N>,
}

impl<N: Naming> Split<View> for Cut<N> {
    ghost use Rattle.tp_shared.specs.Steps.{listing, newcomer};

    ghost left = { listing N.actor };

    ghost right = { newcomer N.actor };
}

/// A desk is joined to the first.
pub struct Glue;

impl Join<View> for Glue {
    ghost use Rattle.tp_shared.specs.Steps.{both, gone};

    ghost both = { both };

    ghost spent = { gone };
}
