ghost use Rattle.std.specs.Prelude.{◌≡◌, true, IfOk, IfErr, None};
ghost use Rattle.tp_rules.specs.Runs.{IsRun};
ghost use Rattle.tp_shared.specs.Known.{first_known, AllJoined, Whole};

use crate::desk::Desk;
use crate::law::Board;
use crate::view::Terms;
use atomic_table::{Refused, Table};
use std::alloc::{AllocFailed, Global};
use std::marker::Model;
use std::snapshot::Snapshot;
use tp_journal::Journal;
use tp_script::Script;

/// A journal that desks write in turn.
#[derive(Drop)]
pub struct Shared {
    pub(crate) table: Board,
}

impl Model for Shared {
    ghost use Rattle.std.specs.Prelude.{◌≡◌};
    ghost use Rattle.atomic_table.specs.Seated.{TableId, table_id_coded};

    ghost Value = { TableId };

    ghost coded = { table_id_coded };

    ghost view = { λ s. s.table.shared.table_id };

    ghost invariant = { λ s. (s.table.shared.table_id.words ≡ 1) × (s.table.shared.table_id.slots ≡ 1) };
}

/// There was no memory. The journal comes back.
#[derive(Drop)]
pub struct BeginFault {
    pub journal: Journal,
}

impl Shared {
    /// Shares a journal that is a run of the script. The first desk belongs to no actor, and has seen it.
    pub fn begin(
        alloc: Global,
        script: &Script,
        journal: Journal,
    ) -> Result<(Shared, Desk), BeginFault>
        requires run { IsRun script.now journal }
        ensures begun { IfOk result (λ r. r.1 ≡ first_known r.0 (record { script = script.now; journal = journal })) }
        ensures same { IfErr result (λ fault. fault.journal ≡ journal) }
    {
        let terms = Terms {
            script: Snapshot::of(script),
            journal: Snapshot::of(journal.entries()),
        };
        let count = journal.entries().len() as u64;
        let mut slots = Vec::new(alloc);
        if let Err(AllocFailed { value }) = slots.push(Some(journal)) {
            let Some(journal) = value else { unreachable!() };
            return Err(BeginFault { journal });
        }
        match Table::new(alloc, &[0], slots, &terms) {
            Ok((table, seat)) => Ok((Shared { table }, Desk::first(alloc, seat, count))),
            Err(Refused { mut slots }) => {
                let Some(Some(journal)) = slots.pop() else {
                    unreachable!()
                };
                Err(BeginFault { journal })
            }
        }
    }

    /// Ends the sharing. The journal is the one in the first desk's hands, once all others were joined.
    pub fn close(self, desk: Desk) -> Journal
        requires table { desk.table ≡ self }
        requires held { (desk.actor ≡ None) × (desk.holds ≡ true) }
        requires all { AllJoined desk }
        ensures same { result ≡ desk.seen }
        ensures whole { Whole desk result }
    {
        let Shared { table } = self;
        drop(table);
        desk.into_journal()
    }
}
