ghost use Rattle.std.specs.Prelude.{◌≡◌};
ghost use Rattle.tp_netbook.specs.Outputs.{packed, passed};

use crate::output::Output;
use std::marker::Model;
use tp_base::ActorName;
use tp_rules::Event;

/// An output in 16 bytes. No entry has more outputs than fit.
#[derive(Debug, Drop)]
pub(crate) struct Packed {
    entry: u64,
    place: u16,
    to: ActorName,
    lost: bool,
    left: u8,
}

impl Model for Packed {
    ghost use Rattle.tp_netbook.specs.declared.output.Output.{Output};

    ghost Value = { Output };

    ghost view = { λ o. record { entry = o.entry; place = o.place; to = o.to; lost = o.lost; left = o.left } };
}

impl Packed {
    pub fn new(output: Output) -> Packed
        ensures { result ≡ packed output }
    {
        Packed {
            entry: output.entry,
            place: output.place.min(65535) as u16,
            to: output.to,
            lost: output.lost,
            left: output.left,
        }
    }

    pub fn output(&self) -> Output
        ensures { result ≡ self.now }
    {
        Output {
            entry: self.entry,
            place: u64::from(self.place),
            to: self.to,
            lost: self.lost,
            left: self.left,
        }
    }

    /// Takes an event, which may deliver it or lose it.
    pub fn take(&mut self, event: Event)
        ensures { self.new ≡ passed event self.old }
    {
        if self.output().is_named(event) {
            self.left = self.left.saturating_sub(1);
        }
    }
}
