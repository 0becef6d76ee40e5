ghost use Rattle.std.specs.Prelude.{◌≡◌, ◌<◌, ◌^◌, ℕ, Some};
ghost use Rattle.tp_fates.specs.Fates.{fate_of};
ghost use Rattle.tp_netbook.specs.Outputs.{StandsAt, event_of, is_named, new_output, passed};

use tp_base::ActorName;
use tp_fates::Fate;
use tp_rules::Event;

/// A message that was sent: its place among the outputs of an entry, both from 1, its addressee, whether
/// it is to be lost, and how many of its deliveries are left. A loss that is to come counts as one.
#[derive(Clone, Copy, Debug, PartialEq, Eq)]
pub(crate) struct Output {
    pub entry: u64,
    pub place: u64,
    pub to: ActorName,
    pub lost: bool,
    pub left: u8,
}

impl Output {
    /// An output that was just sent.
    pub fn new(entry: u64, place: u64, to: ActorName, fate: Fate) -> Output
        ensures { result ≡ new_output entry place to (fate_of fate) }
    {
        let (lost, left) = match fate {
            Fate::Lost => (true, 1),
            Fate::Times(times) => (false, times),
        };
        Output {
            entry,
            place,
            to,
            lost,
            left,
        }
    }

    /// What may come next of it: its loss, or a delivery.
    pub fn event(&self) -> Event
        ensures { result ≡ event_of self.now }
    {
        let (entry, place) = (self.entry, self.place);
        if self.lost {
            Event::Dropped { entry, place }
        } else {
            Event::Deliver { entry, place }
        }
    }

    /// Takes an event, which may deliver it or lose it.
    pub fn take(&mut self, event: Event)
        ensures { self.new ≡ passed event self.old }
    {
        if self.is_named(event) {
            self.left = self.left.saturating_sub(1);
        }
    }

    /// Whether an event delivers it, or loses it.
    pub fn is_named(&self, event: Event) -> bool
        ensures { result ≡ is_named event self.now }
    {
        match event {
            Event::Deliver { entry, place } => {
                !self.lost && entry == self.entry && place == self.place
            }
            Event::Dropped { entry, place } => {
                self.lost && entry == self.entry && place == self.place
            }
            Event::Inner(_) => false,
        }
    }
}

/// The place among all outputs of the one that an event delivers or loses, by how many were sent before each
/// entry.
pub(crate) fn place_in(starts: &[usize], event: Event) -> Option<usize>
    ensures { (place : ℕ) → StandsAt starts.now event place → place < 2 ^ 63 → result ≡ Some place }
{
    match event {
        Event::Deliver { entry, place } | Event::Dropped { entry, place } => {
            let start = starts.get((entry as usize).saturating_sub(1))?;
            Some(start.saturating_add(place as usize).saturating_sub(1))
        }
        Event::Inner(_) => None,
    }
}

/// The places of the outputs to a site, to its process and to its executor.
#[derive(Debug, Drop)]
pub(crate) struct Inbox {
    pub places: Vec<usize>,
}
