ghost use Rattle.std.specs.Prelude.{◌≡◌, ◌+◌, ◌<◌, ◌^◌, cond, not, true, ◌&&◌, ℕ, List};
ghost use Rattle.tp_netbook.specs.Netbook.{is_free_there, line_due, line_item, turned};
ghost use Rattle.tp_rules.specs.Journal.{is_crash};
ghost use Rattle.tp_rules.specs.Plan.{is_planned};

use crate::line::Line;
use tp_base::{ActorName, Site};
use tp_rules::{Event, Inner, Item};

/// A site's process as the plan sees it: how many entries it made, and how many of its lines came.
#[derive(Debug, Drop)]
pub(crate) struct Watch {
    pub site: Site,
    pub live: bool,
    pub made: u64,
    pub lines: Vec<Line>,
    pub came: u64,
}

impl Watch {
    /// The line that is due.
    pub fn due(&self) -> Option<Inner>
        ensures { result ≡ line_due self.now }
    {
        let line = self.lines.get(self.came as usize)?;
        if u64::from(line.after) <= self.made {
            Some(line.inner)
        } else {
            None
        }
    }

    /// Whether the site lives, and no line is due.
    pub fn is_free(&self) -> bool
        ensures { result ≡ is_free_there self.now }
    {
        self.live && self.due().is_none()
    }

    /// The line that is due, where the site lives.
    pub fn item(&self) -> Option<Item>
        ensures { result ≡ line_item self.now }
    {
        if !self.live {
            return None;
        }
        let inner = self.due()?;
        Some(Item {
            actor: ActorName::Process(self.site),
            event: Event::Inner(inner),
        })
    }

    /// Counts an entry of the process, and says whether it turned: whether the site lives, or whether no line is due.
    pub fn enter(&mut self, event: Event) -> bool
        ensures turned { result ≡ turned self.old self.new }
        ensures site { self.new.site ≡ self.old.site }
        ensures live { self.new.live ≡ (self.old.live && not (is_crash event)) }
        ensures made { self.old.made + 1 < 2 ^ 64 → self.new.made ≡ self.old.made + 1 }
        ensures lines { self.new.lines.items ≡ self.old.lines.items }
        ensures came { self.old.came + 1 < 2 ^ 64
            → self.new.came ≡ cond (is_planned event) (self.old.came + 1) self.old.came }
    {
        let (live, undue) = (self.live, self.due().is_none());
        self.made = self.made.saturating_add(1);
        if is_planned(event) {
            self.came = self.came.saturating_add(1);
        }
        if event == Event::Inner(Inner::Crash) {
            self.live = false;
        }
        live != self.live || undue != self.due().is_none()
    }
}

/// Whether an event comes by the plan alone.
pub(crate) fn is_planned(event: Event) -> bool
    ensures { result ≡ is_planned event }
{
    matches!(event, Event::Inner(Inner::Crash | Inner::Recover(_)))
}
