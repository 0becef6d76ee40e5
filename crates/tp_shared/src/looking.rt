ghost use Rattle.std.specs.Prelude.{◌≡◌, ◌+◌, ◌<◌, ◌≤◌, Some, None, IfSome, drop, length, option_map, position, take};
ghost use Rattle.tp_journal.specs.Entered.{is_crash_of};
ghost use Rattle.tp_shared.specs.Histories.{site_of};
ghost use Rattle.tp_shared.specs.Known.{crash_in};

use tp_base::{ActorName, Site};
use tp_journal::Journal;
use tp_rules::{Entry, Event, Inner};

fn is_crash_of(entry: &Entry, site: Site) -> bool
    ensures { result ≡ is_crash_of site entry.now }
{
    entry.actor == ActorName::Process(site) && matches!(entry.event, Event::Inner(Inner::Crash))
}

// Where the site crashes first, from 0.
fn place_of_crash(entries: &[Entry], site: Site) -> Option<usize>
    ensures place { result ≡ position (is_crash_of site) entries.now }
    ensures within { IfSome result (λ i. i < length entries.now) }
{
    entries.iter().position(|entry| is_crash_of(entry, site))
}

// The number of the first entry behind a number by which the site crashes.
fn crash_behind(entries: &[Entry], site: Site, number: u64) -> Option<u64>
    requires { number ≤ length entries.now }
    ensures { result ≡ option_map (λ i. number + i + 1) (position (is_crash_of site) (drop number entries.now)) }
{
    let place = place_of_crash(&entries[number as usize..], site)?;
    Some(number + place as u64 + 1)
}

// The first crash of the actor's site, where that among so many entries is known.
pub fn crash_after(
    actor: Option<ActorName>,
    crash: Option<u64>,
    journal: &Journal,
    looked: u64,
) -> Option<u64>
    requires within { looked ≤ length journal.now }
    requires known { crash ≡ crash_in actor (take looked journal.now) }
    ensures { result ≡ crash_in actor journal.now }
{
    if crash.is_some() {
        return crash;
    }
    let site = site_of(actor?)?;
    crash_behind(journal.entries().as_slice(), site, looked)
}

fn site_of(actor: ActorName) -> Option<Site>
    ensures { result ≡ site_of actor }
{
    match actor {
        ActorName::Process(site) | ActorName::Executor(site) => Some(site),
        ActorName::Session(_) => None,
    }
}
