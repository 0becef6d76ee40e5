ghost use Rattle.std.specs.Prelude.{◌≡◌};
ghost use Rattle.tp_base.specs.Names.{same_name};
ghost use Rattle.tp_rules.specs.Journal.{is_crash};
ghost use Rattle.tp_rules.specs.Outcome.{executed_by};

use tp_base::{ActorName, CommandId, SessionId, Site};
use tp_rules::{Event, Inner};

/// Whether a name is that of a site's process.
pub fn is_process(name: ActorName, site: Site) -> bool
    ensures { result ≡ same_name name (ActorName.Process site) }
{
    name == ActorName::Process(site)
}

/// Whether a name is that of a site's executor.
pub fn is_executor(name: ActorName, site: Site) -> bool
    ensures { result ≡ same_name name (ActorName.Executor site) }
{
    name == ActorName::Executor(site)
}

/// Whether a name is that of a session.
pub fn is_session(name: ActorName, session: SessionId) -> bool
    ensures { result ≡ same_name name (ActorName.Session session) }
{
    name == ActorName::Session(session)
}

pub fn is_crash(event: Event) -> bool
    ensures { result ≡ is_crash event }
{
    event == Event::Inner(Inner::Crash)
}

/// The command that an event executes, if it executes one.
pub fn executed(event: Event) -> Option<CommandId>
    ensures { result ≡ executed_by event }
{
    match event {
        Event::Inner(Inner::Execute(id)) => Some(id),
        _ => None,
    }
}
