ghost use Rattle.std.specs.Prelude.{◌≡◌, Some, None, if◌then◌else◌};
ghost use Rattle.tp_script.specs.declared.fault.ScriptCause.TheVariants.{Word};
ghost use Rattle.tp_text.specs.Names.{id_at};
ghost use Rattle.tp_text.specs.Numbers.{number_of};
ghost use Rattle.tp_text.specs.Steps.{else_cause};
ghost use Rattle.tp_script.specs.Kinds.{most, actor, dotted_at, id, is_there, read_actor, read_id, read_session, read_site, site, take_word};
ghost use Rattle.tp_text.specs.Reading.{Gives};

use crate::fault::{Refusal, ScriptCause};
use crate::words::MOST;
use tp_base::{ActorName, CommandId, PartitionId, Rank, SessionId, Site};
use tp_ops::Command;
use tp_text::{Words, halves, number};
use tp_topology::Topology;

fn read_part(word: &[u8]) -> Result<u32, Refusal>
    ensures { Gives (λ n. n) result (else_cause Word (number_of most word.now)) }
{
    match number(word, u64::from(MOST)) {
        Ok(n) => Ok(n as u32),
        Err(_) => Err(Refusal::Cause(ScriptCause::Word)),
    }
}

// Two numbers with a point between them.
#[tactic(auto, unfolding(crate::specs::Kinds::dotted_at))]
fn read_dotted(word: &[u8]) -> Result<(u32, u32), Refusal>
    ensures { Gives (λ pair. pair) result (dotted_at word.now) }
{
    match halves(word, b'.') {
        Some((first, second)) => {
            let first = read_part(first)?;
            let second = read_part(second)?;
            Ok((first, second))
        }
        None => Err(Refusal::Cause(ScriptCause::Word)),
    }
}

#[tactic(auto, unfolding(crate::specs::Kinds::read_site))]
fn read_site(topology: &Topology, word: &[u8]) -> Result<Site, Refusal>
    ensures { Gives (λ s. s) result (read_site topology.now word.now) }
{
    let (partition, rank) = read_dotted(word)?;
    let is_partition = 1 <= partition && partition <= u32::from(topology.partitions());
    if is_partition && 1 <= rank && rank <= u32::from(topology.replicas()) {
        Ok(Site {
            partition: PartitionId(partition as u8),
            rank: Rank(rank as u8),
        })
    } else {
        Err(Refusal::Cause(ScriptCause::Shape))
    }
}

fn find_id(commands: &[Command], session: u32, number: u32) -> Option<CommandId>
    ensures { result ≡ (if is_there commands.now (id_at (session, number))
        then Some (id_at (session, number)) else None) }
{
    for command in commands {
        if u32::from(command.id.session.0) == session && command.id.number == number {
            return Some(command.id);
        }
    }
    None
}

#[tactic(auto, unfolding(crate::specs::Kinds::read_id))]
fn read_id(commands: &[Command], word: &[u8]) -> Result<CommandId, Refusal>
    ensures { Gives (λ i. i) result (read_id commands.now word.now) }
{
    let (session, number) = read_dotted(word)?;
    match find_id(commands, session, number) {
        Some(id) => Ok(id),
        None => Err(Refusal::Cause(ScriptCause::Session)),
    }
}

#[tactic(auto, unfolding(crate::specs::Kinds::read_session))]
fn read_session(sessions: u8, word: &[u8]) -> Result<ActorName, Refusal>
    ensures { Gives (λ a. a) result (read_session sessions word.now) }
{
    let session = read_part(word)?;
    if 1 <= session && session <= u32::from(sessions) {
        Ok(ActorName::Session(SessionId(session as u8)))
    } else {
        Err(Refusal::Cause(ScriptCause::Session))
    }
}

#[tactic(auto, unfolding(crate::specs::Kinds::read_actor))]
fn read_actor(topology: &Topology, sessions: u8, word: &[u8]) -> Result<ActorName, Refusal>
    ensures { Gives (λ a. a) result (read_actor topology.now sessions word.now) }
{
    match word {
        [b'p', site @ ..] => Ok(ActorName::Process(read_site(topology, site)?)),
        [b'e', site @ ..] => Ok(ActorName::Executor(read_site(topology, site)?)),
        [b's', session @ ..] => read_session(sessions, session),
        _ => Err(Refusal::Cause(ScriptCause::Word)),
    }
}

/// The next word, a site of the shape.
#[tactic(auto, unfolding(tp_text::specs::Rows::take_word))]
pub(crate) fn take_site(words: &mut Words, topology: &Topology) -> Result<Site, Refusal>
    ensures { Gives (λ s. (s, words.new)) result (take_word (site topology.now) words.old) }
{
    match words.next_word() {
        Some(word) => read_site(topology, word),
        None => Err(Refusal::Cause(ScriptCause::Word)),
    }
}

/// The next word, the identifier of one of the commands.
#[tactic(auto, unfolding(tp_text::specs::Rows::take_word))]
pub(crate) fn take_id(words: &mut Words, commands: &[Command]) -> Result<CommandId, Refusal>
    ensures { Gives (λ i. (i, words.new)) result (take_word (id commands.now) words.old) }
{
    match words.next_word() {
        Some(word) => read_id(commands, word),
        None => Err(Refusal::Cause(ScriptCause::Word)),
    }
}

/// The next word, an actor of the shape and the sessions.
#[tactic(auto, unfolding(tp_text::specs::Rows::take_word))]
pub(crate) fn take_actor(
    words: &mut Words,
    topology: &Topology,
    sessions: u8,
) -> Result<ActorName, Refusal>
    ensures { Gives (λ a. (a, words.new)) result (take_word (actor topology.now sessions) words.old) }
{
    match words.next_word() {
        Some(word) => read_actor(topology, sessions, word),
        None => Err(Refusal::Cause(ScriptCause::Word)),
    }
}
