ghost use Rattle.std.specs.Prelude.{◌≡◌, bytes_eq, map, string_bytes, ◌≤◌, option_map, Some, None, IfOk, IfSome, MatchOption};
ghost use Rattle.tp_draw.specs.Words.{actor_of, actors_in, actors_of, both, both_in, dotted_in, id_of, number, number_or, only_in, session_of, site_of, told, valued, view, view_of};

use std::alloc::Global;
use tp_base::{ActorName, CommandId, NoMemory, PartitionId, Rank, Sequence, SessionId, Site};
use tp_picture::View;
use tp_text::halves;

// The greatest partition, rank or session.
const MOST_PART: u64 = 255;

// The greatest number in the words.
const MOST: u64 = 4_294_967_295;

fn number(word: &[u8], limit: u64) -> Option<u64>
    ensures value { result ≡ number limit word.now }
    ensures within { IfSome result (λ n. n ≤ limit) }
{
    match tp_text::number(word, limit) {
        Ok(n) => Some(n),
        Err(_) => None,
    }
}

// Two numbers with a point between them.
#[tactic(auto, unfolding(crate::specs::Words::dotted_in))]
fn dotted(word: &[u8], limit: u64) -> Option<(u64, u64)>
    ensures value { result ≡ dotted_in limit word.now }
    ensures within { IfSome result (λ pair. (pair.0 ≤ 255) × (pair.1 ≤ limit)) }
{
    let (before, behind) = halves(word, b'.')?;
    match (number(before, MOST_PART), number(behind, limit)) {
        (Some(m), Some(n)) => Some((m, n)),
        _ => None,
    }
}

fn site_of(word: &[u8]) -> Option<Site>
    ensures { result ≡ site_of word.now }
{
    let (partition, rank) = dotted(word, MOST_PART)?;
    Some(Site {
        partition: PartitionId(partition as u8),
        rank: Rank(rank as u8),
    })
}

fn id_of(word: &[u8]) -> Option<CommandId>
    ensures { result ≡ id_of word.now }
{
    let (session, number) = dotted(word, MOST)?;
    Some(CommandId {
        session: SessionId(session as u8),
        number: number as u32,
    })
}

fn session_of(word: &[u8]) -> Option<ActorName>
    ensures { result ≡ session_of word.now }
{
    match number(word, MOST_PART) {
        Some(session) => Some(ActorName::Session(SessionId(session as u8))),
        None => None,
    }
}

fn actor_of(word: &[u8]) -> Option<ActorName>
    ensures { result ≡ actor_of word.now }
{
    match word {
        [b'p', site @ ..] => Some(ActorName::Process(site_of(site)?)),
        [b'e', site @ ..] => Some(ActorName::Executor(site_of(site)?)),
        [b's', session @ ..] => session_of(session),
        _ => None,
    }
}

// The actors that the words name, if each names one.
fn actors_of(alloc: Global, words: &[String]) -> Result<Option<Sequence<ActorName>>, NoMemory>
    ensures { IfOk result (λ actors. actors ≡ actors_of (map string_bytes words.now)) }
{
    let mut actors = Vec::new(alloc);
    for word in words {
        match actor_of(word.as_bytes()) {
            Some(actor) => actors.push(actor)?,
            None => return Ok(None),
        }
    }
    Ok(Some(Sequence::from_vec(actors)))
}

// The actors that the last words choose.
fn actors_in(alloc: Global, words: &[String]) -> Result<Option<Sequence<ActorName>>, NoMemory>
    ensures { IfOk result (λ actors. actors ≡ actors_in (map string_bytes words.now)) }
{
    match words {
        [] => Ok(Some(Sequence::new(alloc))),
        [_] => Ok(None),
        [word, names @ ..] => {
            if word.as_str() == "actors" {
                actors_of(alloc, names)
            } else {
                Ok(None)
            }
        }
    }
}

// The word behind a name, if that is the first word, and the words behind both.
fn valued<'a>(words: &'a [String], name: &str) -> (Option<&'a String>, &'a [String])
    ensures value { MatchOption result.0 ((valued name.now (map string_bytes words.now)).0 ≡ None)
        (λ w. (valued name.now (map string_bytes words.now)).0 ≡ Some (string_bytes w.now)) }
    ensures rest { map string_bytes result.1.now ≡ (valued name.now (map string_bytes words.now)).1 }
{
    match words {
        [word, value, rest @ ..] => {
            if word.as_str() == name {
                (Some(value), rest)
            } else {
                (None, words)
            }
        }
        _ => (None, words),
    }
}

fn number_or(usual: u64, word: Option<&String>) -> Option<u64>
    ensures { result ≡ number_or usual (option_map (λ w. string_bytes w.now) word.entry) }
{
    match word {
        Some(word) => number(word.as_bytes(), MOST),
        None => Some(usual),
    }
}

fn only_in(word: Option<&String>) -> Option<Option<CommandId>>
    ensures { result ≡ only_in (option_map (λ w. string_bytes w.now) word.entry) }
{
    match word {
        Some(word) => Some(Some(id_of(word.as_bytes())?)),
        None => Some(None),
    }
}

fn view(
    from: Option<u64>,
    to: Option<u64>,
    only: Option<Option<CommandId>>,
    actors: Option<Sequence<ActorName>>,
) -> Option<View>
    ensures { result ≡ view from to only actors }
{
    Some(View {
        from: from?,
        to: to?,
        only: only?,
        actors: actors?,
    })
}

/// The view that the words choose, if they choose one.
#[tactic(auto, unfolding(crate::specs::Words::view_of))]
pub fn view_of(alloc: Global, words: &[String]) -> Result<Option<View>, NoMemory>
    ensures { IfOk result (λ view. view ≡ view_of words.now) }
{
    let (from, words) = valued(words, "from");
    let (to, words) = valued(words, "to");
    let (only, words) = valued(words, "only");
    let actors = actors_in(alloc, words)?;
    Ok(view(
        number_or(0, from),
        number_or(u64::MAX, to),
        only_in(only),
        actors,
    ))
}
