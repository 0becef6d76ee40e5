ghost use Rattle.std.specs.Prelude.{◌≡◌, ◌≤◌, false, true, length, MatchOption, OnOk};
ghost use Rattle.tp_script.specs.Grammar.{is_shape, pick_line, session_line, shape_line};
ghost use Rattle.tp_text.specs.Reading.{Gives};

use crate::fault::{Refusal, ScriptCause};
use crate::script::Script;
use crate::words::{MOST, take_end, take_number};
use tp_base::Rank;
use tp_text::Words;
use tp_topology::Topology;

fn topology_of(partitions: u32, replicas: u32, failures: u32) -> Option<Topology>
    ensures { MatchOption result (is_shape partitions replicas failures ≡ false)
        (λ t. (is_shape partitions replicas failures ≡ true)
        × (t ≡ record { partitions = partitions; replicas = replicas; failures = failures })) }
{
    if partitions > 4 || replicas > 7 || failures > 3 {
        return None;
    }
    Topology::new(partitions as u8, replicas as u8, failures as u8).ok()
}

/// The words behind `shape`.
#[tactic(auto, unfolding(crate::specs::Grammar::shape_line))]
pub(crate) fn read_shape(words: &mut Words) -> Result<Topology, Refusal>
    ensures { Gives (λ t. t) result (shape_line words.old) }
{
    let partitions = take_number(words, 0, MOST)?;
    let replicas = take_number(words, 0, MOST)?;
    let failures = take_number(words, 0, MOST)?;
    take_end(words)?;
    match topology_of(partitions, replicas, failures) {
        Some(topology) => Ok(topology),
        None => Err(Refusal::Cause(ScriptCause::Shape)),
    }
}

/// The words behind `session`.
#[tactic(auto, unfolding(crate::specs::Grammar::session_line))]
pub(crate) fn read_session(script: &mut Script, words: &mut Words) -> Result<(), Refusal>
    ensures read { Gives (λ _. script.new) result (session_line script.old words.old) }
    ensures few { OnOk result (length script.new.homes ≤ 16) }
{
    let number = take_number(words, 0, MOST)?;
    let home = take_number(words, 0, MOST)?;
    take_end(words)?;
    let sessions = script.homes.len();
    let is_next = u64::from(number) == sessions as u64 + 1;
    if is_next && 1 <= home && home <= u32::from(script.topology.replicas()) {
        if sessions >= 16 {
            return Err(Refusal::Cause(ScriptCause::Limit {
                count: 17,
                limit: 16,
            }));
        }
        script.homes.add(Rank(home as u8))?;
        Ok(())
    } else {
        Err(Refusal::Cause(ScriptCause::Session))
    }
}

/// The words behind `pick`.
#[tactic(auto, unfolding(crate::specs::Grammar::pick_line))]
pub(crate) fn read_pick(script: &mut Script, words: &mut Words) -> Result<(), Refusal>
    ensures read { Gives (λ _. script.new) result (pick_line script.old words.old) }
    ensures homes { script.new.homes ≡ script.old.homes }
{
    let pick = take_number(words, 0, MOST)?;
    take_end(words)?;
    if script.picks.len() >= 100_000 {
        return Err(Refusal::Cause(ScriptCause::Limit {
            count: 100_001,
            limit: 100_000,
        }));
    }
    script.picks.add(pick)?;
    Ok(())
}
