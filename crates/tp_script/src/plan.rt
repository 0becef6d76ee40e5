ghost use Rattle.std.specs.Prelude.{◌≡◌, ◌≤◌, length};
ghost use Rattle.tp_script.specs.Accepted.{is_double};
ghost use Rattle.tp_script.specs.Grammar.{crash_line, drop_line, has_double, recover_line, repeat_all, repeat_line, repeat_one, with_plan};
ghost use Rattle.tp_text.specs.Reading.{Gives};

use crate::fault::{Refusal, ScriptCause};
use crate::names::{take_actor, take_id, take_site};
use crate::script::{PlanLine, Script};
use crate::words::{MOST, take_after, take_end, take_number};
use tp_base::{ActorName, Site};
use tp_text::Words;

/// The words behind `crash`.
#[tactic(auto, unfolding(crate::specs::Grammar::crash_line))]
pub(crate) fn read_crash(script: &Script, words: &mut Words) -> Result<PlanLine, Refusal>
    ensures { Gives (λ line. line) result (crash_line script.now words.old) }
{
    let site = take_site(words, &script.topology)?;
    take_after(words)?;
    let after = take_number(words, 0, MOST)?;
    take_end(words)?;
    Ok(PlanLine::Crash { site, after })
}

/// The words behind `recover`.
#[tactic(auto, unfolding(crate::specs::Grammar::recover_line))]
pub(crate) fn read_recover(script: &Script, words: &mut Words) -> Result<PlanLine, Refusal>
    ensures { Gives (λ line. line) result (recover_line script.now words.old) }
{
    let site = take_site(words, &script.topology)?;
    let id = take_id(words, script.commands.as_slice())?;
    take_after(words)?;
    let after = take_number(words, 0, MOST)?;
    take_end(words)?;
    Ok(PlanLine::Recover { site, id, after })
}

/// The words behind `drop`.
#[tactic(auto, unfolding(crate::specs::Grammar::drop_line))]
pub(crate) fn read_drop(script: &Script, words: &mut Words) -> Result<PlanLine, Refusal>
    requires { length script.now.homes ≤ 16 }
    ensures { Gives (λ line. line) result (drop_line script.now words.old) }
{
    let sessions = script.homes.len() as u8;
    let from = take_actor(words, &script.topology, sessions)?;
    let to = take_actor(words, &script.topology, sessions)?;
    let ordinal = take_number(words, 1, MOST)?;
    take_end(words)?;
    Ok(PlanLine::Lose { from, to, ordinal })
}

#[tactic(auto, unfolding(crate::specs::Grammar::repeat_one))]
fn read_repeat_one(script: &Script, words: &mut Words) -> Result<PlanLine, Refusal>
    requires { length script.now.homes ≤ 16 }
    ensures { Gives (λ line. line) result (repeat_one script.now words.old) }
{
    let sessions = script.homes.len() as u8;
    let from = take_actor(words, &script.topology, sessions)?;
    let to = take_actor(words, &script.topology, sessions)?;
    let ordinal = take_number(words, 1, MOST)?;
    let times = take_number(words, 2, 9)?;
    take_end(words)?;
    Ok(PlanLine::Repeat {
        from,
        to,
        ordinal,
        times: times as u8,
    })
}

#[tactic(auto, unfolding(crate::specs::Grammar::repeat_all))]
fn read_repeat_all(words: &mut Words) -> Result<PlanLine, Refusal>
    ensures { Gives (λ line. line) result (repeat_all words.old) }
{
    let times = take_number(words, 2, 9)?;
    take_end(words)?;
    Ok(PlanLine::RepeatAll { times: times as u8 })
}

/// The words behind `repeat`.
#[tactic(auto, unfolding(crate::specs::Grammar::repeat_line))]
pub(crate) fn read_repeat(script: &Script, words: &mut Words) -> Result<PlanLine, Refusal>
    requires { length script.now.homes ≤ 16 }
    ensures { Gives (λ line. line) result (repeat_line script.now words.old) }
{
    match words.peek() {
        Some(word) => {
            if word == b"all".as_slice() {
                let _ = words.next_word();
                read_repeat_all(words)
            } else {
                read_repeat_one(script, words)
            }
        }
        None => Err(Refusal::Cause(ScriptCause::Word)),
    }
}

// Whether a line crashes a site.
fn crashes(line: &PlanLine, site: Site) -> bool
    ensures { result ≡ is_double (PlanLine.Crash site 0) line.now }
{
    match *line {
        PlanLine::Crash {
            site: other,
            after: _,
        } => site == other,
        _ => false,
    }
}

// Whether a line is of a message: of the one with an ordinal from one actor to another.
fn is_fate_of(line: &PlanLine, from: ActorName, to: ActorName, ordinal: u32) -> bool
    ensures { result ≡ is_double (PlanLine.Lose from to ordinal) line.now }
{
    match *line {
        PlanLine::Lose {
            from: other_from,
            to: other_to,
            ordinal: other,
        } => from == other_from && to == other_to && ordinal == other,
        PlanLine::Repeat {
            from: other_from,
            to: other_to,
            ordinal: other,
            times: _,
        } => from == other_from && to == other_to && ordinal == other,
        _ => false,
    }
}

fn is_double(earlier: &PlanLine, line: &PlanLine) -> bool
    ensures { result ≡ is_double earlier.now line.now }
{
    match *earlier {
        PlanLine::Crash { site, after: _ } => crashes(line, site),
        PlanLine::Lose { from, to, ordinal } => is_fate_of(line, from, to, ordinal),
        PlanLine::Repeat {
            from,
            to,
            ordinal,
            times: _,
        } => is_fate_of(line, from, to, ordinal),
        PlanLine::RepeatAll { times: _ } => matches!(*line, PlanLine::RepeatAll { times: _ }),
        PlanLine::Recover {
            site: _,
            id: _,
            after: _,
        } => false,
    }
}

#[tactic(auto, unfolding(crate::specs::Grammar::has_double))]
fn has_double(plan: &[PlanLine], line: &PlanLine) -> bool
    ensures { result ≡ has_double plan.now line.now }
{
    plan.iter().any(|earlier| is_double(earlier, line))
}

/// Keeps a plan line.
#[tactic(auto, unfolding(crate::specs::Grammar::with_plan))]
pub(crate) fn add_line(script: &mut Script, line: PlanLine) -> Result<(), Refusal>
    ensures read { Gives (λ _. script.new) result (with_plan script.old line) }
    ensures homes { script.new.homes ≡ script.old.homes }
{
    if has_double(script.plan.as_slice(), &line) {
        return Err(Refusal::Cause(ScriptCause::Duplicate));
    }
    if script.plan.len() >= 1000 {
        return Err(Refusal::Cause(ScriptCause::Limit {
            count: 1001,
            limit: 1000,
        }));
    }
    script.plan.add(line)?;
    Ok(())
}
