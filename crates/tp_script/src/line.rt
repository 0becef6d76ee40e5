ghost use Rattle.std.specs.Prelude.{◌≡◌, ◌≤◌, length, OnOk};
ghost use Rattle.tp_script.specs.Grammar.{command_line, crash_line, drop_line, pick_line, recover_line, repeat_line, session_line, with_plan};
ghost use Rattle.tp_script.specs.Meaning.{begun, into_group, into_plan, line_of, stands};
ghost use Rattle.tp_text.specs.Reading.{Gives};

use crate::commands::read_command;
use crate::draft::Draft;
use crate::fault::{Refusal, ScriptCause};
use crate::plan::{add_line, read_crash, read_drop, read_recover, read_repeat};
use crate::script::PlanLine;
use crate::setup::{read_pick, read_session};
use crate::words::take_end;
use std::alloc::Global;
use tp_text::{LineReader, Words};

fn enter_session(draft: &mut Draft, words: &mut Words) -> Result<bool, Refusal>
    ensures read { Gives (λ more. (more, draft.new)) result (into_group 1 (session_line draft.old.script words.old)) }
    ensures few { OnOk result (length draft.new.script.homes ≤ 16) }
{
    read_session(&mut draft.script, words)?;
    draft.group = 1;
    Ok(true)
}

fn enter_command(alloc: Global, draft: &mut Draft, words: &mut Words) -> Result<bool, Refusal>
    requires { length draft.old.script.homes ≤ 16 }
    ensures read { Gives (λ more. (more, draft.new)) result (into_group 2 (command_line draft.old.script words.old)) }
    ensures few { OnOk result (length draft.new.script.homes ≤ 16) }
{
    read_command(alloc, &mut draft.script, words)?;
    draft.group = 2;
    Ok(true)
}

fn enter_plan(draft: &mut Draft, line: PlanLine) -> Result<bool, Refusal>
    requires { length draft.old.script.homes ≤ 16 }
    ensures read { Gives (λ more. (more, draft.new)) result (into_group 3 (with_plan draft.old.script line)) }
    ensures few { OnOk result (length draft.new.script.homes ≤ 16) }
{
    add_line(&mut draft.script, line)?;
    draft.group = 3;
    Ok(true)
}

fn enter_crash(draft: &mut Draft, words: &mut Words) -> Result<bool, Refusal>
    requires { length draft.old.script.homes ≤ 16 }
    ensures read { Gives (λ more. (more, draft.new)) result
        (into_plan draft.old (crash_line draft.old.script words.old)) }
    ensures few { OnOk result (length draft.new.script.homes ≤ 16) }
{
    let line = read_crash(&draft.script, words)?;
    enter_plan(draft, line)
}

fn enter_recover(draft: &mut Draft, words: &mut Words) -> Result<bool, Refusal>
    requires { length draft.old.script.homes ≤ 16 }
    ensures read { Gives (λ more. (more, draft.new)) result
        (into_plan draft.old (recover_line draft.old.script words.old)) }
    ensures few { OnOk result (length draft.new.script.homes ≤ 16) }
{
    let line = read_recover(&draft.script, words)?;
    enter_plan(draft, line)
}

fn enter_drop(draft: &mut Draft, words: &mut Words) -> Result<bool, Refusal>
    requires { length draft.old.script.homes ≤ 16 }
    ensures read { Gives (λ more. (more, draft.new)) result
        (into_plan draft.old (drop_line draft.old.script words.old)) }
    ensures few { OnOk result (length draft.new.script.homes ≤ 16) }
{
    let line = read_drop(&draft.script, words)?;
    enter_plan(draft, line)
}

fn enter_repeat(draft: &mut Draft, words: &mut Words) -> Result<bool, Refusal>
    requires { length draft.old.script.homes ≤ 16 }
    ensures read { Gives (λ more. (more, draft.new)) result
        (into_plan draft.old (repeat_line draft.old.script words.old)) }
    ensures few { OnOk result (length draft.new.script.homes ≤ 16) }
{
    let line = read_repeat(&draft.script, words)?;
    enter_plan(draft, line)
}

fn enter_pick(draft: &mut Draft, words: &mut Words) -> Result<bool, Refusal>
    requires { length draft.old.script.homes ≤ 16 }
    ensures read { Gives (λ more. (more, draft.new)) result (into_group 4 (pick_line draft.old.script words.old)) }
    ensures few { OnOk result (length draft.new.script.homes ≤ 16) }
{
    read_pick(&mut draft.script, words)?;
    draft.group = 4;
    Ok(true)
}

fn stands(draft: &Draft, group: u8, name: &[u8], word: &[u8]) -> bool
    ensures { result ≡ stands draft.now group name.now word.now }
{
    word == name && draft.group <= group
}

#[tactic(auto, unfolding(crate::specs::Meaning::begun))]
fn enter(alloc: Global, draft: &mut Draft, word: &[u8], words: &mut Words) -> Result<bool, Refusal>
    requires { length draft.old.script.homes ≤ 16 }
    ensures read { Gives (λ more. (more, draft.new)) result (begun draft.old word.now words.old) }
    ensures few { OnOk result (length draft.new.script.homes ≤ 16) }
{
    if stands(draft, 1, b"session", word) {
        enter_session(draft, words)
    } else if stands(draft, 2, b"command", word) {
        enter_command(alloc, draft, words)
    } else if stands(draft, 3, b"crash", word) {
        enter_crash(draft, words)
    } else if stands(draft, 3, b"recover", word) {
        enter_recover(draft, words)
    } else if stands(draft, 3, b"drop", word) {
        enter_drop(draft, words)
    } else if stands(draft, 3, b"repeat", word) {
        enter_repeat(draft, words)
    } else if stands(draft, 4, b"pick", word) {
        enter_pick(draft, words)
    } else if word == b"end".as_slice() {
        take_end(words)?;
        Ok(false)
    } else {
        Err(Refusal::Cause(ScriptCause::Word))
    }
}

/// The lines behind the shape.
impl LineReader<ScriptCause> for Draft {
    ghost line_of = { line_of };

    ghost is_fit = { λ draft. length draft.script.homes ≤ 16 };

    #[tactic(auto, unfolding(crate::specs::Meaning::line_of))]
    fn read_line(&mut self, alloc: Global, words: &mut Words) -> Result<bool, Refusal> {
        match words.next_word() {
            Some(word) => enter(alloc, self, word, words),
            None => Err(Refusal::Cause(ScriptCause::Word)),
        }
    }
}
