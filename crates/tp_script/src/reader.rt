ghost use Rattle.std.specs.Prelude.{◌≡◌, ◌+◌, ◌++◌, ℕ, List, length, IfOk, OnOk};
ghost use Rattle.tp_script.specs.Accepted.{IsAccepted};
ghost use Rattle.tp_script.specs.Meaning.{script_at, script_from, shape_begun};
ghost use Rattle.tp_script.specs.Print.{script_lines, text_of};
ghost use Rattle.tp_script.specs.declared.fault.ScriptCause.TheVariants.{Missing};
ghost use Rattle.tp_script.specs.declared.script.Script.{Script as ScriptValue};
ghost use Rattle.tp_text.specs.Framing.{line_at};
ghost use Rattle.tp_text.specs.Lines.{lines_of};
ghost use Rattle.tp_text.specs.Reading.{Gives, IsReadAs, Reads, all_lines};

use crate::draft::Draft;
use crate::fault::{Refusal, ScriptCause, ScriptError, ScriptFault};
use crate::script::{Commands, Homes, Plan, Script};
use crate::setup::read_shape;
use std::alloc::Global;
use tp_base::Picks;
use tp_text::{HeaderCauses, Lines, Words, take_header, take_line, take_lines};
use tp_topology::Topology;

#[tactic(auto, unfolding(crate::specs::Meaning::shape_begun))]
fn read_topology(words: &mut Words) -> Result<Topology, Refusal>
    ensures { Gives (λ t. t) result (shape_begun words.old) }
{
    match words.next_word() {
        Some(word) => {
            if word == b"shape".as_slice() {
                read_shape(words)
            } else {
                Err(Refusal::Cause(ScriptCause::Word))
            }
        }
        None => Err(Refusal::Cause(ScriptCause::Word)),
    }
}

// The line `shape`.
#[tactic(auto, unfolding(tp_text::specs::Framing::line_at))]
fn take_shape(lines: &mut Lines) -> Result<Topology, ScriptError>
    ensures read { Reads (λ t. (t, lines_of lines.new.left)) result
        (line_at (lines.old.count + 1) Missing shape_begun (lines_of lines.old.left)) }
    ensures count { OnOk result (lines.new.count ≡ lines.old.count + 1) }
    ensures all { OnOk result (all_lines lines.new ≡ all_lines lines.old) }
{
    let number = lines.number() + 1;
    let line = take_line(lines, ScriptCause::Missing)?;
    match read_topology(&mut Words::new(line)) {
        Ok(topology) => Ok(topology),
        Err(Refusal::Memory) => Err(ScriptError::NoMemory),
        Err(Refusal::Cause(cause)) => Err(ScriptError::Fault(ScriptFault {
            line: number,
            cause,
        })),
    }
}

// The lines behind the shape.
#[tactic(auto, unfolding(crate::specs::Meaning::script_from))]
fn take_body(alloc: Global, lines: &mut Lines, topology: Topology) -> Result<Script, ScriptError>
    ensures read { Reads (λ s. (s, lines_of lines.new.left)) result
        (script_from (lines.old.count + 1) topology (lines_of lines.old.left)) }
    ensures all { OnOk result (all_lines lines.new ≡ all_lines lines.old) }
{
    let mut draft = Draft {
        group: 0,
        script: Script {
            topology,
            homes: Homes::new(alloc),
            commands: Commands::new(alloc),
            plan: Plan::new(alloc),
            picks: Picks::new(alloc),
        },
    };
    take_lines(alloc, lines, ScriptCause::Missing, &mut draft)?;
    Ok(draft.script)
}

// What a script's lines say.
#[tactic(auto, unfolding(crate::specs::Meaning::script_at))]
fn read_all(alloc: Global, lines: &mut Lines) -> Result<Script, ScriptError>
    ensures exact { Reads (λ s. (s, lines_of lines.new.left)) result
        (script_at (lines.old.count + 1) (lines_of lines.old.left)) }
    ensures all { OnOk result (all_lines lines.new ≡ all_lines lines.old) }
{
    let causes = HeaderCauses {
        header: ScriptCause::Header,
        newer: ScriptCause::Newer,
    };
    take_header(lines, b"tempo", causes)?;
    let topology = take_shape(lines)?;
    take_body(alloc, lines, topology)
}

/// Reads a script up to its line `end`, and takes nothing more.
pub fn read_script(alloc: Global, lines: &mut Lines) -> Result<Script, ScriptError>
    // What is read is an accepted script, and its text stood there.
    ensures found { IfOk result (λ s. IsAccepted s × (lines.old.left ≡ text_of s ++ lines.new.left)) }
    // The text of an accepted script is read as it, unless memory runs out.
    ensures only { (s : ScriptValue) (rest : List ℕ) → IsAccepted s → lines.old.left ≡ text_of s ++ rest
        → IsReadAs s rest lines.new.left result }
    // A fault is the first one of the first faulty line.
    ensures exact { Reads (λ s. (s, lines_of lines.new.left)) result
        (script_at (lines.old.count + 1) (lines_of lines.old.left)) }
    // Its lines were counted.
    ensures counted { IfOk result (λ s. lines.new.count ≡ lines.old.count + length (script_lines s)) }
{
    read_all(alloc, lines)
}
