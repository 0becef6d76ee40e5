ghost use Rattle.std.specs.Prelude.{◌≡◌, ◌<◌, length, map, nat_le, option_map, position, IfOk, IfSome, OnOk};
ghost use Rattle.tp_netbook.specs.Netbook.{planned_of};
ghost use Rattle.tp_rules.specs.Plan.{asked_of, plan_of, put_in};

use std::alloc::Global;
use tp_base::{NoMemory, Site};
use tp_rules::Inner;
use tp_script::{PlanLine, Script};

/// A crash or a recovery that the plan asks of a site's process, once it has made so many entries.
#[derive(Clone, Copy, Debug)]
pub(crate) struct Line {
    pub after: u32,
    pub inner: Inner,
}

/// A site's lines by their numbers, ties in the order of the script.
pub(crate) fn lines_of(alloc: Global, script: &Script, site: Site) -> Result<Vec<Line>, NoMemory>
    ensures { IfOk result (λ lines. map planned_of lines.items ≡ plan_of script.now site) }
{
    let mut lines = Vec::new(alloc);
    let plan = script.plan.as_slice();
    for k in 0..plan.len() {
        if let Some(line) = asked_of(site, &plan[plan.len() - 1 - k]) {
            put_in(&mut lines, line)?;
        }
    }
    Ok(lines)
}

/// What a plan line asks of a site's process.
fn asked_of(site: Site, line: &PlanLine) -> Option<Line>
    ensures { option_map planned_of result ≡ asked_of site line.now }
{
    match line {
        PlanLine::Crash { site: of, after } if *of == site => Some(Line {
            after: *after,
            inner: Inner::Crash,
        }),
        PlanLine::Recover {
            site: of,
            id,
            after,
        } if *of == site => Some(Line {
            after: *after,
            inner: Inner::Recover(*id),
        }),
        _ => None,
    }
}

/// Puts a line in front of the first that is asked no earlier.
fn put_in(lines: &mut Vec<Line>, line: Line) -> Result<(), NoMemory>
    ensures { OnOk result (map planned_of lines.new.items ≡ put_in (planned_of line) (map planned_of lines.old.items)) }
{
    let place = match first_from(lines, line.after) {
        Some(place) => place,
        None => lines.len(),
    };
    lines.insert(place, line)?;
    Ok(())
}

/// The place of the first line that is asked no earlier.
fn first_from(lines: &[Line], after: u32) -> Option<usize>
    ensures place { result ≡ position (λ line. nat_le after line.after) lines.now }
    ensures within { IfSome result (λ place. place < length lines.now) }
{
    lines.iter().position(|line| after <= line.after)
}
