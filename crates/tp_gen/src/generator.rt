ghost use Rattle.std.specs.Prelude.{◌≡◌, map, IfOk};
ghost use Rattle.tp_gen.specs.Generator.{home, numbered_script, pick};
ghost use Rattle.tp_script.specs.Accepted.{IsAccepted};
ghost use Rattle.tp_topology.specs.Counting.{up_to};

use crate::commands::{commands, home};
use std::alloc::Global;
use tp_base::{NoMemory, Picks};
use tp_script::{Homes, Plan, Script};
use tp_topology::Topology;

const PICKS: u32 = 400;

/// The script of a number. It is a script that a text can say.
pub fn gen_script(alloc: Global, n: u32) -> Result<Script, NoMemory>
    ensures script { IfOk result (λ script. script ≡ numbered_script n) }
    ensures accepted { IfOk result (λ script. IsAccepted script) }
{
    Ok(Script {
        topology: Topology::new(2, 3, 1).unwrap(),
        homes: homes(alloc)?,
        commands: commands(alloc, n)?,
        plan: Plan::new(alloc),
        picks: picks(alloc, n)?,
    })
}

fn homes(alloc: Global) -> Result<Homes, NoMemory>
    ensures { IfOk result (λ homes. homes ≡ map home (up_to 4)) }
{
    Ok(Homes::from_vec(vec![in alloc; home(1), home(2), home(3), home(4)]?))
}

fn picks(alloc: Global, n: u32) -> Result<Picks, NoMemory>
    ensures { IfOk result (λ picks. picks ≡ map (pick n) (up_to 400)) }
{
    let mut picks = Picks::new(alloc);
    for j in 1..PICKS + 1 {
        picks.add(((u64::from(n) + 13 * u64::from(j)) % 50) as u32)?;
    }
    Ok(picks)
}
