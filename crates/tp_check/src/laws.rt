ghost use Rattle.std.specs.Prelude.{◌↔◌};
ghost use Rattle.tp_check.specs.Verdicts.{HasNoCause};
ghost use Rattle.tp_rules.specs.Runs.{IsRun};

use tp_rules::Entries;
use tp_script::Script;

/// A journal is a run of a script exactly where none of its entries has a cause to be illegal.
pub fn law_causes(script: &Script, entries: &Entries)
    ensures { IsRun script.now entries.now ↔ HasNoCause script.now entries.now }
{}
