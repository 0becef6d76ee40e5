ghost use Rattle.std.specs.Prelude.{◌≡◌};
ghost use Rattle.tp_run.specs.Status.{status_of};

use thiserror::Error;
use tp_check::EntryCause;
use tp_entry::JournalFault;
use tp_journal::Journal;
use tp_script::{Script, ScriptFault};

/// What the top call ended with. `script` is the script that was read or generated, `journal` the
/// run that was kept or the journal that was read, empty where there is none. `cause` is there where
/// the status isn't 0.
#[derive(Debug, Drop)]
pub struct Finished {
    pub status: u8,
    pub cause: Option<Cause>,
    pub script: Option<Script>,
    pub journal: Journal,
}

/// Why the status isn't 0.
#[derive(Clone, Copy, Debug, PartialEq, Eq, Error)]
pub enum Cause {
    /// The words aren't served: status 2.
    #[error("words")]
    Words,
    /// A line of the script is faulty: status 3.
    #[error("{0}")]
    Script(ScriptFault),
    /// A line of the journal is faulty: status 3.
    #[error("{0}")]
    Journal(JournalFault),
    /// The input is too long: status 3.
    #[error("input limit {got} {limit}")]
    Input { got: u64, limit: u64 },
    /// A read failed: status 4.
    #[error("read fault")]
    Read,
    /// A write failed: status 5.
    #[error("write fault")]
    Write,
    /// There was no memory: status 6.
    #[error("memory")]
    Memory,
    /// The journal that was checked isn't a run, which the output says: status 7.
    #[error("no {entry} {cause}")]
    Verdict { entry: u64, cause: EntryCause },
}

impl Cause {
    /// The status that the program ends with.
    pub fn status(&self) -> u8
        ensures { result ≡ status_of self.now }
    {
        match self {
            Cause::Words => 2,
            Cause::Script(_) => 3,
            Cause::Journal(_) => 3,
            Cause::Input { got: _, limit: _ } => 3,
            Cause::Read => 4,
            Cause::Write => 5,
            Cause::Memory => 6,
            Cause::Verdict { entry: _, cause: _ } => 7,
        }
    }
}
