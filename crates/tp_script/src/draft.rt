use crate::script::Script;

/// The script so far, and the group of its last line: sessions 1, commands 2, plan lines 3, picks 4.
#[derive(Debug, Drop)]
pub(crate) struct Draft {
    pub(crate) group: u8,
    pub(crate) script: Script,
}
