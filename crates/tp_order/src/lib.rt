//! From stability to one line of commands: where a journal is settled, each executor executes its
//! partition's share of the line, from its first command on, in the order of the final keys.
#![tactic(auto)]
