//! Worked histories: whole runs, and single cases of the rules, computed on the definitions.
#![tactic(auto)]
