//! From what the processes decide to one stamp for each command, and a majority that has it attached.
//! Lemmas alone: proofs/Lib.antt names the files in the order in which they read.
#![tactic(auto)]
