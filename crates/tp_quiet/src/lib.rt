//! Quiet means finished: what holds of a run without losses and crashes that ends with nothing pending.
#![tactic(auto)]
