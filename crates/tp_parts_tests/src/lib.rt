//! Tests of parts, of texts and of whole runs: worked values from outside, devices that fail, and that each call
//! answers where there is memory. It has no code of its own.
#![tactic(auto)]

#[cfg(test)]
mod bytes;
#[cfg(test)]
mod devices;
#[cfg(test)]
mod numbers;
#[cfg(test)]
mod runs;
#[cfg(test)]
mod scarce;
#[cfg(test)]
mod steps;
#[cfg(test)]
mod texts;
