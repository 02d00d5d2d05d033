//! Tests of `zone_threads` over its public calls, with a toy machine.
#![tactic(auto)]

#[cfg(test)]
mod runs;
pub mod starts;
pub mod toy;
