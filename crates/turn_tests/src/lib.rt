//! Tests of `zone_turn` over its public calls.
#![tactic(auto)]

#[cfg(test)]
mod numbers;
