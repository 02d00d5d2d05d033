//! Tests of `brand_hooks` over its public calls. What is expected is worked out from brands(7) by hand.
#![tactic(auto)]

#[cfg(test)]
mod brands;
