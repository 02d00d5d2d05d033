//! Tests of `console_link` over its public calls. What is expected is worked out from zlogin(1) and docs/DECISIONS.md,
//! 'Consoles', by hand.
#![tactic(auto)]

#[cfg(test)]
mod consoles;
