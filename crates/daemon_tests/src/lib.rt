//! Tests of `zoneadmd_steps` over its public calls: one zone with its desk takes turns, and what they come to is told.
//! What is expected is worked out from zoneadm(8) by hand.
#![tactic(auto)]

#[cfg(test)]
mod boots;
#[cfg(test)]
mod claims;
#[cfg(test)]
mod desks;
#[cfg(test)]
mod holdings;
#[cfg(test)]
mod hooks;
#[cfg(test)]
mod limits;
#[cfg(test)]
mod memory;
#[cfg(test)]
mod printer;
#[cfg(test)]
mod reboots;
#[cfg(test)]
mod records;
#[cfg(test)]
mod requests;
#[cfg(test)]
mod zone;
