//! Tests of what a machine tells of one zone, of copies, and of runs in which other zones' entries are removed. What they
//! expect is worked out by hand from docs/TRACES.md and docs/ZONEADM.md.
#![tactic(auto)]

#[cfg(test)]
mod events;
#[cfg(test)]
mod kept;
#[cfg(test)]
mod machines;
#[cfg(test)]
mod views;
