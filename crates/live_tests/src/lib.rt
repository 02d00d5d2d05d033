//! Tests of the command `live`, over public calls, with sources, sinks and disks in memory. What they expect is worked out by hand from
//! docs/COMMANDS.md, docs/LIVE.md and docs/ZONEADM.md.
#![tactic(auto)]

#[cfg(test)]
mod brands;
#[cfg(test)]
mod gates;
#[cfg(test)]
mod going_on;
#[cfg(test)]
mod hooks;
#[cfg(test)]
mod rows;
#[cfg(test)]
mod runs;
