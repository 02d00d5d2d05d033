//! Tests of the zone machine, of the text of traces and of whole runs of the program, over public calls, with
//! sources, sinks and disks in memory. What they expect is worked out by hand from docs/COMMANDS.md, docs/ZONECFG.md,
//! docs/ZONEADM.md, docs/TRACES.md and docs/STORE.md.
#![tactic(auto)]

#[cfg(test)]
mod brands;
#[cfg(test)]
mod cells;
#[cfg(test)]
mod crashes;
#[cfg(test)]
mod declarations;
#[cfg(test)]
mod entries;
#[cfg(test)]
mod exports;
#[cfg(test)]
mod given_lines;
#[cfg(test)]
mod kept;
#[cfg(test)]
mod limits;
#[cfg(test)]
mod live_lines;
#[cfg(test)]
mod machine;
#[cfg(test)]
mod replies;
#[cfg(test)]
mod restarts;
#[cfg(test)]
mod runs;
#[cfg(test)]
mod stores;
#[cfg(test)]
mod texts;
#[cfg(test)]
mod trace_lines;
#[cfg(test)]
mod traces;
