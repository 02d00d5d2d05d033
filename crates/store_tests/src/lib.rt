//! Tests of what zones are stored with, over public calls: sources, sinks and disks, banks, stores, indexes and UUIDs.
//! What they expect comes from docs/STORE.md, from a plain script, and from another implementation of UUIDs.
#![tactic(auto)]

#[cfg(test)]
mod banks;
#[cfg(test)]
mod disks;
#[cfg(test)]
mod indexes;
#[cfg(test)]
mod stores;
#[cfg(test)]
mod streams;
#[cfg(test)]
mod uuids;
