//! Tests of `zn_base`, `grant_text`, `priv_sets`, `kernel_objects`, `datalink_table`, `loopback_mounts` and
//! `process_calls` over their public calls: texts, paths, names, patterns and states, the texts of grants, the limit
//! sets that zones have, what they have in the kernel, the links, addresses and datasets that they hold, their mounts,
//! and the calls of processes. What is expected of sets and of calls is worked out from docs/PRIVILEGES.md and
//! docs/TRACES.md by hand.
#![tactic(auto)]

#[cfg(test)]
mod calls;
#[cfg(test)]
mod claims;
#[cfg(test)]
mod grants;
#[cfg(test)]
mod kernel;
#[cfg(test)]
mod mounts;
#[cfg(test)]
mod names;
#[cfg(test)]
mod paths;
#[cfg(test)]
mod patterns;
#[cfg(test)]
mod places;
#[cfg(test)]
mod privileges;
#[cfg(test)]
mod states;
#[cfg(test)]
mod texts;
