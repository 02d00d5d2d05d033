//! Tests of a zone's configuration over public calls: lines and values, resources, configurations, their export
//! texts, flaws, the editor, and lines of a session. What they expect is worked out from docs/ZONECFG.md by hand.
#![tactic(auto)]

#[cfg(test)]
mod configurations;
#[cfg(test)]
mod editors;
#[cfg(test)]
mod exports;
#[cfg(test)]
mod flaws;
#[cfg(test)]
mod lines;
#[cfg(test)]
mod resources;
#[cfg(test)]
mod sessions;
#[cfg(test)]
mod values;
