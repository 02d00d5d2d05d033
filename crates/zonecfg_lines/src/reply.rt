//! What a line is answered, and what it finds stored.
use crate::LineRefusal;
use zn_base::{Bytes, Listing};
use zone_config::ZoneConfig;

/// What a line asks of its caller, once its subcommands are obeyed.
#[derive(Clone, Copy, Debug, PartialEq, Eq)]
pub enum Ending {
    /// Nothing: the session goes on.
    Nothing,
    /// To store the configuration that is open.
    Commit,
    /// To remove the zone.
    Delete,
    /// To leave the session; with `force` (`-F`) without a commit of what was changed.
    Exit { force: bool },
}

/// What a line is answered: the lines that its subcommands told, each without its newline, and what it asks for,
/// or why it was refused. What was told before a refusal is there too.
#[derive(Drop)]
pub struct LineReply {
    pub told: Listing<Bytes>,
    pub end: Result<Ending, LineRefusal>,
}

/// What is stored of the zone: its configuration, and that one's revision.
#[derive(Clone, Copy)]
pub struct Stored<'s> {
    pub config: &'s ZoneConfig,
    pub revision: u32,
}
