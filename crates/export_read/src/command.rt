//! What a line of an export text says.
use config_terms::{Kind, Limit};
use zn_base::{Listing, Text};

/// A line of an export text (zonecfg(8), export).
#[derive(Drop)]
pub enum Command {
    /// `create -b`
    Create,
    /// `set NAME=VALUE`, in the global scope or of the open resource.
    Set(Text, Text),
    /// `add KIND`
    Open(Kind),
    /// `add options [OPTION,..]`
    Options(Listing<Text>),
    /// `add value (priv=privileged,limit=N,action=A)`
    Value(Limit),
    /// `end`
    End,
}
