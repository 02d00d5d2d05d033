//! Why a subcommand is refused.
ghost use Rattle.std.specs.Prelude.{◌≡◌};
ghost use Rattle.zonecfg_scopes.specs.declared.fault.EditFault.TheVariants.{Memory};

use config_terms::{ConfigFault, Kind};
use std::alloc::{AllocError, AllocFailed};
use thiserror::Error;
use zonecfg_lex::LexFault;

/// The scope in which a subcommand stands (zonecfg(8), SUBCOMMANDS).
#[derive(Clone, Copy, Debug, PartialEq, Eq)]
pub enum Scope {
    Global,
    /// The scope of one resource of a type.
    Resource(Kind),
}

/// Why a subcommand is refused: the first cause, in the order in which they stand here. Where memory ran
/// out the subcommand may be tried again.
#[derive(Clone, Copy, Debug, PartialEq, Eq, Error)]
pub enum EditFault {
    #[error("out of memory")]
    Memory,
    /// The line can't be cut into tokens, or tokens are no value where the form has one. Places count from
    /// the subcommand's first byte.
    #[error(transparent)]
    Lex(LexFault),
    #[error("no subcommand has this name")]
    UnknownCommand,
    #[error("the subcommand has another form")]
    Usage,
    #[error("the subcommand has no place here")]
    NotHere,
    #[error("no configuration is open")]
    NothingOpen,
    /// The scope in which the subcommand stands, and in which it may not.
    #[error("a subcommand of another scope")]
    WrongScope(Scope),
    #[error("only with -F")]
    NeedForce,
    /// What the configuration, or the open resource, refuses.
    #[error(transparent)]
    Config(ConfigFault),
}

impl From<AllocError> for EditFault {
    ghost from_gives = { λ _ e. e ≡ Memory };

    fn from(_: AllocError) -> Self {
        EditFault::Memory
    }
}

impl From<LexFault> for EditFault {
    ghost use Rattle.zonecfg_scopes.specs.Faults.{lexed};

    ghost from_gives = { λ fault e. e ≡ lexed fault };

    fn from(fault: LexFault) -> Self {
        match fault {
            LexFault::Memory => EditFault::Memory,
            fault => EditFault::Lex(fault),
        }
    }
}

impl From<ConfigFault> for EditFault {
    ghost use Rattle.zonecfg_scopes.specs.Faults.{passed_on};

    ghost from_gives = { λ fault e. e ≡ passed_on fault };

    fn from(fault: ConfigFault) -> Self {
        match fault {
            ConfigFault::Memory => EditFault::Memory,
            fault => EditFault::Config(fault),
        }
    }
}
