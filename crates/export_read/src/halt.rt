//! Why lines are not put.
ghost use Rattle.std.specs.Prelude.{◌≡◌};
ghost use Rattle.export_read.specs.declared.halt.Halt.TheVariants.{Memory};
ghost use Rattle.export_read.specs.Halts.{halt_of};

use config_terms::ConfigFault;
use std::alloc::AllocError;

/// Why a line is not put into a draft: memory runs out, or no export text has the line there.
#[derive(Clone, Copy, Debug, PartialEq, Eq)]
pub enum Halt {
    Memory,
    Refused,
}

impl From<AllocError> for Halt {
    ghost from_gives = { λ _ e. e ≡ Memory };

    fn from(_: AllocError) -> Self {
        Halt::Memory
    }
}

impl From<ConfigFault> for Halt {
    ghost from_gives = { λ fault e. e ≡ halt_of fault };

    // What a fault of a call on a configuration means for the line that made the call.
    fn from(fault: ConfigFault) -> Self {
        match fault {
            ConfigFault::Memory => Halt::Memory,
            _ => Halt::Refused,
        }
    }
}
