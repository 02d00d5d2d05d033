//! Why a line is refused.
ghost use Rattle.std.specs.Prelude.{◌≡◌};
ghost use Rattle.zonecfg_lines.specs.declared.refusal.Halt.TheVariants.{Memory};

use config_verify::Flaw;
use std::alloc::AllocError;
use zonecfg_scopes::EditFault;

/// Why a line is refused. That memory ran out is no such cause: then a line has no reply.
#[derive(Drop)]
pub enum LineRefusal {
    /// What the editor refuses one of its subcommands for.
    Edit(EditFault),
    /// The first flaw of the configuration that is open, for which `verify` asked.
    Flawed(Flaw),
    /// Nothing is stored of the zone to which `revert` may go back.
    NoZone,
    /// `commit`, `delete` or `exit` with another subcommand after it.
    Usage,
}

/// Why a line goes no further.
#[derive(Drop)]
pub(crate) enum Halt {
    Memory,
    Refused(LineRefusal),
}

impl From<AllocError> for Halt {
    ghost from_gives = { λ _ halt. halt ≡ Memory };

    fn from(_: AllocError) -> Self {
        Halt::Memory
    }
}

impl From<EditFault> for Halt {
    ghost use Rattle.zonecfg_lines.specs.Halts.{halted};

    ghost from_gives = { λ fault halt. halt ≡ halted fault };

    fn from(fault: EditFault) -> Self {
        match fault {
            EditFault::Memory => Halt::Memory,
            fault => Halt::Refused(LineRefusal::Edit(fault)),
        }
    }
}

impl From<Flaw> for Halt {
    ghost use Rattle.zonecfg_lines.specs.Halts.{found};

    ghost from_gives = { λ flaw halt. halt ≡ found flaw };

    fn from(flaw: Flaw) -> Self {
        match flaw {
            Flaw::Memory => Halt::Memory,
            flaw => Halt::Refused(LineRefusal::Flawed(flaw)),
        }
    }
}
