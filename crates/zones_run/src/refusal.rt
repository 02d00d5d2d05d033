//! Why `export` refuses a line or the end of its input, and how standard error reports it.
ghost use Rattle.std.specs.Prelude.{◌≡◌, ◌++◌, OnOk};
ghost use Rattle.zones_run.specs.Refusals.{refusal_text};

use config_verify::Flaw;
use std::alloc::AllocError;
use trace_text::{push_edit, push_flaw};
use zonecfg_scopes::EditFault;

/// Why a line, or the end of the input, is refused.
#[derive(Drop)]
pub enum Refusal {
    /// Memory ran out.
    Memory,
    /// What a subcommand is refused for.
    Edit(EditFault),
    /// The first flaw of the configuration that is open.
    Flawed(Flaw),
}

impl From<EditFault> for Refusal {
    ghost use Rattle.zones_run.specs.Refusals.{refused};

    ghost from_gives = { λ fault e. e ≡ refused fault };

    fn from(fault: EditFault) -> Self {
        match fault {
            EditFault::Memory => Refusal::Memory,
            fault => Refusal::Edit(fault),
        }
    }
}

impl From<Flaw> for Refusal {
    ghost use Rattle.zones_run.specs.Refusals.{flawed};

    ghost from_gives = { λ flaw e. e ≡ flawed flaw };

    fn from(flaw: Flaw) -> Self {
        match flaw {
            Flaw::Memory => Refusal::Memory,
            flaw => Refusal::Flawed(flaw),
        }
    }
}

/// Puts the code, the name and the rest of a refusal after a text.
#[tactic(auto, unfolding(crate::specs::Refusals::refusal_text))]
pub fn push_refusal(out: &mut Vec<u8>, refusal: &Refusal) -> Result<(), AllocError>
    ensures { OnOk result (out.new.items ≡ out.old.items ++ refusal_text refusal.now) }
{
    match refusal {
        Refusal::Memory => out.extend_from_slice(b"no memory"),
        Refusal::Edit(fault) => push_edit(out, *fault),
        Refusal::Flawed(flaw) => push_flaw(out, flaw),
    }
}
