//! What is wrong with a configuration, printed.
ghost use Rattle.std.specs.Prelude.{◌≡◌, ◌++◌, OnOk};
ghost use Rattle.config_verify.specs.declared.flaw.Flaw.TheVariants.{MissingProperty};
ghost use Rattle.trace_text.specs.Flaws.{flaw_text, limit_fault_text, property_text};

use config_terms::{Kind, Named};
use config_verify::Flaw;
use priv_sets::{PrivFault, name_of};
use std::alloc::AllocError;
use zn_base::{push_both, push_numbered};

fn property_text(kind: Kind, name: Named) -> &'static [u8]
    ensures { result.now ≡ property_text kind name }
{
    match name {
        Named::One(field) => field.name(),
        Named::Many => match kind.list_name() {
            Some(list) => list,
            None => b"value",
        },
    }
}

fn push_property(out: &mut Vec<u8>, kind: Kind, name: Named) -> Result<(), AllocError>
    ensures { OnOk result (out.new.items ≡ out.old.items ++ flaw_text (MissingProperty kind name)) }
{
    push_both(out, b"42 MissingProperty ", kind.name())?;
    push_both(out, b" ", property_text(kind, name))
}

/// Puts the code and the name of a flaw after what is there, and what the flaw is about.
pub fn push_flaw(out: &mut Vec<u8>, flaw: &Flaw) -> Result<(), AllocError>
    ensures { OnOk result (out.new.items ≡ out.old.items ++ flaw_text flaw.now) }
{
    match flaw {
        Flaw::Memory => out.extend_from_slice(b"no memory"),
        Flaw::NoZonepath => out.extend_from_slice(b"41 NoZonepath"),
        Flaw::MissingProperty(kind, name) => push_property(out, *kind, *name),
        Flaw::NetForm(place) => push_numbered(out, b"43 NetForm ", *place as u64),
        Flaw::BadAddress(text) => push_both(out, b"44 BadAddress ", text.bytes()),
        Flaw::SameDir(dir) => push_both(out, b"45 SameDir ", dir.bytes()),
        Flaw::UnknownBrand(brand) => push_both(out, b"46 UnknownBrand ", brand.bytes()),
        Flaw::AttrForm(name) => push_both(out, b"50 AttrForm ", name.bytes()),
    }
}

// Why a limitpriv denotes no limit set.
pub(crate) fn push_limit_fault(out: &mut Vec<u8>, fault: PrivFault) -> Result<(), AllocError>
    ensures { OnOk result (out.new.items ≡ out.old.items ++ limit_fault_text fault) }
{
    match fault {
        PrivFault::Memory => out.extend_from_slice(b"no memory"),
        PrivFault::PrivWord(place) => push_numbered(out, b"47 PrivWord ", place as u64),
        PrivFault::PrivRequired(number) => {
            push_both(out, b"48 PrivRequired ", name_of(number).as_bytes())
        }
        PrivFault::PrivProhibited(number) => {
            push_both(out, b"49 PrivProhibited ", name_of(number).as_bytes())
        }
    }
}
