//! What a subcommand of zonecfg(8) is refused for, printed.
ghost use Rattle.std.specs.Prelude.{◌≡◌, ◌++◌, OnOk};
ghost use Rattle.trace_text.specs.Edit_faults.{config_text, edit_text, lex_text, scope_text};

use config_terms::ConfigFault;
use std::alloc::AllocError;
use zn_base::{push_both, push_numbered};
use zonecfg_lex::LexFault;
use zonecfg_scopes::{EditFault, Scope};

fn push_lex(out: &mut Vec<u8>, fault: LexFault) -> Result<(), AllocError>
    ensures { OnOk result (out.new.items ≡ out.old.items ++ lex_text fault) }
{
    match fault {
        LexFault::Memory => out.extend_from_slice(b"no memory"),
        LexFault::OpenQuote(place) => push_numbered(out, b"11 OpenQuote ", place as u64),
        LexFault::StrayByte(place) => push_numbered(out, b"12 StrayByte ", place as u64),
        LexFault::OpenBracket(place) => push_numbered(out, b"13 OpenBracket ", place as u64),
        LexFault::NoValue(place) => push_numbered(out, b"14 NoValue ", place as u64),
    }
}

fn push_config(out: &mut Vec<u8>, fault: ConfigFault) -> Result<(), AllocError>
    ensures { OnOk result (out.new.items ≡ out.old.items ++ config_text fault) }
{
    match fault {
        ConfigFault::Memory => out.extend_from_slice(b"no memory"),
        ConfigFault::NotExport(line) => push_numbered(out, b"21 NotExport ", line as u64),
        ConfigFault::UnknownProperty => out.extend_from_slice(b"22 UnknownProperty"),
        ConfigFault::BadValue => out.extend_from_slice(b"23 BadValue"),
        ConfigFault::Duplicate => out.extend_from_slice(b"24 Duplicate"),
        ConfigFault::NoMatch => out.extend_from_slice(b"25 NoMatch"),
        ConfigFault::SeveralMatch(count) => push_numbered(out, b"26 SeveralMatch ", count as u64),
        ConfigFault::TooMany(most) => push_numbered(out, b"27 TooMany ", most as u64),
        ConfigFault::AliasHeld => out.extend_from_slice(b"28 AliasHeld"),
        ConfigFault::TooLarge(size) => push_numbered(out, b"29 TooLarge ", size as u64),
    }
}

fn scope_text(scope: Scope) -> &'static [u8]
    ensures { result.now ≡ scope_text scope }
{
    match scope {
        Scope::Global => b"global",
        Scope::Resource(kind) => kind.name(),
    }
}

/// Puts the code and the name of what a subcommand is refused for after what is there, and what it is about.
pub fn push_edit(out: &mut Vec<u8>, fault: EditFault) -> Result<(), AllocError>
    ensures { OnOk result (out.new.items ≡ out.old.items ++ edit_text fault) }
{
    match fault {
        EditFault::Memory => out.extend_from_slice(b"no memory"),
        EditFault::Lex(fault) => push_lex(out, fault),
        EditFault::UnknownCommand => out.extend_from_slice(b"31 UnknownCommand"),
        EditFault::WrongScope(scope) => push_both(out, b"32 WrongScope ", scope_text(scope)),
        EditFault::NothingOpen => out.extend_from_slice(b"33 NothingOpen"),
        EditFault::NeedForce => out.extend_from_slice(b"34 NeedForce"),
        EditFault::Usage => out.extend_from_slice(b"35 Usage"),
        EditFault::NotHere => out.extend_from_slice(b"36 NotHere"),
        EditFault::Config(fault) => push_config(out, fault),
    }
}
