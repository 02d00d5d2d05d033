//! Phrases: a word, and what follows it. What is to be printed is made a phrase, and the phrase is put down.
ghost use Rattle.std.specs.Prelude.{◌∷◌, ◌≡◌, ◌++◌, OnOk};
ghost use Rattle.std.specs.Fmt.{decimal};
ghost use Rattle.trace_text.specs.Phrases.{phrase_text};
ghost use Rattle.trace_text.specs.Turns.{claim_kind_text, claim_text, counted_text};

use crate::edit_faults::push_edit;
use crate::flaws::{push_flaw, push_limit_fault};
use config_verify::Flaw;
use datalink_table::{Claim, ClaimKind};
use priv_sets::PrivFault;
use std::alloc::AllocError;
use zn_base::{ZoneState, push_both, push_numbered};
use zonecfg_scopes::EditFault;

#[derive(Clone, Copy)]
pub(crate) enum Phrase<'a> {
    /// The word alone.
    Bare(&'a [u8]),
    Text(&'a [u8], &'a [u8]),
    State(&'a [u8], ZoneState),
    Number(&'a [u8], u64),
    /// Two numbers, with a space between them.
    Numbers(&'a [u8], u32, u32),
    /// The number follows a space, where it is known.
    Counted(&'a [u8], &'a Option<u32>),
    Claimed(&'a [u8], &'a Claim),
    /// A flaw, with its own words.
    Flawed(&'a Flaw),
    /// What a subcommand is refused for, with its own words.
    Edit(EditFault),
    /// Why a limitpriv denotes no limit set, likewise.
    Limited(PrivFault),
}

fn push_counted(out: &mut Vec<u8>, word: &[u8], count: &Option<u32>) -> Result<(), AllocError>
    ensures { OnOk result (out.new.items ≡ out.old.items ++ counted_text word.now count.now) }
{
    out.extend_from_slice(word)?;
    match count {
        None => Ok(()),
        Some(number) => push_numbered(out, b" ", *number as u64),
    }
}

fn claim_kind_text(kind: ClaimKind) -> &'static [u8]
    ensures { result.now ≡ claim_kind_text kind }
{
    match kind {
        ClaimKind::Link => b"link ",
        ClaimKind::Address => b"address ",
        ClaimKind::Dataset => b"dataset ",
    }
}

fn push_claim(out: &mut Vec<u8>, word: &[u8], claim: &Claim) -> Result<(), AllocError>
    ensures { OnOk result (out.new.items ≡ out.old.items ++ (word.now ++ claim_text claim.now)) }
{
    out.extend_from_slice(word)?;
    push_both(out, claim_kind_text(claim.kind), claim.item.bytes())
}

fn push_numbers(out: &mut Vec<u8>, word: &[u8], first: u32, second: u32) -> Result<(), AllocError>
    ensures { OnOk result (out.new.items ≡ out.old.items ++ (word.now ++ decimal first ++ 32 ∷ decimal second)) }
{
    push_numbered(out, word, first as u64)?;
    push_numbered(out, b" ", second as u64)
}

pub(crate) fn push_phrase(out: &mut Vec<u8>, phrase: Phrase) -> Result<(), AllocError>
    ensures { OnOk result (out.new.items ≡ out.old.items ++ phrase_text phrase.entry) }
{
    match phrase {
        Phrase::Bare(word) => out.extend_from_slice(word),
        Phrase::Text(word, text) => push_both(out, word, text),
        Phrase::State(word, state) => push_both(out, word, state.text()),
        Phrase::Number(word, number) => push_numbered(out, word, number),
        Phrase::Numbers(word, first, second) => push_numbers(out, word, first, second),
        Phrase::Counted(word, count) => push_counted(out, word, count),
        Phrase::Claimed(word, claim) => push_claim(out, word, claim),
        Phrase::Flawed(flaw) => push_flaw(out, flaw),
        Phrase::Edit(fault) => push_edit(out, fault),
        Phrase::Limited(fault) => push_limit_fault(out, fault),
    }
}
