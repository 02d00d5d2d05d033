//! A shortest name that no resource of its kind has.
ghost use Rattle.std.specs.Prelude.{◌≡◌, ◌∷◌, [], IfOk, find};
ghost use Rattle.config_terms.specs.Fields.{field_rule};
ghost use Rattle.export_read.specs.Names.{bare_bytes, fresh, is_free, is_used, pair_by};

use config_terms::{Field, has_key};
use std::alloc::{AllocError, Global};
use zn_base::Text;
use zone_config::Contents;

const BARE: &[u8] = b"ABCDEFGHIJKLMNOPQRSTUVWXYZabcdefghijklmnopqrstuvwxyz0123456789_-./:,*?!@+%";

// Whether some resource has a name in the property by which its kind is told apart.
fn is_used(contents: &Contents, key: Field, name: &[u8]) -> bool
    ensures { result ≡ is_used key contents.now name.now }
{
    match key {
        Field::DeviceMatch => has_key(key, name, contents.device.as_slice()),
        Field::RctlName => has_key(key, name, contents.rctl.as_slice()),
        Field::AttrName => has_key(key, name, contents.attr.as_slice()),
        Field::DatasetName => has_key(key, name, contents.dataset.as_slice()),
        _ => false,
    }
}

fn is_free(contents: &Contents, key: Field, name: &[u8]) -> bool
    ensures { result ≡ is_free (field_rule key) (is_used key contents.now) name.now }
{
    key.rule().fits(name) && !is_used(contents, key, name)
}

fn one_byte(contents: &Contents, key: Field) -> Option<u8>
    ensures { result ≡ find (λ b. is_free (field_rule key) (is_used key contents.now) (b ∷ [])) bare_bytes }
{
    BARE.iter()
        .copied()
        .find(|byte| is_free(contents, key, &[*byte]))
}

fn second_byte(contents: &Contents, key: Field, first: u8) -> Option<u8>
    ensures { result ≡ find (λ b. is_free (field_rule key) (is_used key contents.now) (first ∷ (b ∷ []))) bare_bytes }
{
    BARE.iter()
        .copied()
        .find(|byte| is_free(contents, key, &[first, *byte]))
}

// The first free name of two bytes that begins with one of some.
#[tactic(auto, using(crate::proofs::Printing::found_pair))]
fn pair(alloc: Global, contents: &Contents, key: Field, firsts: &[u8]) -> Result<Text, AllocError>
    ensures { IfOk result (λ name. name ≡ pair_by (is_free (field_rule key) (is_used key contents.now)) firsts.now) }
{
    let [first, rest @ ..] = firsts else {
        return Ok(Text::empty(alloc));
    };
    match second_byte(contents, key, *first) {
        Some(second) => Text::of(alloc, &[*first, second]),
        None => pair(alloc, contents, key, rest),
    }
}

/// A shortest name that a key's rule allows and that no resource of its kind has.
#[tactic(auto, unfolding(crate::specs::Names::fresh), using(crate::proofs::Printing::found_one))]
pub fn fresh(alloc: Global, contents: &Contents, key: Field) -> Result<Text, AllocError>
    ensures { IfOk result (λ name. name ≡ fresh (field_rule key) (is_used key contents.now)) }
{
    if is_free(contents, key, b"") {
        return Ok(Text::empty(alloc));
    }
    match one_byte(contents, key) {
        Some(byte) => Text::of(alloc, &[byte]),
        None => pair(alloc, contents, key, b"abcd"),
    }
}
