//! Which resources match, and which are told apart by a name.
ghost use Rattle.std.specs.Str.{bytes_eq};
ghost use Rattle.std.specs.Prelude.{◌≡◌, ◌<◌, ◌≤◌, ◌∷◌, length, count_by, position, remove, true, IfOk, IsTrue, Some};
ghost use Rattle.config_terms.specs.Allowed.{are_distinct, are_told_apart, has_key, is_taken, keeps_key};
ghost use Rattle.config_terms.specs.Matches.{has_all, has_pair, is_text, is_wanted, only_place};

use crate::{ConfigFault, Entry, Field, Kind};
use zn_base::Pair;

// Whether two texts are one. The names of many resources mostly differ in their length or in their last
// byte, so these are looked at first.
#[inline(always)]
fn is_same(one: &[u8], other: &[u8]) -> bool
    ensures { result ≡ bytes_eq one.now other.now }
{
    let length = one.len();
    if length != other.len() {
        return false;
    }
    if length > 0 && one[length - 1] != other[length - 1] {
        return false;
    }
    one == other
}

// Whether a property that a name stands for shows a text.
#[inline(always)]
fn is_text<T: Entry>(entry: &T, field: Option<Field>, text: &[u8]) -> bool
    ensures { result ≡ is_text (T.shown entry.now) field text.now }
{
    match field {
        None => false,
        Some(field) => is_same(entry.shown(field), text),
    }
}

fn has_pair<T: Entry>(kind: Kind, entry: &T, wanted: &Pair) -> bool
    ensures { result ≡ has_pair kind (T.shown entry.now) wanted.now }
{
    is_text(entry, kind.field(wanted.name.bytes()), wanted.value.bytes())
}

/// Whether each wanted pair names a simple property of the kind that shows its value. It takes no memory.
pub fn has_all<T: Entry>(kind: Kind, entry: &T, wanted: &[Pair]) -> bool
    ensures { result ≡ has_all kind wanted.now (T.shown entry.now) }
{
    wanted.iter().all(|pair| has_pair(kind, entry, pair))
}

#[inline(always)]
fn first_match<T: Entry>(
    kind: Kind,
    entries: &[T],
    field: Option<Field>,
    text: &[u8],
    rest: &[Pair],
) -> Option<usize>
    ensures { result ≡ position (is_wanted T.shown kind field text.now rest.now) entries.now }
{
    entries.iter().position(|entry| is_text(entry, field, text) && has_all(kind, entry, rest))
}

#[inline(always)]
fn count_matches<T: Entry>(
    kind: Kind,
    entries: &[T],
    field: Option<Field>,
    text: &[u8],
    rest: &[Pair],
) -> usize
    ensures { result ≡ count_by (is_wanted T.shown kind field text.now rest.now) entries.now }
{
    entries
        .iter()
        .filter(|entry| is_text(*entry, field, text) && has_all(kind, *entry, rest))
        .count()
}

// Goes over the resources once: up to the first that matches, and from it on.
#[inline(always)]
#[tactic(auto, unfolding(crate::specs::Matches::only_place))]
fn only_match<T: Entry>(
    kind: Kind,
    entries: &[T],
    field: Option<Field>,
    text: &[u8],
    rest: &[Pair],
) -> Result<usize, ConfigFault>
    ensures answer { result ≡ only_place (is_wanted T.shown kind field text.now rest.now) entries.now }
    ensures inside { IfOk result (λ place. place < length entries.now) }
{
    let Some(place) = first_match(kind, entries, field, text, rest) else {
        return Err(ConfigFault::NoMatch);
    };
    let count = count_matches(kind, &entries[place..], field, text, rest);
    if count > 1 {
        return Err(ConfigFault::SeveralMatch(count));
    }
    Ok(place)
}

// The property of the first pair is looked up once for all resources.
fn match_pairs<T: Entry>(
    kind: Kind,
    entries: &[T],
    first: &Pair,
    rest: &[Pair],
) -> Result<usize, ConfigFault>
    ensures answer { result ≡ only_place (λ e. has_all kind (first.now ∷ rest.now) (T.shown e)) entries.now }
    ensures inside { IfOk result (λ place. place < length entries.now) }
{
    let field = kind.field(first.name.bytes());
    only_match(kind, entries, field, first.value.bytes(), rest)
}

// Where nothing is wanted, each resource matches.
#[tactic(auto, unfolding(crate::specs::Matches::only_place), using(crate::proofs::Alone::one_alone, crate::proofs::Alone::several_match))]
fn only_entry<T>(entries: &[T]) -> Result<usize, ConfigFault>
    ensures answer { result ≡ only_place (λ e. true) entries.now }
    ensures inside { IfOk result (λ place. place < length entries.now) }
{
    match entries {
        [] => Err(ConfigFault::NoMatch),
        [_] => Ok(0),
        _ => Err(ConfigFault::SeveralMatch(entries.len())),
    }
}

/// The place of the one resource of a kind that has all wanted pairs, or 25, or 26 with how many have
/// them. It takes no memory.
pub fn find_entry<T: Entry>(
    kind: Kind,
    entries: &[T],
    wanted: &[Pair],
) -> Result<usize, ConfigFault>
    ensures answer { result ≡ only_place (λ e. has_all kind wanted.now (T.shown e)) entries.now }
    ensures inside { IfOk result (λ place. place < length entries.now) }
{
    match wanted {
        [] => only_entry(entries),
        [first, rest @ ..] => match_pairs(kind, entries, first, rest),
    }
}

// The compiler knows the key of a kind, so this loop reads it where it lies.
#[inline(always)]
fn first_keyed<T: Entry>(
    kind: Kind,
    entries: &[T],
    key: Field,
    text: &[u8],
    rest: &[Pair],
) -> Option<usize>
    ensures { result ≡ position (is_wanted T.shown kind (Some key) text.now rest.now) entries.now }
{
    entries.iter().position(|entry| is_same(entry.shown(key), text) && has_all(kind, entry, rest))
}

// Where a key is wanted that no two have, the first that has it is the only one that may match.
#[inline(always)]
#[tactic(auto, unfolding(crate::specs::Matches::only_place))]
fn keyed_match<T: Entry>(
    kind: Kind,
    entries: &[T],
    key: Field,
    text: &[u8],
    rest: &[Pair],
) -> Result<usize, ConfigFault>
    requires { IsTrue (are_distinct (λ e. T.shown e key) entries.now) }
    ensures answer { result ≡ only_place (is_wanted T.shown kind (Some key) text.now rest.now) entries.now }
    ensures inside { IfOk result (λ place. place < length entries.now) }
{
    match first_keyed(kind, entries, key, text, rest) {
        None => Err(ConfigFault::NoMatch),
        Some(place) => Ok(place),
    }
}

/// The same of resources of which no two have one key.
pub fn find_apart<T: Entry>(
    kind: Kind,
    entries: &[T],
    wanted: &[Pair],
) -> Result<usize, ConfigFault>
    requires { IsTrue (are_told_apart T.shown kind entries.now) }
    ensures answer { result ≡ only_place (λ e. has_all kind wanted.now (T.shown e)) entries.now }
    ensures inside { IfOk result (λ place. place < length entries.now) }
{
    match wanted {
        [] => only_entry(entries),
        [first, rest @ ..] => match_apart(kind, entries, first, rest),
    }
}

#[inline(always)]
fn match_apart<T: Entry>(
    kind: Kind,
    entries: &[T],
    first: &Pair,
    rest: &[Pair],
) -> Result<usize, ConfigFault>
    requires { IsTrue (are_told_apart T.shown kind entries.now) }
    ensures answer { result ≡ only_place (λ e. has_all kind (first.now ∷ rest.now) (T.shown e)) entries.now }
    ensures inside { IfOk result (λ place. place < length entries.now) }
{
    let field = kind.field(first.name.bytes());
    let text = first.value.bytes();
    match kind.key() {
        Some(key) if field == Some(key) => keyed_match(kind, entries, key, text, rest),
        _ => only_match(kind, entries, field, text, rest),
    }
}

/// Whether a property of some resource shows a text. It takes no memory.
pub fn has_key<T: Entry>(field: Field, key: &[u8], entries: &[T]) -> bool
    ensures { result ≡ has_key (λ e. T.shown e field) key.now entries.now }
{
    entries.iter().any(|entry| is_same(entry.shown(field), key))
}

/// Whether some resource of a kind has the name (of a device the match) of this one, where the kind tells
/// resources apart by it. It takes no memory.
pub fn is_taken<T: Entry>(kind: Kind, entry: &T, entries: &[T]) -> bool
    ensures { result ≡ is_taken T.shown kind entry.now entries.now }
{
    match kind.key() {
        None => false,
        Some(field) => has_key(field, entry.shown(field), entries),
    }
}

/// The same of the resources but the one at a place.
pub fn is_taken_but<T: Entry>(kind: Kind, place: usize, entry: &T, entries: &[T]) -> bool
    requires { place < length entries.now }
    ensures { result ≡ is_taken T.shown kind entry.now (remove entries.now place) }
{
    is_taken(kind, entry, &entries[..place]) || is_taken(kind, entry, &entries[place + 1..])
}

/// Whether a resource has the key of another of its kind, which stays then if it takes its place. It takes no
/// memory.
pub fn keeps_key<T: Entry>(kind: Kind, entry: &T, other: &T) -> bool
    ensures { result ≡ keeps_key T.shown kind entry.now other.now }
{
    match kind.key() {
        None => true,
        Some(field) => is_same(entry.shown(field), other.shown(field)),
    }
}
