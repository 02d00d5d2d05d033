//! The limit set that a limitpriv text denotes.
ghost use Rattle.std.specs.Prelude.{◌≡◌, ◌≤◌, ◌∷◌, length, position, slice_range};
ghost use Rattle.priv_sets.specs.Limit.{applied, is_comma, judged, limit_of, named, rule_of, set_of_words, spoken, words_behind, words_from};

use crate::set::PrivSet;
use crate::table::{Class, name_of, number_of};
use thiserror::Error;

/// Why a limitpriv text denotes no limit set, in the order in which it is looked at.
#[derive(Clone, Copy, Debug, PartialEq, Eq, Error)]
pub enum PrivFault {
    /// It never comes from `limit_of`, which takes no memory.
    #[error("out of memory")]
    Memory,
    /// The place of the first token that says nothing, from 0.
    #[error("no privilege is named at byte {0}")]
    PrivWord(usize),
    /// The number of the first required privilege that is missing.
    #[error("the privilege {} is required", name_of(*.0))]
    PrivRequired(u8),
    /// The number of the first prohibited privilege that is there.
    #[error("the privilege {} is prohibited", name_of(*.0))]
    PrivProhibited(u8),
}

// What a token says of the privileges that it covers.
#[derive(Drop)]
pub(crate) struct Rule {
    adds: bool,
    covered: PrivSet,
}

// What a token without its sign covers.
#[tactic(auto, unfolding(crate::specs::Limit::named))]
fn named(word: &[u8]) -> Option<PrivSet>
    ensures { result ≡ named word.now }
{
    if word == b"all".as_slice() {
        return Some(PrivSet::everything());
    }
    Some(PrivSet::only(number_of(word)?))
}

#[tactic(auto, unfolding(crate::specs::Limit::rule_of))]
fn rule_of(is_first: bool, word: &[u8]) -> Option<Rule>
    ensures { result ≡ rule_of is_first word.now }
{
    if is_first && word == b"default".as_slice() {
        return Some(Rule {
            adds: true,
            covered: PrivSet::default_set(),
        });
    }
    let (adds, name) = match word {
        [b'!' | b'-', name @ ..] => (false, name),
        _ => (true, word),
    };
    let covered = named(name)?;
    Some(Rule { adds, covered })
}

#[tactic(auto, unfolding(crate::specs::Limit::applied))]
fn applied(rule: &Rule, set: &PrivSet) -> PrivSet
    ensures { result ≡ applied rule.now set.now }
{
    if rule.adds {
        set.union(&rule.covered)
    } else {
        set.without(&rule.covered)
    }
}

fn next_comma(bytes: &[u8]) -> Option<usize>
    ensures { result ≡ position is_comma bytes.now }
{
    bytes.iter().position(|byte| *byte == b',')
}

// Where the token ends that begins at a place.
fn token_end(text: &[u8], place: usize) -> usize
    requires { place ≤ length text.now }
    ensures after { place ≤ result }
    ensures within { result ≤ length text.now }
    ensures token { words_from text.now place ≡ slice_range text.now place result ∷ words_behind text.now result }
{
    match next_comma(&text[place..]) {
        Some(size) => place + size,
        None => text.len(),
    }
}

// The tokens apply from left to right, so that the last one that covers a privilege decides.
fn set_of_words(text: &[u8]) -> Result<PrivSet, PrivFault>
    ensures { result ≡ set_of_words (words_from text.now 0) }
{
    let mut set = PrivSet::none();
    let mut place = 0;
    loop {
        let end = token_end(text, place);
        let Some(rule) = rule_of(place == 0, &text[place..end]) else {
            return Err(PrivFault::PrivWord(place));
        };
        set = applied(&rule, &set);
        if end == text.len() {
            return Ok(set);
        }
        place = end + 1;
    }
}

// The set, where it has what it must and nothing that it must not have.
#[tactic(auto, unfolding(crate::specs::Limit::judged))]
fn judged(set: PrivSet) -> Result<PrivSet, PrivFault>
    ensures { result ≡ judged set }
{
    if let Some(number) = PrivSet::all_of(Class::Required).without(&set).first() {
        return Err(PrivFault::PrivRequired(number));
    }
    if let Some(number) = PrivSet::all_of(Class::Prohibited).both(&set).first() {
        return Err(PrivFault::PrivProhibited(number));
    }
    Ok(set)
}

fn spoken(text: &[u8]) -> &[u8]
    ensures { result.now ≡ spoken text.now }
{
    match text {
        [] => b"default",
        _ => text,
    }
}

/// The limit set that a limitpriv text denotes: its tokens, with a comma between two, are `default` (only as
/// the first), `all` and names of privileges(7), the last two with `!` or `-` before them to take away. They
/// apply from left to right, and the empty text means `default`. It takes no memory.
#[tactic(auto, unfolding(crate::specs::Limit::limit_of))]
pub fn limit_of(text: &[u8]) -> Result<PrivSet, PrivFault>
    ensures { result ≡ limit_of text.now }
{
    judged(set_of_words(spoken(text))?)
}
