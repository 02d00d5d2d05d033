//! Addresses, and the values of attributes.
ghost use Rattle.std.specs.Prelude.{◌≡◌, ◌+◌, ◌<◌, ◌&&◌, drop, length, position};
ghost use Rattle.std.specs.Char.{is_ascii_digit};
ghost use Rattle.std.specs.List.{list_all};
ghost use Rattle.zn_base.specs.Path.{is_slash};
ghost use Rattle.config_verify.specs.Values.{is_address, is_dot, is_of_form, is_plain_address, is_unsigned, is_up_to, without_prefix, without_sign};

use zn_base::read_decimal;

#[tactic(auto, unfolding(crate::specs::Values::is_up_to))]
fn is_up_to(most: u64, text: &[u8]) -> bool
    ensures { result ≡ is_up_to most text.now }
{
    if text == b"0".as_slice() {
        return true;
    }
    match read_decimal(text, u64::MAX) {
        Some(number) => number <= most,
        None => false,
    }
}

fn next_dot(text: &[u8]) -> Option<usize>
    ensures { result ≡ position is_dot text.now }
{
    text.iter().position(|byte| *byte == b'.')
}

fn next_slash(text: &[u8]) -> Option<usize>
    ensures { result ≡ position is_slash text.now }
{
    text.iter().position(|byte| *byte == b'/')
}

fn behind(text: &[u8], place: usize) -> &[u8]
    requires { place < length text.now }
    ensures { result.now ≡ drop (place + 1) text.now }
{
    &text[place + 1..]
}

fn are_octets(first: &[u8], second: &[u8], third: &[u8], last: &[u8]) -> bool
    ensures { result ≡ (is_up_to 255 first.now && is_up_to 255 second.now && is_up_to 255 third.now && is_up_to 255 last.now) }
{
    is_up_to(255, first) && is_up_to(255, second) && is_up_to(255, third) && is_up_to(255, last)
}

/// Whether a text is an IPv4 address without a prefix: four numbers from 0 to 255 without leading zeros, parted by dots.
#[tactic(auto, using(crate::proofs::Addresses::no_dot, crate::proofs::Addresses::one_dot, crate::proofs::Addresses::two_dots, crate::proofs::Addresses::four_dots, crate::proofs::Addresses::three_dots))]
pub fn is_plain_address(text: &[u8]) -> bool
    ensures { result ≡ is_plain_address text.now }
{
    let Some(first) = next_dot(text) else {
        return false;
    };
    let last_three = behind(text, first);
    let Some(second) = next_dot(last_three) else {
        return false;
    };
    let last_two = behind(last_three, second);
    let Some(third) = next_dot(last_two) else {
        return false;
    };
    let last = behind(last_two, third);
    match next_dot(last) {
        Some(_) => false,
        None => are_octets(
            &text[..first],
            &last_three[..second],
            &last_two[..third],
            last,
        ),
    }
}

#[tactic(auto, using(crate::proofs::Addresses::no_slash, crate::proofs::Addresses::good_front, crate::proofs::Addresses::bad_front))]
pub(crate) fn is_address(text: &[u8]) -> bool
    ensures { result ≡ is_address text.now }
{
    match next_slash(text) {
        None => is_plain_address(text),
        Some(place) => is_plain_address(&text[..place]) && is_up_to(32, behind(text, place)),
    }
}

#[tactic(auto, unfolding(crate::specs::Values::without_prefix))]
pub(crate) fn without_prefix(text: &[u8]) -> &[u8]
    ensures { result.now ≡ without_prefix text.now }
{
    match next_slash(text) {
        None => text,
        Some(place) => &text[..place],
    }
}

fn are_digits(text: &[u8]) -> bool
    ensures { result ≡ list_all is_ascii_digit text.now }
{
    text.iter().all(|byte| byte.is_ascii_digit())
}

#[tactic(auto, unfolding(crate::specs::Values::is_unsigned))]
fn is_unsigned(text: &[u8]) -> bool
    ensures { result ≡ is_unsigned text.now }
{
    !text.is_empty() && text.len() <= 18 && are_digits(text)
}

fn without_sign(text: &[u8]) -> &[u8]
    ensures { result.now ≡ without_sign text.now }
{
    match text {
        [b'-', digits @ ..] => digits,
        _ => text,
    }
}

#[tactic(auto, unfolding(crate::specs::Values::is_of_form))]
pub(crate) fn is_of_form(form: &[u8], value: &[u8]) -> bool
    ensures { result ≡ is_of_form form.now value.now }
{
    if form == b"int".as_slice() {
        is_unsigned(without_sign(value))
    } else if form == b"uint".as_slice() {
        is_unsigned(value)
    } else if form == b"boolean".as_slice() {
        value == b"true".as_slice() || value == b"false".as_slice()
    } else {
        true
    }
}
