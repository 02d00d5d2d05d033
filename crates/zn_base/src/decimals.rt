//! Decimal numbers, read.
ghost use Rattle.std.specs.Prelude.{◌≡◌, ◌+◌, ◌-◌, ◌*◌, ◌^◌, ◌<◌, IsTrue, SomeIff};
ghost use Rattle.std.specs.Char.{is_ascii_digit};
ghost use Rattle.std.specs.List.{list_all};
ghost use Rattle.zn_base.specs.Decimals.{decimal_of, digits_value, has_no_leading_zero, is_spelled};

fn has_no_leading_zero(text: &[u8]) -> bool
    ensures { result ≡ has_no_leading_zero text.now }
{
    match text {
        [] => false,
        [byte, ..] => *byte != b'0',
    }
}

fn all_digits(text: &[u8]) -> bool
    ensures { result ≡ list_all is_ascii_digit text.now }
{
    text.iter().all(|byte| byte.is_ascii_digit())
}

fn is_spelled(text: &[u8]) -> bool
    ensures { result ≡ is_spelled text.now }
{
    has_no_leading_zero(text) && all_digits(text)
}

// A number with one more digit after it, where it fits.
fn with_digit(number: u64, digit: u8) -> Option<u64>
    ensures { SomeIff result (10 * number + digit < 2 ^ 64) (10 * number + digit) }
{
    number.checked_mul(10)?.checked_add(digit as u64)
}

// What digits say, where it fits.
fn digits_value(text: &[u8]) -> Option<u64>
    ensures { SomeIff result (digits_value 0 text.now < 2 ^ 64) (digits_value 0 text.now) }
{
    let mut number: u64 = 0;
    for byte in text {
        number = with_digit(number, byte.saturating_sub(b'0'))?;
    }
    Some(number)
}

/// The number from 1 to the greatest one that a text is, in decimal and without leading zero. It takes no
/// memory.
#[tactic(auto, using(crate::proofs::Digits::decimal_is, crate::proofs::Digits::no_decimal, crate::proofs::Digits::not_spelled))]
pub fn read_decimal(text: &[u8], most: u64) -> Option<u64>
    ensures { result ≡ decimal_of most text.now }
{
    if !is_spelled(text) {
        return None;
    }
    match digits_value(text) {
        Some(number) if number <= most => Some(number),
        _ => None,
    }
}
