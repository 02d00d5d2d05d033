//! The text of a grant, read.
ghost use Rattle.std.specs.Prelude.{◌≡◌, ◌≤◌, ℕ, List, IfSome, IsSomeAnd, IsTrue, Some, decimal};
ghost use Rattle.zone_pools.specs.declared.grant.Grant.{Grant};
ghost use Rattle.zn_base.specs.Cuts.{lacks};
ghost use Rattle.grant_text.specs.Text.{grant_text, greatest_number, is_grant, SplitsInto};

use crate::pools::pool_in;
use zn_base::{read_decimal, split_at_byte};
use zone_pools::Grant;

// The number whose decimal text some bytes are.
fn number_in(word: &[u8]) -> Option<u32>
    ensures some { IfSome result (λ n. (n ≤ greatest_number) × (word.now ≡ decimal n)) }
    ensures every { (n : ℕ) → n ≤ greatest_number → word.now ≡ decimal n → result ≡ Some n }
{
    if word == b"0".as_slice() {
        Some(0)
    } else {
        Some(read_decimal(word, u32::MAX as u64)? as u32)
    }
}

// The grant whose text a word is. Only a denial's text has two words.
fn grant_in(word: &[u8]) -> Option<Grant>
    requires { IsTrue (lacks 32 word.now) }
    ensures some { IfSome result (λ grant. IsTrue (is_grant grant) × (word.now ≡ grant_text grant)) }
    ensures every { (grant : Grant) → IsTrue (is_grant grant) → word.now ≡ grant_text grant → result ≡ Some grant }
{
    if word == b"@-".as_slice() {
        Some(Grant::Nothing)
    } else if word == b"@yes".as_slice() {
        Some(Grant::Yes)
    } else {
        Some(Grant::Number(number_in(word.strip_prefix(b"@")?)?))
    }
}

/// The grant with whose text and one space a line begins, and what follows the space. It takes no memory.
pub fn read_grant(line: &[u8]) -> Option<(Grant, &[u8])>
    ensures some { IfSome result (λ split. SplitsInto line.now split.0 split.1.now) }
    ensures every { (grant : Grant) (rest : List ℕ) → SplitsInto line.now grant rest → IsSomeAnd result (λ split. (split.0 ≡ grant) × (split.1.now ≡ rest)) }
{
    let (first, rest) = split_at_byte(line, b' ');
    let rest = rest?;
    if first == b"@no".as_slice() {
        let (word, rest) = split_at_byte(rest, b' ');
        Some((Grant::Denied(pool_in(word)?), rest?))
    } else {
        Some((grant_in(first)?, rest))
    }
}
