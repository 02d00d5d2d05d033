//! What a value may be.
ghost use Rattle.std.specs.Prelude.{◌≡◌, ◌∷◌, []};
ghost use Rattle.std.specs.List.{list_all};
ghost use Rattle.zn_base.specs.Names.{is_name_byte};
ghost use Rattle.config_terms.specs.Rules.{is_alphanumeric, is_option_byte, is_simple_byte, is_hex_byte, begins_in, obeys, fits};

use zn_base::{is_name_byte, is_path, is_text_byte, read_decimal};

/// What a value of a property may be (zonecfg(8), PROPERTIES). An empty value is a value of no property:
/// where the rule takes it, setting it unsets the property.
#[derive(Clone, Copy)]
pub enum Rule {
    /// An absolute path.
    RootedPath,
    /// An absolute path other than `/`.
    OwnPath,
    /// `true` or `false`.
    Flag,
    /// 1 to 32 letters, digits, `_`, `-` and `.`, or nothing.
    ShortName,
    /// At most 1,023 printable bytes other than `"`.
    Simple,
    /// `shared` or `exclusive`.
    IpWay,
    /// 1 to 8 digits of `0` to `9` and `a` to `f`, but not `ffffffff`, or nothing.
    HostId,
    /// A decimal number from 1 to 18446744073709551615, without leading zero.
    Number,
    /// 1 to 15 letters and digits.
    TypeWord,
    /// 1 to 63 letters, digits, `_`, `-`, `.` and `/`.
    OptionWord,
    /// 1 to 63 letters, digits, `_`, `-` and `.`.
    ControlName,
    /// The same, beginning with a letter or a digit and not with `zone`.
    AttributeName,
    /// `int`, `uint`, `boolean` or `string`.
    AttributeForm,
}

/// Whether a byte is a letter or a digit.
pub fn is_alphanumeric(byte: u8) -> bool
    ensures { result ≡ is_alphanumeric byte }
{
    byte.is_ascii_alphanumeric()
}

fn is_option_byte(byte: u8) -> bool
    ensures { result ≡ is_option_byte byte }
{
    is_name_byte(byte) || byte == b'/'
}

fn is_simple_byte(byte: u8) -> bool
    ensures { result ≡ is_simple_byte byte }
{
    is_text_byte(byte) && byte != b'"'
}

fn is_hex_byte(byte: u8) -> bool
    ensures { result ≡ is_hex_byte byte }
{
    byte.is_ascii_digit() || (b'a'..=b'f').contains(&byte)
}

fn all_alphanumeric(value: &[u8]) -> bool
    ensures { result ≡ list_all is_alphanumeric value.now }
{
    value.iter().all(|byte| is_alphanumeric(*byte))
}

fn all_name_bytes(value: &[u8]) -> bool
    ensures { result ≡ list_all is_name_byte value.now }
{
    value.iter().all(|byte| is_name_byte(*byte))
}

fn all_option_bytes(value: &[u8]) -> bool
    ensures { result ≡ list_all is_option_byte value.now }
{
    value.iter().all(|byte| is_option_byte(*byte))
}

fn all_simple_bytes(value: &[u8]) -> bool
    ensures { result ≡ list_all is_simple_byte value.now }
{
    value.iter().all(|byte| is_simple_byte(*byte))
}

fn all_hex_bytes(value: &[u8]) -> bool
    ensures { result ≡ list_all is_hex_byte value.now }
{
    value.iter().all(|byte| is_hex_byte(*byte))
}

fn begins_alphanumeric(value: &[u8]) -> bool
    ensures { result ≡ begins_in is_alphanumeric value.now }
{
    match value {
        [] => false,
        [byte, ..] => is_alphanumeric(*byte),
    }
}

#[tactic(auto, unfolding(crate::specs::Rules::obeys))]
fn is_attribute_name(value: &[u8]) -> bool
    ensures { result ≡ obeys Rule.AttributeName value.now }
{
    1 <= value.len()
        && value.len() <= 63
        && all_name_bytes(value)
        && begins_alphanumeric(value)
        && !value.starts_with(b"zone")
}

#[tactic(auto, unfolding(crate::specs::Rules::obeys))]
fn is_flag(value: &[u8]) -> bool
    ensures { result ≡ obeys Rule.Flag value.now }
{
    value == b"true".as_slice() || value == b"false".as_slice()
}

#[tactic(auto, unfolding(crate::specs::Rules::obeys))]
fn is_ip_way(value: &[u8]) -> bool
    ensures { result ≡ obeys Rule.IpWay value.now }
{
    value == b"shared".as_slice() || value == b"exclusive".as_slice()
}

#[tactic(auto, unfolding(crate::specs::Rules::obeys))]
fn is_host_id(value: &[u8]) -> bool
    ensures { result ≡ obeys Rule.HostId value.now }
{
    value.len() <= 8 && all_hex_bytes(value) && value != b"ffffffff".as_slice()
}

#[tactic(auto, unfolding(crate::specs::Rules::obeys))]
fn is_attribute_form(value: &[u8]) -> bool
    ensures { result ≡ obeys Rule.AttributeForm value.now }
{
    value == b"int".as_slice()
        || value == b"uint".as_slice()
        || value == b"boolean".as_slice()
        || value == b"string".as_slice()
}

impl Rule {
    /// Whether the rule allows a value. It takes no memory.
    #[tactic(auto, unfolding(crate::specs::Rules::obeys))]
    pub fn allows(self, value: &[u8]) -> bool
        ensures { result ≡ obeys self value.now }
    {
        match self {
            Rule::RootedPath => is_path(value),
            Rule::OwnPath => is_path(value) && value != b"/".as_slice(),
            Rule::Flag => is_flag(value),
            Rule::ShortName => value.len() <= 32 && all_name_bytes(value),
            Rule::Simple => value.len() <= 1023 && all_simple_bytes(value),
            Rule::IpWay => is_ip_way(value),
            Rule::HostId => is_host_id(value),
            Rule::Number => read_decimal(value, u64::MAX).is_some(),
            Rule::TypeWord => 1 <= value.len() && value.len() <= 15 && all_alphanumeric(value),
            Rule::OptionWord => 1 <= value.len() && value.len() <= 63 && all_option_bytes(value),
            Rule::ControlName => 1 <= value.len() && value.len() <= 63 && all_name_bytes(value),
            Rule::AttributeName => is_attribute_name(value),
            Rule::AttributeForm => is_attribute_form(value),
        }
    }

    /// Whether a property may stand so: unset, or with a value that the rule allows.
    #[tactic(auto, unfolding(crate::specs::Rules::fits))]
    pub fn fits(self, value: &[u8]) -> bool
        ensures { result ≡ fits self value.now }
    {
        value.is_empty() || self.allows(value)
    }
}
