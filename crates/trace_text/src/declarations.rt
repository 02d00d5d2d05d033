//! The words of a declaration, read and printed.
ghost use Rattle.std.specs.Prelude.{◌≡◌, ◌≤◌, ◌+◌, ◌++◌, length, IfSome, OnOk, option_copied};
ghost use Rattle.std.specs.List.{list_all};
ghost use Rattle.zn_base.specs.Answers.{AnswersUnless};
ghost use Rattle.trace_text.specs.Declarations.{declaration_text, is_declaration, is_item_byte, is_item_name};
ghost use Rattle.trace_text.specs.Lines.{declaration_of, declared, item_at, with_words};

use crate::LineFault;
use crate::lines::WORDS_PLACE;
use config_verify::is_plain_address;
use datalink_table::ClaimKind;
use std::alloc::{AllocError, Global};
use zn_base::{AbsPath, Text, is_name_byte, is_path, push_both, split_at_byte};
use zone_cases::{Declaration, Event};

// The greatest length of the name of a link or of a dataset.
const NAME_MAX: usize = 63;

fn has_item_bytes(word: &[u8]) -> bool
    ensures { result ≡ list_all is_item_byte word.now }
{
    word.iter().all(|byte| is_name_byte(*byte) || *byte == b'/')
}

fn is_item_name(word: &[u8]) -> bool
    ensures { result ≡ is_item_name word.now }
{
    !word.is_empty() && word.len() <= NAME_MAX && has_item_bytes(word)
}

fn is_item(kind: ClaimKind, word: &[u8]) -> bool
    ensures { result ≡ is_declaration (Declaration.Item kind word.now) }
{
    match kind {
        ClaimKind::Address => is_plain_address(word),
        ClaimKind::Link | ClaimKind::Dataset => is_item_name(word),
    }
}

// What is declared, where no word follows it; one that does begins at a place of its line.
fn declare(
    what: Declaration,
    place: usize,
    more: Option<&[u8]>,
    started: bool,
) -> Result<Option<Event>, LineFault>
    ensures { result ≡ declared started what place (option_copied more.entry) }
{
    if more.is_some() {
        return Err(LineFault::BadWord(place));
    }
    if started {
        return Err(LineFault::SysAfterStart);
    }
    Ok(Some(Event::System(what)))
}

// An item of a kind, and no more, after a word that ends at a place of its line.
#[tactic(auto, using(crate::proofs::Items::item_is_text, crate::proofs::Words::first_word_short))]
fn read_item(
    alloc: Global,
    kind: ClaimKind,
    end: usize,
    words: Option<&[u8]>,
    started: bool,
) -> Result<Option<Event>, LineFault>
    requires place { end ≤ 4200 }
    requires words { IfSome words (λ words. length words.now ≤ 4200) }
    ensures { AnswersUnless LineFault.Memory (with_words end (item_at started (Declaration.Item kind) (end + 1)) (option_copied words.entry)) result }
{
    let Some(words) = words else {
        return Err(LineFault::BadWord(end));
    };
    let (word, more) = split_at_byte(words, b' ');
    if !is_item(kind, word) {
        return Err(LineFault::BadWord(end + 1));
    }
    let what = Declaration::Item(kind, Text::of(alloc, word)?);
    declare(what, end + 1 + word.len() + 1, more, started)
}

// The path of a device, and no more, after a word that ends at a place of its line.
fn read_device(
    alloc: Global,
    end: usize,
    words: Option<&[u8]>,
    started: bool,
) -> Result<Option<Event>, LineFault>
    requires { end ≤ 4200 }
    ensures { AnswersUnless LineFault.Memory (with_words end (item_at started Declaration.Device (end + 1)) (option_copied words.entry)) result }
{
    let Some(words) = words else {
        return Err(LineFault::BadWord(end));
    };
    let (word, more) = split_at_byte(words, b' ');
    if !is_path(word) {
        return Err(LineFault::BadWord(end + 1));
    }
    let what = Declaration::Device(AbsPath::of(alloc, word)?);
    declare(what, end + 1 + word.len() + 1, more, started)
}

/// The declaration that the words after a tag are.
#[tactic(auto, using(crate::proofs::Words::after_word_short))]
pub(crate) fn read_declaration(
    alloc: Global,
    words: &[u8],
    started: bool,
) -> Result<Option<Event>, LineFault>
    requires { length words.now + 2 ≤ 4200 }
    ensures { AnswersUnless LineFault.Memory (declaration_of started words.now) result }
{
    let (word, more) = split_at_byte(words, b' ');
    let end = WORDS_PLACE + word.len();
    if word == b"link".as_slice() {
        read_item(alloc, ClaimKind::Link, end, more, started)
    } else if word == b"address".as_slice() {
        read_item(alloc, ClaimKind::Address, end, more, started)
    } else if word == b"dataset".as_slice() {
        read_item(alloc, ClaimKind::Dataset, end, more, started)
    } else if word == b"device".as_slice() {
        read_device(alloc, end, more, started)
    } else {
        Err(LineFault::BadWord(WORDS_PLACE))
    }
}

/// What is declared, put after what is there.
pub(crate) fn push_declaration(out: &mut Vec<u8>, what: &Declaration) -> Result<(), AllocError>
    ensures { OnOk result (out.new.items ≡ out.old.items ++ declaration_text what.now) }
{
    match what {
        Declaration::Item(ClaimKind::Link, name) => push_both(out, b"link ", name.bytes()),
        Declaration::Item(ClaimKind::Address, address) => {
            push_both(out, b"address ", address.bytes())
        }
        Declaration::Item(ClaimKind::Dataset, name) => push_both(out, b"dataset ", name.bytes()),
        Declaration::Device(path) => push_both(out, b"device ", path.bytes()),
    }
}
