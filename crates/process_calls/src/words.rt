//! The words of a text, one after another.
ghost use Rattle.std.specs.Prelude.{◌≡◌, ◌≤◌, ◌+◌, ◌<◌, ◌^◌, length};
ghost use Rattle.process_calls.specs.Reading.{Comes, Leads};
ghost use Rattle.process_calls.specs.Words.{no_more, words_behind, words_from};

use crate::CallFault;
use zn_base::split_at_byte;

/// A word, and the place at which it begins.
#[derive(Clone, Copy)]
pub(crate) struct Word<'t> {
    pub(crate) place: usize,
    pub(crate) bytes: &'t [u8],
}

impl Word<'_> {
    // The place behind the word.
    pub(crate) fn end(&self) -> usize
        requires { self.now.place + length self.now.bytes.now < 2 ^ 64 }
        ensures { result ≡ self.now.place + length self.now.bytes.now }
    {
        self.place + self.bytes.len()
    }
}

/// The word that begins at a place.
pub(crate) fn word_at(text: &[u8], place: usize) -> Word<'_>
    requires { place ≤ length text.now }
    ensures { Leads text.now (words_from text.now place) result }
{
    let (bytes, _) = split_at_byte(&text[place..], b' ');
    Word { place, bytes }
}

/// The word after those that end at a place.
pub(crate) fn next_word(text: &[u8], behind: usize) -> Result<Word<'_>, CallFault>
    requires { behind ≤ length text.now }
    ensures { Comes text.now (words_behind text.now behind) result }
{
    if behind == text.len() {
        return Err(CallFault::BadWord(behind));
    }
    Ok(word_at(text, behind + 1))
}

/// Whether no word comes after those that end at a place, else the place of the next.
pub(crate) fn no_more(text: &[u8], behind: usize) -> Result<(), CallFault>
    requires { behind ≤ length text.now }
    ensures { result ≡ no_more tt (words_behind text.now behind) }
{
    match next_word(text, behind) {
        Ok(word) => Err(CallFault::BadWord(word.place)),
        Err(_) => Ok(()),
    }
}
