//! Calls, read.
ghost use Rattle.std.specs.Prelude.{◌≡◌, ◌≤◌, ◌<◌, ◌+◌, ◌^◌, ◌∷◌, IfErr, IfOk, IsTrue, length};
ghost use Rattle.std.specs.Char.{is_ascii_graphic};
ghost use Rattle.std.specs.List.{list_all};
ghost use Rattle.zn_base.specs.Answers.{AnswersUnless};
ghost use Rattle.zn_base.specs.Names.{is_letter_or_digit, is_name_byte};
ghost use Rattle.zn_base.specs.Text.{text_of};
ghost use Rattle.priv_sets.specs.Table.{number_of};
ghost use Rattle.process_calls.specs.Calls.{bare_call, call_by, call_of, cons_by, cons_read, is_call, is_fstype, is_process_name, is_special, kill_by, made, mount_by, name_in, path_in, pid_in, read_only_by, signal_in};
ghost use Rattle.process_calls.specs.Reading.{as_word, end_of};
ghost use Rattle.process_calls.specs.Words.{IsWithin, last, words_behind};

use crate::words::{Word, next_word, no_more, word_at};
use crate::{BoxedMount, Call, CallFault, MountCall};
use kernel_objects::Signal;
use priv_sets::number_of;
use std::alloc::Global;
use zn_base::{AbsPath, Text, TextFault, is_name_byte, is_path, read_decimal};

// The greatest length of a process's name.
const NAME_MAX: usize = 16;

// The greatest length of a type of file system.
const FSTYPE_MAX: usize = 15;

// The greatest length of what is mounted, as that of a text.
const SPECIAL_MAX: usize = 4200;

fn has_name_bytes(word: &[u8]) -> bool
    ensures { result ≡ list_all is_name_byte word.now }
{
    word.iter().all(|byte| is_name_byte(*byte))
}

fn is_process_name(word: &[u8]) -> bool
    ensures { result ≡ is_process_name word.now }
{
    !word.is_empty() && word.len() <= NAME_MAX && has_name_bytes(word)
}

fn is_alphanumeric(word: &[u8]) -> bool
    ensures { result ≡ list_all is_letter_or_digit word.now }
{
    word.iter().all(|byte| byte.is_ascii_alphanumeric())
}

fn is_fstype(word: &[u8]) -> bool
    ensures { result ≡ is_fstype word.now }
{
    !word.is_empty() && word.len() <= FSTYPE_MAX && is_alphanumeric(word)
}

fn is_graphic(word: &[u8]) -> bool
    ensures { result ≡ list_all is_ascii_graphic word.now }
{
    word.iter().all(|byte| byte.is_ascii_graphic())
}

fn is_special(fstype: &[u8], word: &[u8]) -> bool
    ensures { result ≡ is_special fstype.now word.now }
{
    !word.is_empty()
        && word.len() <= SPECIAL_MAX
        && is_graphic(word)
        && (fstype != b"lofs".as_slice() || is_path(word))
}

/// The signal that a word of kill(1) names by its number: 0, 9 or 15.
pub fn signal_in(word: &[u8]) -> Option<Signal>
    ensures { result ≡ signal_in word.now }
{
    match word {
        b"0" => Some(Signal::Zero),
        b"9" => Some(Signal::Kill),
        b"15" => Some(Signal::Term),
        _ => None,
    }
}

/// The number of a process that a word of kill(1) is, at most 4,294,967,295.
#[tactic(auto, using(crate::proofs::Numbers::fits))]
pub fn pid_in(word: &[u8]) -> Option<u32>
    ensures { result ≡ pid_in word.now }
{
    match word {
        b"0" => Some(0),
        _ => Some(read_decimal(word, u32::MAX as u64)? as u32),
    }
}

fn bare_call(word: &[u8]) -> Option<Call>
    ensures { result ≡ bare_call word.now }
{
    if word == b"exit".as_slice() {
        Some(Call::Exit)
    } else if word == b"ps".as_slice() {
        Some(Call::Ps)
    } else if word == b"privs".as_slice() {
        Some(Call::Privs)
    } else if word == b"mounts".as_slice() {
        Some(Call::Mounts)
    } else if word == b"links".as_slice() {
        Some(Call::Links)
    } else if word == b"datasets".as_slice() {
        Some(Call::Datasets)
    } else if word == b"devices".as_slice() {
        Some(Call::Devices)
    } else if word == b"zonename".as_slice() {
        Some(Call::Zonename)
    } else if word == b"bootargs".as_slice() {
        Some(Call::Bootargs)
    } else if word == b"true".as_slice() {
        Some(Call::True)
    } else if word == b"false".as_slice() {
        Some(Call::False)
    } else {
        None
    }
}

// A name, and no more.
#[tactic(auto, using(crate::proofs::Named::name_is_text))]
fn read_name(alloc: Global, text: &[u8], behind: usize) -> Result<Text, CallFault>
    requires { behind ≤ length text.now }
    ensures { AnswersUnless CallFault.Memory (last name_in (length text.now) (words_behind text.now behind)) result }
{
    let word = next_word(text, behind)?;
    if !is_process_name(word.bytes) {
        return Err(CallFault::BadWord(word.place));
    }
    no_more(text, word.end())?;
    Ok(Text::of(alloc, word.bytes)?)
}

fn read_fork(alloc: Global, text: &[u8], behind: usize) -> Result<Call, CallFault>
    requires { behind ≤ length text.now }
    ensures { AnswersUnless CallFault.Memory (made name_in Call.Fork (length text.now) (words_behind text.now behind)) result }
{
    Ok(Call::Fork(read_name(alloc, text, behind)?))
}

fn read_exec(alloc: Global, text: &[u8], behind: usize) -> Result<Call, CallFault>
    requires { behind ≤ length text.now }
    ensures { AnswersUnless CallFault.Memory (made name_in Call.Exec (length text.now) (words_behind text.now behind)) result }
{
    Ok(Call::Exec(read_name(alloc, text, behind)?))
}

fn read_kill(text: &[u8], behind: usize) -> Result<Call, CallFault>
    requires { behind ≤ length text.now }
    ensures { result ≡ kill_by (length text.now) (words_behind text.now behind) }
{
    let word = next_word(text, behind)?;
    let Some(signal) = signal_in(word.bytes) else {
        return Err(CallFault::BadWord(word.place));
    };
    let word = next_word(text, word.end())?;
    let Some(pid) = pid_in(word.bytes) else {
        return Err(CallFault::BadWord(word.place));
    };
    no_more(text, word.end())?;
    Ok(Call::Kill(signal, pid))
}

fn read_drop(text: &[u8], behind: usize) -> Result<Call, CallFault>
    requires { behind ≤ length text.now }
    ensures { result ≡ made number_of Call.Drop (length text.now) (words_behind text.now behind) }
{
    let word = next_word(text, behind)?;
    let Some(number) = number_of(word.bytes) else {
        return Err(CallFault::BadWord(word.place));
    };
    no_more(text, word.end())?;
    Ok(Call::Drop(number))
}

// `ro` and no more, or nothing.
fn read_only(text: &[u8], behind: usize) -> Result<bool, CallFault>
    requires { behind ≤ length text.now }
    ensures { result ≡ read_only_by (length text.now) (words_behind text.now behind) }
{
    let Ok(word) = next_word(text, behind) else {
        return Ok(false);
    };
    if word.bytes != b"ro".as_slice() {
        return Err(CallFault::BadWord(word.place));
    }
    no_more(text, word.end())?;
    Ok(true)
}

#[tactic(auto, using(crate::proofs::Named::fstype_is_text, crate::proofs::Named::special_is_text))]
fn read_mount(alloc: Global, text: &[u8], behind: usize) -> Result<Call, CallFault>
    requires { behind ≤ length text.now }
    ensures { AnswersUnless CallFault.Memory (mount_by (length text.now) (words_behind text.now behind)) result }
{
    let fstype = next_word(text, behind)?;
    if !is_fstype(fstype.bytes) {
        return Err(CallFault::BadWord(fstype.place));
    }
    let special = next_word(text, fstype.end())?;
    if !is_special(fstype.bytes, special.bytes) {
        return Err(CallFault::BadWord(special.place));
    }
    let dir = next_word(text, special.end())?;
    if !is_path(dir.bytes) {
        return Err(CallFault::BadWord(dir.place));
    }
    let read_only = read_only(text, dir.end())?;
    let mount = MountCall {
        fstype: Text::of(alloc, fstype.bytes)?,
        special: Text::of(alloc, special.bytes)?,
        dir: AbsPath::of(alloc, dir.bytes)?,
        read_only,
    };
    Ok(Call::Mount(BoxedMount::new(alloc, mount)?))
}

// A path, and no more.
fn read_path(alloc: Global, text: &[u8], behind: usize) -> Result<AbsPath, CallFault>
    requires { behind ≤ length text.now }
    ensures { AnswersUnless CallFault.Memory (last path_in (length text.now) (words_behind text.now behind)) result }
{
    let word = next_word(text, behind)?;
    if !is_path(word.bytes) {
        return Err(CallFault::BadWord(word.place));
    }
    no_more(text, word.end())?;
    Ok(AbsPath::of(alloc, word.bytes)?)
}

// A line for the console, which stands at a place.
fn read_line(alloc: Global, line: &[u8], place: usize) -> Result<Call, CallFault>
    requires { place + length line.now < 2 ^ 64 }
    ensures { AnswersUnless CallFault.Memory (cons_read place (text_of line.now)) result }
{
    match Text::read(alloc, line) {
        Ok(line) => Ok(Call::Cons(line)),
        Err(TextFault::Memory) => Err(CallFault::Memory),
        Err(TextFault::BadText(at)) => Err(CallFault::BadWord(place + at)),
        Err(TextFault::TextLong) => Err(CallFault::BadWord(place)),
    }
}

// A line for the console: the rest of the text behind one space.
fn read_cons(alloc: Global, text: &[u8], behind: usize) -> Result<Call, CallFault>
    requires { behind ≤ length text.now }
    ensures { AnswersUnless CallFault.Memory (cons_by (length text.now) (words_behind text.now behind)) result }
{
    if behind == text.len() {
        return Err(CallFault::BadWord(behind));
    }
    let place = behind + 1;
    read_line(alloc, &text[place..], place)
}

// A call of one word, and no more.
fn read_bare(text: &[u8], word: Word<'_>) -> Result<Call, CallFault>
    requires { end_of word ≤ length text.now }
    ensures { result ≡ last bare_call (length text.now) (as_word word.entry ∷ words_behind text.now (end_of word.entry)) }
{
    let Some(call) = bare_call(word.bytes) else {
        return Err(CallFault::BadWord(word.place));
    };
    no_more(text, word.end())?;
    Ok(call)
}

// The call of a first word.
fn read_by(alloc: Global, text: &[u8], word: Word<'_>) -> Result<Call, CallFault>
    requires { end_of word ≤ length text.now }
    ensures { AnswersUnless CallFault.Memory (call_by (length text.now) (as_word word.entry) (words_behind text.now (end_of word.entry))) result }
{
    if word.bytes == b"fork".as_slice() {
        read_fork(alloc, text, word.end())
    } else if word.bytes == b"exec".as_slice() {
        read_exec(alloc, text, word.end())
    } else if word.bytes == b"kill".as_slice() {
        read_kill(text, word.end())
    } else if word.bytes == b"drop".as_slice() {
        read_drop(text, word.end())
    } else if word.bytes == b"mount".as_slice() {
        read_mount(alloc, text, word.end())
    } else if word.bytes == b"umount".as_slice() {
        Ok(Call::Umount(read_path(alloc, text, word.end())?))
    } else if word.bytes == b"read".as_slice() {
        Ok(Call::Read(read_path(alloc, text, word.end())?))
    } else if word.bytes == b"write".as_slice() {
        Ok(Call::Write(read_path(alloc, text, word.end())?))
    } else if word.bytes == b"cons".as_slice() {
        read_cons(alloc, text, word.end())
    } else {
        read_bare(text, word)
    }
}

/// The call that a text spells: `fork NAME`, `exec NAME`, `exit`, `kill SIG PID`, `ps`, `privs`, `drop PRIV`,
/// `mount TYPE SPECIAL DIR`, `mount TYPE SPECIAL DIR ro`, `umount DIR`, `read PATH`, `write PATH`, `mounts`, `links`,
/// `datasets`, `devices`, `zonename`, `bootargs`, `cons TEXT`, `true` or `false`, with one space between two words. NAME
/// is 1 to 16 letters, digits, `_`, `-` and `.`, SIG is 0, 9 or 15, PID a decimal number without leading zeros of at most
/// 4,294,967,295, and PRIV a name of privileges(7). TYPE is 1 to 15 letters and digits, DIR and PATH are absolute paths as
/// `AbsPath` has them, and SPECIAL is such a path where TYPE is `lofs`, else 1 to 4,200 printable bytes other than space.
/// TEXT is the rest, of printable bytes, which may be none. Where the text spells no call, the place of its first wrong or
/// missing word is answered; a word too many is a wrong one, and so is an empty one.
pub fn read_call(alloc: Global, text: &[u8]) -> Result<Call, CallFault>
    ensures call { AnswersUnless CallFault.Memory (call_of text.now) result }
    ensures right { IfOk result (λ call. IsTrue (is_call call)) }
    ensures place { IfErr result (IsWithin (length text.now)) }
{
    read_by(alloc, text, word_at(text, 0))
}
