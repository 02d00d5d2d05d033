//! The words of the command line, after the program's name.
ghost use Rattle.std.specs.Prelude.{◌≡◌, IfOk, OnErr, map, string_bytes};
ghost use Rattle.zn_base.specs.Decimals.{decimal_of};
ghost use Rattle.zn_base.specs.Names.{name_of};
ghost use Rattle.zones_run.specs.Words.{AsksForFew, Purges, bulk_for, command_for, command_named, command_of, purge_for};

use std::alloc::{AllocError, Global};
use zn_base::{NameFault, ZoneName, read_decimal};

/// What `zones` writes where its words are no form of it.
pub const USAGE_LINE: &[u8] =
    b"usage: zones export|script|trace|given|purge ZONE|index|bulk N|live\n";

/// What `zones --version` writes.
pub const VERSION: &[u8] = b"zones 0.1.0\n";

/// What `zones --help` writes.
pub const HELP: &[u8] = b"usage: zones COMMAND\n
COMMAND is one of
  export     write the export text of the zonecfg(8) subcommands on standard input
  trace      write the reply to each event of the trace on standard input
  script     the same, and give a zone's daemon its turns after each line that asks it
             for something
  purge ZONE run the trace, and write in place of replies its lines that are of this zone
             or of the whole system, each behind what the pools gave it
  given      the same as trace, for lines that state what the pools gave their events, as
             purge writes them
  bulk N     make N zones, from 1 to 256, by a script that is run as script runs its input,
             and write how many events were answered and refused, and how many zones run
             and are installed then
  live       run each session's lines on a thread of its own, with the turns that they wait
             for, and write the record: each event behind what it was given, and its reply
  index      write a line for each stored zone
  --help     write this text
  --version  write the version
\nZones are kept in the file zones.store, in the current folder.\n
The exit status is 0 where all is done, 1 where a line or the end of the input is
refused, 2 for a faulty command line, 3 for a line outside the grammar of a trace, 4
for a read fault, 5 for a write fault, 6 for a fault of the disk, 7 where zones.store
is no store, 8 for a line above 4096 bytes or more than 200000 lines (4000 of live),
and 9 where memory runs out.\n
docs/CODES.md says what each code means, and what to do about it.\n";

/// What is told of the events of a script.
#[derive(Clone, Copy, Debug, PartialEq, Eq)]
pub enum Telling {
    /// The replies.
    Replies,
    /// A byte for each event: 1 where it is refused, and else 0.
    Marks,
}

/// How the lines of an input are run, and what is told of their events.
#[derive(Drop)]
pub enum Mode {
    /// The replies.
    Replies,
    /// The replies or marks, and after a session's line that is answered by a ticket turns of the zone's daemon are put in, until
    /// the ticket is answered.
    WithTurns(Telling),
    /// The lines of the events of a zone and of the whole system, behind what they were given. Those of all other zones are
    /// left out.
    Purged(ZoneName),
    /// The replies. Each line states the grant of its event.
    Stated,
}

/// The greatest number of zones that `bulk` makes.
pub const ZONES_MAX: u64 = 256;

/// What a command does once it has opened the store on the disk.
#[derive(Drop)]
pub enum Task {
    /// It runs the lines of its input, as `trace`, `script`, `purge` and `given` do.
    Run(Mode),
    /// It writes the index of the stored zones.
    Index,
    /// It makes a script for so many zones, runs it and writes a summary.
    Bulk(u64),
}

/// The forms of the command line.
#[derive(Drop)]
pub enum Command {
    Export,
    OnStore(Task),
    Help,
    Version,
}

// The command of one word.
fn command_named(word: &str) -> Option<Command>
    ensures named { result ≡ command_named word.now }
    ensures few { AsksForFew result }
{
    match word {
        "export" => Some(Command::Export),
        "trace" => Some(Command::OnStore(Task::Run(Mode::Replies))),
        "script" => Some(Command::OnStore(Task::Run(Mode::WithTurns(Telling::Replies)))),
        "given" => Some(Command::OnStore(Task::Run(Mode::Stated))),
        "index" => Some(Command::OnStore(Task::Index)),
        "--help" => Some(Command::Help),
        "--version" => Some(Command::Version),
        _ => None,
    }
}

// The command that purges all zones but one, where the word is a zone's name.
fn purge_for(alloc: Global, word: &str) -> Result<Option<Command>, AllocError>
    ensures some { IfOk result (λ command. command ≡ purge_for (name_of word.now)) }
    ensures few { IfOk result AsksForFew }
    ensures memory { OnErr result (Purges (purge_for (name_of word.now))) }
{
    match ZoneName::read(alloc, word.as_bytes()) {
        Ok(zone) => Ok(Some(Command::OnStore(Task::Run(Mode::Purged(zone))))),
        Err(NameFault::Memory) => Err(AllocError),
        Err(_) => Ok(None),
    }
}

// The command that makes a large system, where the word is a number of zones.
fn bulk_for(word: &str) -> Option<Command>
    ensures some { result ≡ bulk_for (decimal_of 256 word.now) }
    ensures few { AsksForFew result }
{
    match read_decimal(word.as_bytes(), ZONES_MAX) {
        Some(zones) => Some(Command::OnStore(Task::Bulk(zones))),
        None => None,
    }
}

// The command of two words.
fn command_for(alloc: Global, word: &str, name: &str) -> Result<Option<Command>, AllocError>
    ensures some { IfOk result (λ command. command ≡ command_for word.now name.now) }
    ensures few { IfOk result AsksForFew }
    ensures memory { OnErr result (Purges (command_for word.now name.now)) }
{
    match word {
        "purge" => purge_for(alloc, name),
        "bulk" => Ok(bulk_for(name)),
        _ => Ok(None),
    }
}

/// The command that the words are, if they are one. It takes no memory but for the right name of a zone.
pub fn command_of(alloc: Global, words: &[String]) -> Result<Option<Command>, AllocError>
    ensures some { IfOk result (λ command. command ≡ command_of (map string_bytes words.now)) }
    ensures few { IfOk result AsksForFew }
    ensures memory { OnErr result (Purges (command_of (map string_bytes words.now))) }
{
    match words {
        [] => Ok(None),
        [word] => Ok(command_named(word.as_str())),
        [word, name] => command_for(alloc, word.as_str(), name.as_str()),
        _ => Ok(None),
    }
}
