//! The reader.
ghost use Rattle.std.specs.Prelude.{◌≡◌, ◌≤◌, ◌<◌, ◌+◌, IfErr, IfOk, None, OnErr, Some, Ok, length, nat_eq, option_and_then, option_map, take, true, if◌then◌else◌};
ghost use Rattle.std.specs.Bool.{Decides};
ghost use Rattle.std.specs.List.{starts_with};
ghost use Rattle.std.specs.Str.{bytes_eq};
ghost use Rattle.zn_base.specs.Answers.{AnswersUnless};
ghost use Rattle.config_terms.specs.declared.fault.ConfigFault.TheVariants.{Memory};
ghost use Rattle.zn_base.specs.Lines.{lines_of};
ghost use Rattle.export_read.specs.Lines.{ended};
ghost use Rattle.export_read.specs.Reading.{command_of};
ghost use Rattle.zone_config.specs.Export.{export_text};
ghost use Rattle.zone_config.specs.Sound.{IsSound};
ghost use Rattle.zone_config.specs.declared.terms.Contents.{Contents};
ghost use Rattle.export_read.specs.Begun.{BeginsSome, IsAstray, IsFaultOf, IsFront};
ghost use Rattle.export_read.specs.Drafts.{completed, config_of, drafted, if_printed, is_begun, is_printed, put, start};
ghost use Rattle.export_read.specs.Halts.{Puts};

use crate::complete::completed;
use crate::draft::{Draft, with_property};
use crate::halt::Halt;
use crate::lines::{behind_line, count, first_line, front};
use crate::reading::command_of;
use config_terms::ConfigFault;
use std::alloc::{AllocError, Global};
use zn_base::Text;
use zone_config::{ZoneConfig, blank, export};

// Before the first line.
#[tactic(auto, using(crate::proofs::ReadBack::least_set))]
fn start(alloc: Global) -> Result<Draft, Halt>
    ensures { Puts (Some start) result }
{
    let flag = Text::of(alloc, b"true")?;
    let config = with_property(alloc, blank(alloc), b"autoboot", flag)?;
    Ok(Draft {
        config,
        resource: None,
    })
}

fn put_line(alloc: Global, draft: Draft, line: &[u8]) -> Result<Draft, Halt>
    ensures { Puts (option_and_then (λ x. put x draft) (command_of line.now)) result }
{
    match command_of(alloc, line)? {
        Some(command) => draft.put(alloc, command),
        None => Err(Halt::Refused),
    }
}

// What all lines make.
#[tactic(auto, using(crate::proofs::Steps::line_put, crate::proofs::Steps::lines_end, crate::proofs::Steps::behind_less))]
fn drafted(alloc: Global, text: &[u8]) -> Result<Draft, Halt>
    ensures { Puts (drafted (lines_of text.now) start) result }
{
    let mut draft = start(alloc)?;
    let mut rest = text;
    while !rest.is_empty() {
        draft = put_line(alloc, draft, first_line(rest))?;
        rest = behind_line(rest);
    }
    Ok(draft)
}

// The shortest configuration whose text the lines begin.
fn shortest(alloc: Global, lines: &[u8]) -> Result<ZoneConfig, Halt>
    ensures { Puts (option_and_then completed (drafted (lines_of lines.now) start)) result }
{
    let draft = drafted(alloc, lines)?;
    completed(alloc, draft)
}

// Whether a configuration's text begins with some bytes.
#[tactic(auto, using(crate::proofs::ReadBack::front_of))]
fn is_front(alloc: Global, config: &ZoneConfig, bytes: &[u8]) -> Result<bool, AllocError>
    ensures same { IfOk result (λ is. is ≡ starts_with nat_eq (export_text config.now) bytes.now) }
    ensures front { IfOk result (λ is. is ≡ true → IsFront bytes.now) }
{
    let contents = config.contents();
    match export(alloc, config) {
        Ok(text) => Ok(text.starts_with(bytes)),
        Err(_) => Err(AllocError),
    }
}

#[tactic(auto, unfolding(crate::specs::Drafts::is_begun))]
fn is_begun(alloc: Global, lines: &[u8]) -> Result<bool, AllocError>
    ensures same { IfOk result (λ is. is ≡ is_begun lines.now) }
    ensures front { IfOk result (λ is. is ≡ true → IsFront lines.now) }
{
    match shortest(alloc, lines) {
        Ok(config) => is_front(alloc, &config, lines),
        Err(Halt::Refused) => Ok(false),
        Err(Halt::Memory) => Err(AllocError),
    }
}

// Whether the first lines of a text begin some export text.
#[tactic(auto, using(crate::proofs::Whole::begun_front, crate::proofs::Whole::begun_again))]
fn begins(alloc: Global, text: &[u8], lines: usize) -> Result<bool, AllocError>
    requires { lines ≤ length (lines_of text.now) }
    ensures { IfOk result (λ is. Decides is (BeginsSome text.now lines)) }
{
    let front = front(alloc, text, lines)?;
    is_begun(alloc, &front)
}

// One more than the greatest number of leading lines that begin some export text, by halving.
#[tactic(auto, using(crate::proofs::ReadBack::search_from, crate::proofs::ReadBack::search_up, crate::proofs::ReadBack::search_down, crate::proofs::ReadBack::search_end))]
fn first_astray(alloc: Global, text: &[u8]) -> Result<usize, AllocError>
    ensures { IfOk result (λ line. IsAstray text.now line) }
{
    let mut begun = 0;
    let mut astray = count(text) + 1;
    while begun + 1 < astray {
        let middle = begun + (astray - begun) / 2;
        if begins(alloc, text, middle)? {
            begun = middle;
        } else {
            astray = middle;
        }
    }
    Ok(astray)
}

fn is_text(alloc: Global, config: &ZoneConfig, text: &[u8]) -> Result<bool, AllocError>
    ensures { IfOk result (λ is. is ≡ bytes_eq (export_text config.now) text.now) }
{
    match export(alloc, config) {
        Ok(own) => Ok(own.as_slice() == text),
        Err(_) => Err(AllocError),
    }
}

// Whether a configuration's text is this one, and no resource is open.
fn is_printed(alloc: Global, draft: &Draft, text: &[u8]) -> Result<bool, AllocError>
    ensures { IfOk result (λ is. is ≡ is_printed text.now draft.now.resource draft.now.config) }
{
    match draft.resource {
        None => is_text(alloc, &draft.config, text),
        Some(_) => Ok(false),
    }
}

// The configuration of a draft, where it is wanted.
fn config_if(wanted: bool, draft: Draft) -> Option<ZoneConfig>
    ensures { result ≡ (if wanted then Some draft.config else None) }
{
    if wanted { Some(draft.config) } else { None }
}

fn if_printed(alloc: Global, draft: Draft, text: &[u8]) -> Result<Option<ZoneConfig>, AllocError>
    ensures { IfOk result (λ config. config ≡ if_printed text.now draft.resource draft.config) }
{
    let printed = is_printed(alloc, &draft, text)?;
    Ok(config_if(printed, draft))
}

// The configuration whose text this is, if there is one.
#[tactic(auto, unfolding(crate::specs::Drafts::config_of))]
fn config_of(alloc: Global, text: &[u8]) -> Result<Option<ZoneConfig>, AllocError>
    ensures { IfOk result (λ config. config ≡ config_of text.now) }
{
    match drafted(alloc, text) {
        Ok(draft) => if_printed(alloc, draft, text),
        Err(Halt::Refused) => Ok(None),
        Err(Halt::Memory) => Err(AllocError),
    }
}

/// The configuration whose export text (zonecfg(8), export) the bytes are. It is Ok exactly for an export
/// text, and then its own configuration. Any other text is 21 with a line: one more than the greatest
/// number of leading lines that begin some export text, where a last line without its newline is one of
/// them if it is right. An export text is read in time linear in its length; the line of any other is
/// found in a logarithm of its lines as many such readings.
#[tactic(auto, using(crate::proofs::Whole::read_exactly, crate::proofs::ReadBack::reads_every, crate::proofs::ReadBack::not_read))]
pub fn read_export(alloc: Global, text: &[u8]) -> Result<ZoneConfig, ConfigFault>
    ensures reads { IfOk result (λ config. text.now ≡ export_text config) }
    ensures every { (c : Contents) → IsSound c → text.now ≡ export_text c → AnswersUnless ConfigFault.Memory (Ok c) result }
    ensures line { IfErr result (IsFaultOf text.now) }
{
    match config_of(alloc, text)? {
        Some(config) => Ok(config),
        None => Err(ConfigFault::NotExport(first_astray(alloc, text)?)),
    }
}
