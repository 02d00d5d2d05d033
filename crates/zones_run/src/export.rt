//! The command `export`: all lines of the input, one at a time, and then its end.
ghost use Rattle.std.specs.Prelude.{◌≡◌, ◌≤◌, IfOk, IsErrOf, IfSome};
ghost use Rattle.zn_io.specs.Streams.{Rose};
ghost use Rattle.zonecfg_scopes.specs.Open.{Nothing};
ghost use Rattle.zones_run.specs.Complaints.{IsOfInput};
ghost use Rattle.zones_run.specs.Outcomes.{IsOfInputAlone, ended_by, outcome_of};
ghost use Rattle.zones_run.specs.Exporting.{ended, exported};
ghost use Rattle.zones_run.specs.Obeyed.{ObeysLines, ObeysRead};
ghost use Rattle.zones_run.specs.Subcommands.{known_brands};

use crate::edit::{edit, known_brands, obey};
use crate::limits::LINES_MAX;
use crate::outcome::{Complaint, Outcome};
use crate::refusal::Refusal;
use input_lines::{Ahead, Got, ReadFault, next_line};
use std::alloc::Global;
use zn_base::{NameFault, Text, ZoneName};
use zn_io::Source;
use zone_config::export;
use zonecfg_scopes::{Command, EditFault, Editor};

// What the end of the input comes to. It is refused where `verify` would be there.
#[tactic(auto, using(crate::proofs::Ending::end_refused, crate::proofs::Ending::end_written, crate::proofs::Ending::end_open))]
fn end_of(alloc: Global, editor: &mut Editor, brands: &[Text]) -> Result<Outcome, ReadFault>
    requires { brands.now ≡ known_brands }
    ensures end { IfOk result (λ outcome. outcome_of outcome ≡ ended editor.old.opened) }
    ensures kind { IfOk result IsOfInputAlone }
    ensures memory { IsErrOf result ReadFault.Failed → ⊥ }
{
    match obey(alloc, editor, brands, Command::Verify) {
        Ok(()) => {}
        Err(Refusal::Memory) => return Err(ReadFault::Memory),
        Err(refusal) => return Ok(Outcome::Complains(Complaint::End(refusal))),
    }
    let Some(config) = editor.config() else {
        unreachable!();
    };
    match export(alloc, config) {
        Ok(text) => Ok(Outcome::Text(text)),
        Err(_) => Err(ReadFault::Memory),
    }
}

// Obeys all lines, one at a time, up to the first that is refused or past a limit, which is then reported.
fn edit_lines<S: Source>(
    alloc: Global,
    editor: &mut Editor,
    brands: &[Text],
    source: &mut S,
) -> Result<Option<Complaint>, ReadFault>
    requires brands { brands.now ≡ known_brands }
    requires nothing { editor.old.opened ≡ Nothing }
    ensures whole { IfOk result (λ complaint. IfSome (S.left source.old) (λ bytes. ended_by complaint editor.new.opened ≡ exported bytes)) }
    ensures kind { IfOk result (λ complaint. IfSome complaint IsOfInput) }
    ensures taken { IfSome (S.left source.old) (λ _. ObeysLines (S.left source.old) (S.left source.new)) }
    ensures failed { IsErrOf result ReadFault.Failed → Rose (S.faults source.old) (S.faults source.new) }
    ensures read { IsErrOf result ReadFault.Failed → IfSome (S.left source.old) (λ _. ObeysRead (S.left source.old) (S.left source.new)) }
    ensures later { S.faults source.old ≤ S.faults source.new }
{
    let mut ahead = Ahead::new();
    let mut line = Vec::new(alloc);
    let mut tokens = Vec::new(alloc);
    for before in 0..LINES_MAX {
        match next_line(&mut ahead, source, &mut line)? {
            Got::End => return Ok(None),
            Got::TooLong => return Ok(Some(Complaint::Limit(before + 1))),
            Got::Line => {}
        }
        match edit(alloc, editor, brands, tokens, &line) {
            Ok(buffer) => tokens = buffer,
            Err(Refusal::Memory) => return Err(ReadFault::Memory),
            Err(refusal) => return Ok(Some(Complaint::Line(before + 1, refusal))),
        }
    }
    if ahead.refill(source)? {
        return Ok(Some(Complaint::Limit(LINES_MAX + 1)));
    }
    Ok(None)
}

// An editor with nothing open. No subcommand that `export` takes shows the zone's name.
fn new_editor(alloc: Global) -> Result<Editor, ReadFault>
    ensures nothing { IfOk result (λ editor. editor.opened ≡ Nothing) }
    ensures memory { IsErrOf result ReadFault.Failed → ⊥ }
{
    let name = match ZoneName::read(alloc, b"zone") {
        Ok(name) => name,
        Err(NameFault::Memory) => return Err(ReadFault::Memory),
        Err(_) => unreachable!(),
    };
    match Editor::open(alloc, name, None) {
        Ok(editor) => Ok(editor),
        Err(_) => Err(ReadFault::Memory),
    }
}

// Obeys all lines, and exports what is open at their end.
fn edit_all<S: Source>(
    alloc: Global,
    editor: &mut Editor,
    brands: &[Text],
    source: &mut S,
) -> Result<Outcome, ReadFault>
    requires brands { brands.now ≡ known_brands }
    requires nothing { editor.old.opened ≡ Nothing }
    ensures whole { IfOk result (λ outcome. IfSome (S.left source.old) (λ bytes. outcome_of outcome ≡ exported bytes)) }
    ensures kind { IfOk result IsOfInputAlone }
    ensures taken { IfSome (S.left source.old) (λ _. ObeysLines (S.left source.old) (S.left source.new)) }
    ensures failed { IsErrOf result ReadFault.Failed → Rose (S.faults source.old) (S.faults source.new) }
    ensures read { IsErrOf result ReadFault.Failed → IfSome (S.left source.old) (λ _. ObeysRead (S.left source.old) (S.left source.new)) }
    ensures later { S.faults source.old ≤ S.faults source.new }
{
    match edit_lines(alloc, editor, brands, source)? {
        Some(complaint) => Ok(Outcome::Complains(complaint)),
        None => end_of(alloc, editor, brands),
    }
}

/// Reads all lines, one at a time, up to the first that is refused or past a limit, and exports what is
/// open at their end.
#[tactic(auto, using(crate::proofs::ExportRuns::obeys_nothing))]
pub fn export_all<S: Source>(alloc: Global, source: &mut S) -> Result<Outcome, ReadFault>
    ensures whole { IfOk result (λ outcome. IfSome (S.left source.old) (λ bytes. outcome_of outcome ≡ exported bytes)) }
    ensures kind { IfOk result IsOfInputAlone }
    ensures taken { IfSome (S.left source.old) (λ _. ObeysLines (S.left source.old) (S.left source.new)) }
    ensures failed { IsErrOf result ReadFault.Failed → Rose (S.faults source.old) (S.faults source.new) }
    ensures read { IsErrOf result ReadFault.Failed → IfSome (S.left source.old) (λ _. ObeysRead (S.left source.old) (S.left source.new)) }
    ensures later { S.faults source.old ≤ S.faults source.new }
{
    let brands = known_brands(alloc)?;
    let mut editor = new_editor(alloc)?;
    edit_all(alloc, &mut editor, &brands, source)
}
