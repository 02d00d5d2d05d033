//! The command `bulk`: the script of a large system is made from a number of zones and run, and what is told is how many events
//! were answered and refused, and how many zones run and are installed then.
ghost use Rattle.std.specs.Prelude.{◌≡◌, ◌+◌, ◌++◌, ◌≤◌, ◌<◌, ◌==◌, ◌^◌, ◌⊎◌, [], ◌∷◌, IfErr, IfOk, IsErrOf, IsOk, List, OnOk, if◌then◌else◌, replicate};
ghost use Rattle.std.specs.Fmt.{decimal};
ghost use Rattle.std.specs.List.{count_by};
ghost use Rattle.brand_hooks.specs.Brands.{Tabled};
ghost use Rattle.commit_journal.specs.declared.records.Commit.{Commit};
ghost use Rattle.zone_cases.specs.State.{State};
ghost use Rattle.zone_cases.specs.declared.events.Entry.{Entry};
ghost use Rattle.zone_machine.specs.Code.Decided.{AsksBrands, MayGoOn};
ghost use Rattle.zone_machine.specs.Code.Openings.{Begins, StandsFor};
ghost use Rattle.zone_machine.specs.Code.Records.{Passes};
ghost use Rattle.zone_machine.specs.Machine.{opening};
ghost use Rattle.zone_machine.specs.Machine.Images.{IsStoreOf};
ghost use Rattle.zn_io.specs.Streams.{Rose};
ghost use Rattle.zones_run.specs.Bulk.{RanBulk, bulk_mode, bulk_text, bulked, call_line, halt_lines, is_installed, is_running, lines_for, numbered, rows_that, summary_text};
ghost use Rattle.zones_run.specs.Fixed.{text_of_lines};
ghost use Rattle.zones_run.specs.Outcomes.{report_output};
ghost use Rattle.zones_run.specs.Tracing.{entries_text, left_to_tell};

use crate::fault::RunFault;
use crate::made::{Made, Marks};
use crate::outcome::Complaint;
use crate::status::{DONE, REFUSED};
use crate::trace::trace_all;
use crate::words::{Mode, Telling};
use brand_hooks::{Change, HookAnswer};
use index_file::IndexRow;
use std::alloc::{AllocError, Global};
use zn_base::{ZoneState, push_numbered};
use zn_io::Disk;
use zone_machine::Machine;

// How many calls are made in each zone.
const CALLS: u64 = 50;

// A line with a number in it.
fn push_line(text: &mut Vec<u8>, before: &[u8], number: u64, after: &[u8]) -> Result<(), AllocError>
    ensures { OnOk result (text.new.items ≡ text.old.items ++ (numbered before.now number after.now ++ 10 ∷ [])) }
{
    push_numbered(text, before, number)?;
    text.extend_from_slice(after)?;
    Ok(text.push(b'\n')?)
}

// The calls in the zone of a number.
fn push_calls(text: &mut Vec<u8>, number: u64) -> Result<(), AllocError>
    ensures { OnOk result (text.new.items ≡ text.old.items ++ text_of_lines (replicate 50 (call_line number))) }
{
    for call in 0..CALLS {
        push_line(text, b"S 1 zlogin b", number, b" true")?;
    }
    Ok(())
}

// The halt of the zone of an even number.
fn push_halt(text: &mut Vec<u8>, number: u64) -> Result<(), AllocError>
    ensures { OnOk result (text.new.items ≡ text.old.items ++ text_of_lines (halt_lines number)) }
{
    if number % 2 != 0 {
        return Ok(());
    }
    Ok(push_line(text, b"S 1 zoneadm -z b", number, b" halt")?)
}

// The lines for the zone of a number.
fn push_lines_for(text: &mut Vec<u8>, number: u64) -> Result<(), AllocError>
    ensures { OnOk result (text.new.items ≡ text.old.items ++ text_of_lines (lines_for number)) }
{
    push_numbered(text, b"S 1 zonecfg -z b", number)?;
    push_line(
        text,
        b" create -b; set zonepath=/zones/b",
        number,
        b"; set brand=ipkg",
    )?;
    push_line(text, b"S 1 zoneadm -z b", number, b" install")?;
    push_line(text, b"S 1 zoneadm -z b", number, b" boot")?;
    push_line(text, b"S 1 zlogin b", number, b" ps")?;
    push_calls(text, number)?;
    Ok(push_halt(text, number)?)
}

// The script for so many zones.
fn script_for(alloc: Global, zones: u64) -> Result<Vec<u8>, AllocError>
    ensures { IfOk result (λ text. text.items ≡ bulk_text zones) }
{
    let mut text = Vec::new(alloc);
    for before in 0..zones {
        push_lines_for(&mut text, before + 1)?;
    }
    Ok(text)
}

/// How many zones run, and how many are installed.
#[derive(Clone, Copy, Debug, PartialEq, Eq)]
pub struct Counts {
    running: u64,
    installed: u64,
}

// With one zone more, in a state.
fn with_zone(counts: Counts, state: Option<ZoneState>) -> Counts
    requires running { counts.running < 2 ^ 63 }
    requires installed { counts.installed < 2 ^ 63 }
    ensures running { result.running ≡ counts.running + (if is_running state then 1 else 0) }
    ensures installed { result.installed ≡ counts.installed + (if is_installed state then 1 else 0) }
{
    match state {
        Some(ZoneState::Running) => Counts {
            running: counts.running + 1,
            installed: counts.installed,
        },
        Some(ZoneState::Installed) => Counts {
            running: counts.running,
            installed: counts.installed + 1,
        },
        _ => counts,
    }
}

fn count_zones<D: Disk, F: Fn(&Change) -> HookAnswer>(
    machine: &Machine<'_, D, F>,
    rows: &[IndexRow],
) -> Counts
    ensures running { (S : State) → StandsFor S machine.now → result.running ≡ rows_that is_running S rows.now }
    ensures installed { (S : State) → StandsFor S machine.now → result.installed ≡ rows_that is_installed S rows.now }
{
    let mut counts = Counts {
        running: 0,
        installed: 0,
    };
    for row in rows {
        counts = with_zone(counts, machine.state(&row.name));
    }
    counts
}

// How many events were refused, by their marks.
fn count_refused(marks: &[u8]) -> usize
    ensures { result ≡ count_by (λ mark. mark == 1) marks.now }
{
    marks.iter().filter(|mark| **mark == 1).count()
}

// A line of the summary.
fn push_count(text: &mut Vec<u8>, word: &[u8], count: u64) -> Result<(), AllocError>
    ensures { OnOk result (text.new.items ≡ text.old.items ++ ((word.now ++ decimal count) ++ 10 ∷ [])) }
{
    push_numbered(text, word, count)?;
    Ok(text.push(b'\n')?)
}

fn summary_of<D: Disk, F: Fn(&Change) -> HookAnswer>(
    alloc: Global,
    zones: u64,
    marks: &[u8],
    machine: &Machine<'_, D, F>,
) -> Result<Vec<u8>, AllocError>
    ensures { IfOk result (λ text. (entries : List Entry) (S : State) → marks.now ≡ entries_text bulk_mode entries → StandsFor S machine.now → text.items ≡ summary_text zones entries S) }
{
    let rows = match machine.index(alloc) {
        Ok(rows) => rows,
        Err(_) => return Err(AllocError),
    };
    let counts = count_zones(machine, &rows);
    let mut text = Vec::new(alloc);
    push_count(&mut text, b"zones ", zones)?;
    push_count(&mut text, b"events ", marks.len() as u64)?;
    push_count(&mut text, b"refused ", count_refused(marks) as u64)?;
    push_count(&mut text, b"running ", counts.running)?;
    push_count(&mut text, b"installed ", counts.installed)?;
    Ok(text)
}

/// What `bulk` writes: the summary, and the line on standard error that goes with the status.
#[derive(Drop)]
pub struct Report {
    pub status: u8,
    pub out: Vec<u8>,
    pub err: Vec<u8>,
}

// What is left to report goes with a summary.
fn report_with(
    alloc: Global,
    summary: Vec<u8>,
    complaint: Option<Complaint>,
) -> Result<Report, AllocError>
    ensures { IfOk result (λ report. report_output report ≡ record (left_to_tell complaint) { out = summary.items }) }
{
    match complaint {
        None => Ok(Report {
            status: DONE,
            out: summary,
            err: Vec::new(alloc),
        }),
        Some(complaint) => Ok(Report {
            status: complaint.status(),
            out: summary,
            err: complaint.line(alloc)?,
        }),
    }
}

// What is told of a run that has come to its end.
fn report_all<D: Disk, F: Fn(&Change) -> HookAnswer>(
    alloc: Global,
    zones: u64,
    marks: &[u8],
    machine: &Machine<'_, D, F>,
    complaint: Option<Complaint>,
) -> Result<Report, AllocError>
    ensures { IfOk result (λ report. (entries : List Entry) (S : State) → marks.now ≡ entries_text bulk_mode entries → StandsFor S machine.now → report_output report ≡ record (left_to_tell complaint) { out = summary_text zones entries S }) }
{
    let summary = summary_of(alloc, zones, marks, machine)?;
    report_with(alloc, summary, complaint)
}

/// Makes the script for so many zones and runs it on a machine.
pub fn report_bulk<D: Disk, F: Fn(&Change) -> HookAnswer>(
    alloc: Global,
    zones: u64,
    machine: &mut Machine<'_, D, F>,
) -> Result<Report, RunFault>
    requires few { zones ≤ 256 }
    requires asks { AsksBrands F.Fn machine.old }
    requires ready { MayGoOn D.view machine.old }
    requires stands { (brands : List Tabled) × Begins brands machine.old }
    ensures told { IfOk result (λ report. (brands : List Tabled) (R : List Commit) → StandsFor (opening brands R) machine.old → report_output report ≡ bulked zones brands R) }
    ensures low { IfOk result (λ report. report.status ≤ REFUSED) }
    ensures recorded { (brands : List Tabled) (R : List Commit) → StandsFor (opening brands R) machine.old → IsStoreOf (D.view machine.old.bank.disk) R → RanBulk zones brands R (IsOk result) (IsErrOf result RunFault.Disk) (D.view machine.old.bank.disk) (D.view machine.new.bank.disk) }
    ensures only { IfErr result (λ fault. (fault ≡ RunFault.Memory) ⊎ (fault ≡ RunFault.Disk)) }
    ensures disk { IsErrOf result RunFault.Disk → Rose (D.view machine.old.bank.disk).faults (D.view machine.new.bank.disk).faults }
    ensures passes { Passes (D.view machine.old.bank.disk) (D.view machine.new.bank.disk) }
{
    let text = match script_for(alloc, zones) {
        Ok(text) => text,
        Err(AllocError) => return Err(RunFault::Memory),
    };
    let mut script = Made::new(text);
    let mut marks = Marks::new(alloc);
    let mode = Mode::WithTurns(Telling::Marks);
    match trace_all(alloc, &mode, machine, &mut script, &mut marks) {
        Ok(complaint) => match report_all(alloc, zones, &marks.bytes, machine, complaint) {
            Ok(report) => Ok(report),
            Err(AllocError) => Err(RunFault::Memory),
        },
        // Memory ran out for a mark.
        Err(RunFault::Write) => Err(RunFault::Memory),
        Err(RunFault::Memory) => Err(RunFault::Memory),
        Err(RunFault::Disk) => Err(RunFault::Disk),
        Err(RunFault::Read) => unreachable!(),
    }
}
