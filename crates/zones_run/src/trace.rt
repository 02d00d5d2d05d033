//! The commands `trace`, `script`, `purge` and `given`: the events of the input go through a zone machine over the store on a disk, one
//! after the other, and for `script` also the turns that are put in.
//! What is told of them is written together, before an event stores a record and once it has, before the system restarts, before more
//! is read where no line is begun, and when many of them wait.
ghost use Rattle.std.specs.Prelude.{◌≡◌, ◌≢◌, ◌<◌, ◌≤◌, ◌⊎◌, List, [], Err, IfErr, length, IfOk, IfSome, IsErrOf, Ok, OnErr, OnOk, Some, false, true};
ghost use Rattle.zn_io.specs.Streams.{Rose, after_known};
ghost use Rattle.brand_hooks.specs.Brands.{Tabled};
ghost use Rattle.commit_journal.specs.declared.records.Commit.{Commit};
ghost use Rattle.zone_cases.specs.Events.{is_restart};
ghost use Rattle.zone_machine.specs.Machine.{opening};
ghost use Rattle.zone_machine.specs.Machine.Images.{IsStoreOf};
ghost use Rattle.zone_cases.specs.State.{State};
ghost use Rattle.zone_machine.specs.Code.Decided.{AsksBrands, MayGoOn};
ghost use Rattle.zone_machine.specs.Code.Openings.{StandsFor};
ghost use Rattle.zone_machine.specs.Code.Records.{Passes};
ghost use Rattle.zones_run.specs.Scripts.{said_by};
ghost use Rattle.zones_run.specs.Answering.{FindsAlways, IsAnswered, MayStop, RestartsWell, RestartsWellAt, Stops, StopsText, TakesEvent, ended_by};
ghost use Rattle.zones_run.specs.Complaints.{IsOfInput};
ghost use Rattle.zones_run.specs.Recording.{RanAs};
ghost use Rattle.zones_run.specs.Run.{HasFront};
ghost use Rattle.zones_run.specs.Tracing.{EndsAs, HasWritten, StandsPast, left_to_tell, told_refusal};

use crate::answers::{WAITING_MAX, answer, put_told, write_waiting};
use crate::due::{Due, read_due};
use crate::fault::{RunFault, Stop};
use crate::limits::LINES_MAX;
use crate::outcome::Complaint;
use crate::turns::{Taken, give_turns, taken_from};
use crate::words::Mode;
use brand_hooks::{Change, HookAnswer};
use input_lines::{Ahead, Got, next_line};
use std::alloc::{AllocError, Global};
use trace_text::LineFault;
use zn_io::{Disk, Sink, Source};
use zone_cases::Answer;
use zone_machine::{Machine, StepFault};

// What is left to report at the end of the input.
fn ended(refused: Option<u64>) -> Option<Complaint>
    ensures told { left_to_tell result ≡ record (told_refusal [] refused) { out = [] } }
    ensures kind { IfSome result IsOfInput }
{
    refused.map(Complaint::FirstRefused)
}

// What a line that ends a trace ends it with.
fn ended_by(stop: Stop, number: u64) -> Result<Option<Complaint>, RunFault>
    ensures ended { result ≡ ended_by stop number }
{
    match stop {
        Stop::Fault(fault) => Err(fault),
        Stop::Grammar(fault) => Ok(Some(Complaint::Grammar(number, fault))),
        Stop::BadGrant => Ok(Some(Complaint::BadGrant(number))),
        Stop::NoStore(fault) => Ok(Some(Complaint::NotAStore(fault))),
    }
}

// The system restarts. The replies that wait are written before the disk is read, and its own waits.
fn restart<D: Disk, F: Fn(&Change) -> HookAnswer, K: Sink>(
    alloc: Global,
    mode: &Mode,
    machine: &mut Machine<'_, D, F>,
    due: &Due,
    text: &mut Vec<u8>,
    waiting: &mut Vec<u8>,
    out: &mut K,
) -> Result<Answer, Stop>
    requires is { is_restart due.now.event ≡ true }
    requires asks { AsksBrands F.Fn machine.old }
    requires ready { MayGoOn D.view machine.old }
    ensures answered { IfOk result (λ answer. (S : State) → StandsFor S machine.old → RestartsWellAt S due.now (D.view machine.old.bank.disk) → IsAnswered mode.now S due.now answer (λ T. StandsFor T machine.new) (D.view machine.old.bank.disk) (D.view machine.new.bank.disk) (after_known (K.holds out.old) waiting.old.items) (after_known (K.holds out.new) waiting.new.items)) }
    ensures stopped { IfErr result (λ stop. (S : State) → StandsFor S machine.old → Stops stop (machine.new.bank ≡ machine.old.bank) S (Ok (Some due.now)) (D.view machine.old.bank.disk) (D.view machine.new.bank.disk)) }
    ensures may { IfErr result (λ stop. MayStop stop (D.view machine.old.bank.disk)) }
    ensures text { IfErr result (λ stop. StopsText stop (K.holds out.old) (K.holds out.new) waiting.old.items waiting.new.items) }
    ensures written { HasWritten (K.holds out.old) (K.holds out.new) }
    ensures write { IsErrOf result (Stop.Fault RunFault.Write) → Rose (K.faults out.old) (K.faults out.new) }
    ensures disk { IsErrOf result (Stop.Fault RunFault.Disk) → Rose (D.view machine.old.bank.disk).faults (D.view machine.new.bank.disk).faults }
    ensures later { K.faults out.old ≤ K.faults out.new }
    ensures ready { OnOk result (MayGoOn D.view machine.new) }
    ensures passes { Passes (D.view machine.old.bank.disk) (D.view machine.new.bank.disk) }
    ensures asks { AsksBrands F.Fn machine.new }
{
    if let Err(fault) = write_waiting(waiting, out) {
        return Err(Stop::Fault(fault));
    }
    match machine.answer(alloc, &due.event, due.stated, true) {
        Ok(answer) => match put_told(mode, &due.event, &answer, text, waiting) {
            Ok(()) => Ok(answer),
            Err(AllocError) => Err(Stop::Fault(RunFault::Memory)),
        },
        Err(StepFault::Memory) => Err(Stop::Fault(RunFault::Memory)),
        Err(StepFault::DiskFault) => Err(Stop::Fault(RunFault::Disk)),
        Err(StepFault::BadGrant) => Err(Stop::BadGrant),
        Err(StepFault::NoStore(fault)) => Err(Stop::NoStore(fault)),
        Err(StepFault::WouldRecord) => unreachable!(),
    }
}

// One event is answered, and what is told of it waits to be written.
#[inline(always)]
fn take_event<D: Disk, F: Fn(&Change) -> HookAnswer, K: Sink>(
    alloc: Global,
    mode: &Mode,
    machine: &mut Machine<'_, D, F>,
    due: &Due,
    text: &mut Vec<u8>,
    waiting: &mut Vec<u8>,
    out: &mut K,
) -> Result<Answer, Stop>
    requires asks { AsksBrands F.Fn machine.old }
    requires ready { MayGoOn D.view machine.old }
    ensures answered { IfOk result (λ answer. (S : State) → StandsFor S machine.old → RestartsWellAt S due.now (D.view machine.old.bank.disk) → IsAnswered mode.now S due.now answer (λ T. StandsFor T machine.new) (D.view machine.old.bank.disk) (D.view machine.new.bank.disk) (after_known (K.holds out.old) waiting.old.items) (after_known (K.holds out.new) waiting.new.items)) }
    ensures stopped { IfErr result (λ stop. (S : State) → StandsFor S machine.old → Stops stop (machine.new.bank ≡ machine.old.bank) S (Ok (Some due.now)) (D.view machine.old.bank.disk) (D.view machine.new.bank.disk)) }
    ensures may { IfErr result (λ stop. MayStop stop (D.view machine.old.bank.disk)) }
    ensures text { IfErr result (λ stop. StopsText stop (K.holds out.old) (K.holds out.new) waiting.old.items waiting.new.items) }
    ensures written { HasWritten (K.holds out.old) (K.holds out.new) }
    ensures write { IsErrOf result (Stop.Fault RunFault.Write) → Rose (K.faults out.old) (K.faults out.new) }
    ensures disk { IsErrOf result (Stop.Fault RunFault.Disk) → Rose (D.view machine.old.bank.disk).faults (D.view machine.new.bank.disk).faults }
    ensures later { K.faults out.old ≤ K.faults out.new }
    ensures ready { OnOk result (MayGoOn D.view machine.new) }
    ensures passes { Passes (D.view machine.old.bank.disk) (D.view machine.new.bank.disk) }
    ensures asks { AsksBrands F.Fn machine.new }
{
    if due.event.is_restart() {
        return restart(alloc, mode, machine, due, text, waiting, out);
    }
    answer(alloc, mode, machine, due, text, waiting, out)
}

// One line: its event, if it is one, is answered, and the number of the first refused line is reported.
#[inline(always)]
fn take_line<D: Disk, F: Fn(&Change) -> HookAnswer, K: Sink>(
    alloc: Global,
    mode: &Mode,
    machine: &mut Machine<'_, D, F>,
    line: &[u8],
    number: u64,
    refused: Option<u64>,
    text: &mut Vec<u8>,
    waiting: &mut Vec<u8>,
    out: &mut K,
) -> Result<Taken, Stop>
    requires short { length line.now ≤ 4096 }
    requires asks { AsksBrands F.Fn machine.old }
    requires ready { MayGoOn D.view machine.old }
    ensures taken { IfOk result (λ taken. (S : State) → StandsFor S machine.old → RestartsWell S (said_by mode.now S.started line.now) (D.view machine.old.bank.disk) → TakesEvent mode.now S (said_by mode.now S.started line.now) (λ T. StandsFor T machine.new) (machine.new.bank ≡ machine.old.bank) (D.view machine.old.bank.disk) (D.view machine.new.bank.disk) number refused taken (after_known (K.holds out.old) waiting.old.items) (after_known (K.holds out.new) waiting.new.items)) }
    ensures stopped { IfErr result (λ stop. (S : State) → StandsFor S machine.old → Stops stop (machine.new.bank ≡ machine.old.bank) S (said_by mode.now S.started line.now) (D.view machine.old.bank.disk) (D.view machine.new.bank.disk)) }
    ensures may { IfErr result (λ stop. MayStop stop (D.view machine.old.bank.disk)) }
    ensures text { IfErr result (λ stop. StopsText stop (K.holds out.old) (K.holds out.new) waiting.old.items waiting.new.items) }
    ensures written { HasWritten (K.holds out.old) (K.holds out.new) }
    ensures write { IsErrOf result (Stop.Fault RunFault.Write) → Rose (K.faults out.old) (K.faults out.new) }
    ensures disk { IsErrOf result (Stop.Fault RunFault.Disk) → Rose (D.view machine.old.bank.disk).faults (D.view machine.new.bank.disk).faults }
    ensures later { K.faults out.old ≤ K.faults out.new }
    ensures ready { OnOk result (MayGoOn D.view machine.new) }
    ensures passes { Passes (D.view machine.old.bank.disk) (D.view machine.new.bank.disk) }
    ensures asks { AsksBrands F.Fn machine.new }
{
    match read_due(alloc, mode, line, machine.started()) {
        Ok(None) => Ok(Taken {
            refused,
            opened: None,
        }),
        Ok(Some(due)) => match take_event(alloc, mode, machine, &due, text, waiting, out) {
            Ok(answer) => Ok(taken_from(refused, number, &due.event, answer)),
            Err(stop) => Err(stop),
        },
        Err(LineFault::Memory) => Err(Stop::Fault(RunFault::Memory)),
        Err(fault) => Err(Stop::Grammar(fault)),
    }
}

// Writes the replies that wait, where they are not to wait, there are many, or nothing is ahead.
fn write_some<K: Sink>(
    ahead: &Ahead,
    may_wait: bool,
    waiting: &mut Vec<u8>,
    out: &mut K,
) -> Result<(), RunFault>
    ensures same { OnOk result (after_known (K.holds out.new) waiting.new.items ≡ after_known (K.holds out.old) waiting.old.items) }
    ensures few { OnOk result ((waiting.new.items ≡ []) ⊎ ((length ahead.now ≢ 0) × (length waiting.new.items < 16384))) }
    ensures told { OnOk result (may_wait ≡ false → waiting.new.items ≡ []) }
    ensures written { HasWritten (K.holds out.old) (K.holds out.new) }
    ensures none { OnErr result (waiting.new.items ≡ []) }
    ensures front { OnErr result (HasFront (K.holds out.old) (K.holds out.new) waiting.old.items) }
    ensures fault { OnErr result ((result ≡ Err RunFault.Write) × Rose (K.faults out.old) (K.faults out.new)) }
    ensures later { K.faults out.old ≤ K.faults out.new }
{
    if may_wait && !ahead.is_empty() && waiting.len() < WAITING_MAX {
        return Ok(());
    }
    write_waiting(waiting, out)
}

// Takes all lines, one at a time, up to the first that is outside the grammar or past a limit. What is
// left to report is answered, and the last replies wait to be written. Nothing waits while the first byte of a
// line is read, so whoever types whole lines gets each reply before the next line is read; nor while the disk is written.
fn take_lines<D: Disk, F: Fn(&Change) -> HookAnswer, S: Source, K: Sink>(
    alloc: Global,
    mode: &Mode,
    machine: &mut Machine<'_, D, F>,
    source: &mut S,
    text: &mut Vec<u8>,
    waiting: &mut Vec<u8>,
    out: &mut K,
) -> Result<Option<Complaint>, RunFault>
    requires asks { AsksBrands F.Fn machine.old }
    requires ready { MayGoOn D.view machine.old }
    requires none { waiting.old.items ≡ [] }
    ensures ran { (brands : List Tabled) (R : List Commit) → StandsFor (opening brands R) machine.old → FindsAlways mode.now (D.view machine.old.bank.disk) (S.left source.old) → EndsAs mode.now brands R result (S.left source.old) (S.left source.new) (K.holds out.old) (K.holds out.new) (after_known (K.holds out.new) waiting.new.items) }
    ensures recorded { (brands : List Tabled) (R : List Commit) → StandsFor (opening brands R) machine.old → IsStoreOf (D.view machine.old.bank.disk) R → RanAs mode.now brands R result (S.left source.old) (K.holds out.old) (after_known (K.holds out.new) waiting.new.items) (D.view machine.old.bank.disk) (D.view machine.new.bank.disk) }
    ensures stands { (brands : List Tabled) (R : List Commit) → StandsFor (opening brands R) machine.old → FindsAlways mode.now (D.view machine.old.bank.disk) (S.left source.old) → IfOk result (λ complaint. StandsPast mode.now brands R (λ S. StandsFor S machine.new) complaint (S.left source.old)) }
    ensures kind { (D.view machine.old.bank.disk).Keeps → IfOk result (λ complaint. IfSome complaint IsOfInput) }
    ensures read { IsErrOf result RunFault.Read → Rose (S.faults source.old) (S.faults source.new) }
    ensures write { IsErrOf result RunFault.Write → Rose (K.faults out.old) (K.faults out.new) }
    ensures disk { IsErrOf result RunFault.Disk → Rose (D.view machine.old.bank.disk).faults (D.view machine.new.bank.disk).faults }
    ensures none { IsErrOf result RunFault.Write ⊎ IsErrOf result RunFault.Disk → waiting.new.items ≡ [] }
    ensures written { HasWritten (K.holds out.old) (K.holds out.new) }
    ensures read_later { S.faults source.old ≤ S.faults source.new }
    ensures write_later { K.faults out.old ≤ K.faults out.new }
    ensures passes { Passes (D.view machine.old.bank.disk) (D.view machine.new.bank.disk) }
{
    let mut ahead = Ahead::new();
    let mut line = Vec::new(alloc);
    let mut refused = None;
    let mut records = machine.records();
    for before in 0..LINES_MAX {
        // What is stored is told at once: so of two records after one another the second finds nothing that waits.
        write_some(&ahead, machine.records() == records, waiting, out)?;
        records = machine.records();
        match next_line(&mut ahead, source, &mut line)? {
            Got::End => return Ok(ended(refused)),
            Got::TooLong => return Ok(Some(Complaint::Limit(before + 1))),
            Got::Line => {}
        }
        match take_line(
            alloc,
            mode,
            machine,
            &line,
            before + 1,
            refused,
            text,
            waiting,
            out,
        ) {
            Ok(taken) => match give_turns(
                alloc,
                mode,
                machine,
                taken,
                before + 1,
                text,
                waiting,
                out,
            ) {
                Ok(now) => refused = now,
                Err(fault) => return Err(fault),
            },
            Err(stop) => return ended_by(stop, before + 1),
        }
    }
    write_some(&ahead, true, waiting, out)?;
    if ahead.refill(source)? {
        return Ok(Some(Complaint::Limit(LINES_MAX + 1)));
    }
    Ok(ended(refused))
}

/// Runs all lines on a machine, one at a time, up to the first that is outside the grammar or past a limit, and writes what is
/// told of them. What is left to report is answered.
pub fn trace_all<D: Disk, F: Fn(&Change) -> HookAnswer, S: Source, K: Sink>(
    alloc: Global,
    mode: &Mode,
    machine: &mut Machine<'_, D, F>,
    source: &mut S,
    out: &mut K,
) -> Result<Option<Complaint>, RunFault>
    requires asks { AsksBrands F.Fn machine.old }
    requires ready { MayGoOn D.view machine.old }
    ensures ran { (brands : List Tabled) (R : List Commit) → StandsFor (opening brands R) machine.old → FindsAlways mode.now (D.view machine.old.bank.disk) (S.left source.old) → EndsAs mode.now brands R result (S.left source.old) (S.left source.new) (K.holds out.old) (K.holds out.new) (K.holds out.new) }
    ensures recorded { (brands : List Tabled) (R : List Commit) → StandsFor (opening brands R) machine.old → IsStoreOf (D.view machine.old.bank.disk) R → RanAs mode.now brands R result (S.left source.old) (K.holds out.old) (K.holds out.new) (D.view machine.old.bank.disk) (D.view machine.new.bank.disk) }
    ensures stands { (brands : List Tabled) (R : List Commit) → StandsFor (opening brands R) machine.old → FindsAlways mode.now (D.view machine.old.bank.disk) (S.left source.old) → IfOk result (λ complaint. StandsPast mode.now brands R (λ S. StandsFor S machine.new) complaint (S.left source.old)) }
    ensures kind { (D.view machine.old.bank.disk).Keeps → IfOk result (λ complaint. IfSome complaint IsOfInput) }
    ensures read { IsErrOf result RunFault.Read → Rose (S.faults source.old) (S.faults source.new) }
    ensures write { IsErrOf result RunFault.Write → Rose (K.faults out.old) (K.faults out.new) }
    ensures disk { IsErrOf result RunFault.Disk → Rose (D.view machine.old.bank.disk).faults (D.view machine.new.bank.disk).faults }
    ensures later { S.faults source.old ≤ S.faults source.new }
    ensures passes { Passes (D.view machine.old.bank.disk) (D.view machine.new.bank.disk) }
{
    let mut text = Vec::new(alloc);
    let mut waiting = Vec::new(alloc);
    let ended = take_lines(alloc, mode, machine, source, &mut text, &mut waiting, out);
    match write_waiting(&mut waiting, out) {
        Ok(()) => ended,
        Err(_) => Err(RunFault::Write),
    }
}
