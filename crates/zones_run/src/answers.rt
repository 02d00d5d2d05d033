//! Events are answered by the machine, and their replies wait to be written together.
ghost use Rattle.std.specs.Prelude.{◌≡◌, ◌≢◌, ◌<◌, ◌≤◌, ◌⊎◌, ◌++◌, [], Err, IfErr, IfOk, IsErrOf, None, Ok, OnErr, OnOk, Some, false, true};
ghost use Rattle.zn_io.specs.Streams.{Rose, after_known};
ghost use Rattle.zone_cases.specs.Events.{is_restart};
ghost use Rattle.zone_cases.specs.State.{State};
ghost use Rattle.zone_machine.specs.Code.Decided.{AsksBrands, IsForeseen, MayGoOn, entry_by, own_subject, subject_by};
ghost use Rattle.zone_machine.specs.Code.Openings.{StandsFor};
ghost use Rattle.zone_machine.specs.Code.Records.{Passes};
ghost use Rattle.zone_machine.specs.Machine.Histories.{concerns};
ghost use Rattle.zones_run.specs.Answering.{IsAnswered, IsFault, MayStop, Steps, Stops, StopsText};
ghost use Rattle.zones_run.specs.Run.{HasFront};
ghost use Rattle.zones_run.specs.Tracing.{HasWritten, entry_text, is_refusal, is_refused_turn, mark};

use crate::due::Due;
use crate::fault::{RunFault, Stop};
use crate::words::{Mode, Telling};
use brand_hooks::{Change, HookAnswer};
use std::alloc::{AllocError, Global};
use trace_text::{push_answer, push_given};
use zn_base::ZoneName;
use zn_io::{Disk, Sink, write_all};
use zone_cases::{Answer, Event, Head, Subject, Whose};
use zone_machine::{Foreseen, Machine, StepFault};
use zoneadmd_steps::{Outcome, TurnReply};

// How many bytes of replies may wait before they are written.
pub const WAITING_MAX: usize = 16384;

fn is_refused_turn(turn: &TurnReply) -> bool
    ensures { result ≡ is_refused_turn turn.now }
{
    match turn {
        TurnReply::Failed(_, _) | TurnReply::Stuck => true,
        TurnReply::Finished(_, outcome) => !matches!(outcome, Outcome::Done),
        _ => false,
    }
}

/// Whether a reply is a refusal: `err`, `failed` or `stuck`, or `finished` with another outcome than `ok`.
pub fn is_refusal(head: &Head) -> bool
    ensures { result ≡ is_refusal head.now }
{
    match head {
        Head::Refused(_) => true,
        Head::Turned(turn) => is_refused_turn(turn),
        _ => false,
    }
}

// The mark of an event that was answered.
fn mark(head: &Head) -> u8
    ensures { result ≡ mark head.now }
{
    if is_refusal(head) { 1 } else { 0 }
}

// Writes the replies that wait. None waits then; where standard output fails, a front of them was taken.
pub fn write_waiting<K: Sink>(waiting: &mut Vec<u8>, out: &mut K) -> Result<(), RunFault>
    ensures all { OnOk result (K.holds out.new ≡ after_known (K.holds out.old) waiting.old.items) }
    ensures none { waiting.new.items ≡ [] }
    ensures some { OnErr result (waiting.old.items ≢ []) }
    ensures front { OnErr result (HasFront (K.holds out.old) (K.holds out.new) waiting.old.items) }
    ensures fault { OnErr result ((result ≡ Err RunFault.Write) × Rose (K.faults out.old) (K.faults out.new)) }
    ensures later { K.faults out.old ≤ K.faults out.new }
{
    if waiting.is_empty() {
        return Ok(());
    }
    let written = write_all(out, waiting);
    waiting.clear();
    match written {
        Ok(()) => Ok(()),
        Err(_) => Err(RunFault::Write),
    }
}

// An event that may store a record, and is no restart, is answered.
fn answer_recording<D: Disk, F: Fn(&Change) -> HookAnswer>(
    alloc: Global,
    machine: &mut Machine<'_, D, F>,
    due: &Due,
    foreseen: Foreseen,
) -> Result<Answer, Stop>
    requires stays { is_restart due.now.event ≡ false }
    requires asks { AsksBrands F.Fn machine.old }
    requires ready { MayGoOn D.view machine.old }
    requires foreseen { IsForeseen machine.old.parts due.now.event foreseen }
    ensures steps { IfOk result (λ answer. (S : State) → StandsFor S machine.old → Steps S due.now answer (λ T. StandsFor T machine.new) (D.view machine.old.bank.disk) (D.view machine.new.bank.disk)) }
    ensures kept { IfErr result (λ stop. (S : State) → StandsFor S machine.old → Stops stop (machine.new.bank ≡ machine.old.bank) S (Ok (Some due.now)) (D.view machine.old.bank.disk) (D.view machine.new.bank.disk)) }
    ensures only { IfErr result (λ stop. (stop ≡ Stop.Fault RunFault.Memory) ⊎ ((stop ≡ Stop.Fault RunFault.Disk) ⊎ (stop ≡ Stop.BadGrant))) }
    ensures unstated { due.now.stated ≡ None → IfErr result IsFault }
    ensures disk { IsErrOf result (Stop.Fault RunFault.Disk) → Rose (D.view machine.old.bank.disk).faults (D.view machine.new.bank.disk).faults }
    ensures ready { OnOk result (MayGoOn D.view machine.new) }
    ensures passes { Passes (D.view machine.old.bank.disk) (D.view machine.new.bank.disk) }
    ensures asks { AsksBrands F.Fn machine.new }
{
    match machine.answer_foreseen(alloc, &due.event, due.stated, foreseen, true) {
        Ok(answer) => Ok(answer),
        Err(StepFault::Memory) => Err(Stop::Fault(RunFault::Memory)),
        Err(StepFault::DiskFault) => Err(Stop::Fault(RunFault::Disk)),
        Err(StepFault::BadGrant) => Err(Stop::BadGrant),
        Err(StepFault::WouldRecord | StepFault::NoStore(_)) => unreachable!(),
    }
}

// The replies that wait are written, and then an event of which a record is foreseen, and which is no restart, is answered.
fn write_and_answer<D: Disk, F: Fn(&Change) -> HookAnswer, K: Sink>(
    alloc: Global,
    machine: &mut Machine<'_, D, F>,
    due: &Due,
    foreseen: Foreseen,
    waiting: &mut Vec<u8>,
    out: &mut K,
) -> Result<Answer, Stop>
    requires stays { is_restart due.now.event ≡ false }
    requires asks { AsksBrands F.Fn machine.old }
    requires ready { MayGoOn D.view machine.old }
    requires foreseen { IsForeseen machine.old.parts due.now.event foreseen }
    ensures steps { IfOk result (λ answer. (S : State) → StandsFor S machine.old → Steps S due.now answer (λ T. StandsFor T machine.new) (D.view machine.old.bank.disk) (D.view machine.new.bank.disk)) }
    ensures kept { IfErr result (λ stop. (S : State) → StandsFor S machine.old → Stops stop (machine.new.bank ≡ machine.old.bank) S (Ok (Some due.now)) (D.view machine.old.bank.disk) (D.view machine.new.bank.disk)) }
    ensures may { IfErr result (λ stop. MayStop stop (D.view machine.old.bank.disk)) }
    ensures unstated { due.now.stated ≡ None → IfErr result IsFault }
    ensures same { OnOk result (after_known (K.holds out.new) waiting.new.items ≡ after_known (K.holds out.old) waiting.old.items) }
    ensures text { IfErr result (λ stop. StopsText stop (K.holds out.old) (K.holds out.new) waiting.old.items waiting.new.items) }
    ensures written { HasWritten (K.holds out.old) (K.holds out.new) }
    ensures write { IsErrOf result (Stop.Fault RunFault.Write) → Rose (K.faults out.old) (K.faults out.new) }
    ensures disk { IsErrOf result (Stop.Fault RunFault.Disk) → Rose (D.view machine.old.bank.disk).faults (D.view machine.new.bank.disk).faults }
    ensures later { K.faults out.old ≤ K.faults out.new }
    ensures ready { OnOk result (MayGoOn D.view machine.new) }
    ensures passes { Passes (D.view machine.old.bank.disk) (D.view machine.new.bank.disk) }
    ensures asks { AsksBrands F.Fn machine.new }
{
    match write_waiting(waiting, out) {
        Ok(()) => answer_recording(alloc, machine, due, foreseen),
        Err(fault) => Err(Stop::Fault(fault)),
    }
}

// An event that is no restart is answered. Where it stores a record, the replies that wait are written first: at a daemon's
// step that changes what is stored before the event is looked at, else once it is found that it would store one.
#[inline(always)]
fn answer_after_waiting<D: Disk, F: Fn(&Change) -> HookAnswer, K: Sink>(
    alloc: Global,
    machine: &mut Machine<'_, D, F>,
    due: &Due,
    waiting: &mut Vec<u8>,
    out: &mut K,
) -> Result<Answer, Stop>
    requires stays { is_restart due.now.event ≡ false }
    requires asks { AsksBrands F.Fn machine.old }
    requires ready { MayGoOn D.view machine.old }
    ensures steps { IfOk result (λ answer. (S : State) → StandsFor S machine.old → Steps S due.now answer (λ T. StandsFor T machine.new) (D.view machine.old.bank.disk) (D.view machine.new.bank.disk)) }
    ensures kept { IfErr result (λ stop. (S : State) → StandsFor S machine.old → Stops stop (machine.new.bank ≡ machine.old.bank) S (Ok (Some due.now)) (D.view machine.old.bank.disk) (D.view machine.new.bank.disk)) }
    ensures may { IfErr result (λ stop. MayStop stop (D.view machine.old.bank.disk)) }
    ensures unstated { due.now.stated ≡ None → IfErr result IsFault }
    ensures same { OnOk result (after_known (K.holds out.new) waiting.new.items ≡ after_known (K.holds out.old) waiting.old.items) }
    ensures text { IfErr result (λ stop. StopsText stop (K.holds out.old) (K.holds out.new) waiting.old.items waiting.new.items) }
    ensures written { HasWritten (K.holds out.old) (K.holds out.new) }
    ensures write { IsErrOf result (Stop.Fault RunFault.Write) → Rose (K.faults out.old) (K.faults out.new) }
    ensures disk { IsErrOf result (Stop.Fault RunFault.Disk) → Rose (D.view machine.old.bank.disk).faults (D.view machine.new.bank.disk).faults }
    ensures later { K.faults out.old ≤ K.faults out.new }
    ensures ready { OnOk result (MayGoOn D.view machine.new) }
    ensures passes { Passes (D.view machine.old.bank.disk) (D.view machine.new.bank.disk) }
    ensures asks { AsksBrands F.Fn machine.new }
{
    let foreseen = machine.foresee(&due.event);
    if foreseen.records && !waiting.is_empty() {
        return write_and_answer(alloc, machine, due, foreseen, waiting, out);
    }
    let may_record = waiting.is_empty();
    match machine.answer_foreseen(alloc, &due.event, due.stated, foreseen, may_record) {
        Ok(answer) => Ok(answer),
        Err(StepFault::WouldRecord) => match write_waiting(waiting, out) {
            Ok(()) => {
                let foreseen = machine.foresee(&due.event);
                answer_recording(alloc, machine, due, foreseen)
            }
            Err(fault) => Err(Stop::Fault(fault)),
        },
        Err(StepFault::Memory) => Err(Stop::Fault(RunFault::Memory)),
        Err(StepFault::DiskFault) => Err(Stop::Fault(RunFault::Disk)),
        Err(StepFault::BadGrant) => Err(Stop::BadGrant),
        Err(StepFault::NoStore(_)) => unreachable!(),
    }
}

// Whether what an event was found to be of is a zone or the whole system.
fn found_concerns(zone: &ZoneName, subject: &Subject) -> bool
    ensures { result ≡ concerns zone.now subject.now }
{
    match subject {
        Subject::Zone(of) => zone == of,
        Subject::Global => false,
        Subject::Whole => true,
    }
}

// The same of an event that has its zone itself.
fn own_concerns(zone: &ZoneName, event: &Event) -> bool
    ensures { result ≡ concerns zone.now (own_subject event.now) }
{
    match event {
        Event::Turn { zone: of } | Event::Process { zone: of, .. } => zone == of,
        Event::System(_) | Event::Restart => true,
        Event::Session { .. } => false,
    }
}

fn concerns(zone: &ZoneName, event: &Event, whose: &Whose) -> bool
    ensures { result ≡ concerns zone.now (subject_by event.now whose.now) }
{
    match whose {
        Whose::Own => own_concerns(zone, event),
        Whose::Found(subject) => found_concerns(zone, subject),
    }
}

// Where all zones but one are purged, the line of an event of that zone or of the whole system is told, behind what the event
// was given.
fn push_kept(
    zone: &ZoneName,
    event: &Event,
    answer: &Answer,
    text: &mut Vec<u8>,
) -> Result<(), AllocError>
    ensures { OnOk result (text.new.items ≡ text.old.items ++ entry_text (Mode.Purged zone.now) (entry_by event.now answer.now)) }
{
    if !concerns(zone, event, &answer.whose) {
        return Ok(());
    }
    push_given(text, answer.grant, event)?;
    Ok(text.push(b'\n')?)
}

// Of a script's event the reply or the mark is told.
#[inline(always)]
fn push_turned(
    telling: Telling,
    event: &Event,
    answer: &Answer,
    text: &mut Vec<u8>,
) -> Result<(), AllocError>
    ensures { OnOk result (text.new.items ≡ text.old.items ++ entry_text (Mode.WithTurns telling) (entry_by event.now answer.now)) }
{
    match telling {
        Telling::Replies => push_answer(text, event, answer),
        Telling::Marks => Ok(text.push(mark(&answer.reply.head))?),
    }
}

#[inline(always)]
fn push_told(
    mode: &Mode,
    event: &Event,
    answer: &Answer,
    text: &mut Vec<u8>,
) -> Result<(), AllocError>
    ensures { OnOk result (text.new.items ≡ text.old.items ++ entry_text mode.now (entry_by event.now answer.now)) }
{
    match mode {
        Mode::Purged(zone) => push_kept(zone, event, answer, text),
        Mode::WithTurns(telling) => push_turned(*telling, event, answer, text),
        Mode::Replies | Mode::Stated => push_answer(text, event, answer),
    }
}

// Puts what is told of an event after what waits. `text` is room for it.
#[inline(always)]
pub fn put_told(
    mode: &Mode,
    event: &Event,
    answer: &Answer,
    text: &mut Vec<u8>,
    waiting: &mut Vec<u8>,
) -> Result<(), AllocError>
    ensures text { OnOk result (waiting.new.items ≡ waiting.old.items ++ entry_text mode.now (entry_by event.now answer.now)) }
    ensures same { OnErr result (waiting.new.items ≡ waiting.old.items) }
{
    text.clear();
    push_told(mode, event, answer, text)?;
    waiting.extend_from_slice(text)
}

// One event that is no restart is answered, and what is told of it waits to be written. `text` is room for that.
#[inline(always)]
pub fn answer<D: Disk, F: Fn(&Change) -> HookAnswer, K: Sink>(
    alloc: Global,
    mode: &Mode,
    machine: &mut Machine<'_, D, F>,
    due: &Due,
    text: &mut Vec<u8>,
    waiting: &mut Vec<u8>,
    out: &mut K,
) -> Result<Answer, Stop>
    requires stays { is_restart due.now.event ≡ false }
    requires asks { AsksBrands F.Fn machine.old }
    requires ready { MayGoOn D.view machine.old }
    ensures answered { IfOk result (λ answer. (S : State) → StandsFor S machine.old → IsAnswered mode.now S due.now answer (λ T. StandsFor T machine.new) (D.view machine.old.bank.disk) (D.view machine.new.bank.disk) (after_known (K.holds out.old) waiting.old.items) (after_known (K.holds out.new) waiting.new.items)) }
    ensures kept { IfErr result (λ stop. (S : State) → StandsFor S machine.old → Stops stop (machine.new.bank ≡ machine.old.bank) S (Ok (Some due.now)) (D.view machine.old.bank.disk) (D.view machine.new.bank.disk)) }
    ensures may { IfErr result (λ stop. MayStop stop (D.view machine.old.bank.disk)) }
    ensures unstated { due.now.stated ≡ None → IfErr result IsFault }
    ensures text { IfErr result (λ stop. StopsText stop (K.holds out.old) (K.holds out.new) waiting.old.items waiting.new.items) }
    ensures written { HasWritten (K.holds out.old) (K.holds out.new) }
    ensures write { IsErrOf result (Stop.Fault RunFault.Write) → Rose (K.faults out.old) (K.faults out.new) }
    ensures disk { IsErrOf result (Stop.Fault RunFault.Disk) → Rose (D.view machine.old.bank.disk).faults (D.view machine.new.bank.disk).faults }
    ensures later { K.faults out.old ≤ K.faults out.new }
    ensures ready { OnOk result (MayGoOn D.view machine.new) }
    ensures passes { Passes (D.view machine.old.bank.disk) (D.view machine.new.bank.disk) }
    ensures asks { AsksBrands F.Fn machine.new }
{
    match answer_after_waiting(alloc, machine, due, waiting, out) {
        Ok(answer) => match put_told(mode, &due.event, &answer, text, waiting) {
            Ok(()) => Ok(answer),
            Err(AllocError) => Err(Stop::Fault(RunFault::Memory)),
        },
        Err(stop) => Err(stop),
    }
}
