//! The turns of zones' daemons that `script` puts in: after a session's line that is answered by a ticket, turns of that zone's
//! daemon, until the ticket is answered or a turn is stuck.
ghost use Rattle.std.specs.Prelude.{◌≡◌, ◌≢◌, ◌+◌, ◌≤◌, ◌<◌, ◌⊎◌, ℕ, List, [], Err, IfErr, IfOk, IsErrOf, OnErr, OnOk, Option};
ghost use Rattle.zn_io.specs.Streams.{Rose, after_known};
ghost use Rattle.brand_hooks.specs.Brands.{Tabled};
ghost use Rattle.commit_journal.specs.declared.records.Commit.{Commit};
ghost use Rattle.zone_machine.specs.Machine.Images.{IsStoreOf};
ghost use Rattle.zone_machine.specs.Code.Decided.{AsksBrands, MayGoOn, entry_by};
ghost use Rattle.zone_machine.specs.Code.Openings.{StandsFor};
ghost use Rattle.zone_machine.specs.Code.Records.{Passes};
ghost use Rattle.zones_run.specs.Answering.{IsFault, refused_with, taken_by};
ghost use Rattle.zones_run.specs.Midway.{Follows, Left, none_put, puts_after, puts_until};
ghost use Rattle.zones_run.specs.Recording.{RanAs};
ghost use Rattle.zones_run.specs.Scripting.{is_last, opened, ticket_by, zone_by};
ghost use Rattle.input_lines.specs.Taking.{TakesPiece};
ghost use Rattle.zones_run.specs.Tracing.{EndsAs, HasWritten};

use crate::answers::{answer, is_refusal};
use crate::due::Due;
use crate::fault::{RunFault, Stop};
use crate::words::{Mode, Telling};
use brand_hooks::{Change, HookAnswer};
use std::alloc::Global;
use zn_base::ZoneName;
use zn_io::{Disk, Sink};
use zone_cases::{Answer, Event, Head, Subject, Whose};
use zone_machine::Machine;
use zoneadmd_steps::TurnReply;

// The greatest number of turns that are put in after a line. The daemon of a zone that stays small has fewer left.
const TURNS_MAX: u64 = 10_000_000;

/// A ticket that a session's line was answered, and the zone whose daemon gave it.
#[derive(Drop)]
pub struct Opened {
    zone: ZoneName,
    ticket: u32,
}

/// What a line that was taken comes to: the first line that is refused by now, and the ticket that this one was answered, if it
/// was.
#[derive(Drop)]
pub struct Taken {
    pub refused: Option<u64>,
    pub opened: Option<Opened>,
}

// The ticket that an event was answered, where a session typed it.
#[inline(always)]
fn ticket_of(event: &Event, head: &Head) -> Option<u32>
    ensures { result ≡ ticket_by event.now head.now }
{
    match (event, head) {
        (Event::Session { .. }, Head::Ticket(ticket)) => Some(*ticket),
        _ => None,
    }
}

// The zone that was found to be an event's.
#[inline(always)]
fn zone_of(whose: Whose) -> Option<ZoneName>
    ensures { result ≡ zone_by whose }
{
    match whose {
        Whose::Found(Subject::Zone(zone)) => Some(zone),
        _ => None,
    }
}

#[tactic(auto, using(crate::proofs::Putting::opened_parts))]
#[inline(always)]
fn find_opened(event: &Event, answer: Answer) -> Option<Opened>
    ensures { result ≡ opened (entry_by event.now answer) }
{
    match (ticket_of(event, &answer.reply.head), zone_of(answer.whose)) {
        (Some(ticket), Some(zone)) => Some(Opened { zone, ticket }),
        _ => None,
    }
}

// The first refused line, once a line of this number was answered.
#[inline(always)]
fn refused_by(refused: Option<u64>, number: u64, head: &Head) -> Option<u64>
    ensures { result ≡ refused_with refused number head.now }
{
    if is_refusal(head) {
        refused.or(Some(number))
    } else {
        refused
    }
}

/// What a line comes to whose event was answered.
#[inline(always)]
pub fn taken_from(refused: Option<u64>, number: u64, event: &Event, answer: Answer) -> Taken
    ensures { result ≡ taken_by refused number (entry_by event.now answer) }
{
    Taken {
        refused: refused_by(refused, number, &answer.reply.head),
        opened: find_opened(event, answer),
    }
}

// Whether a turn is the last one that is put in for a ticket: it answers the ticket, or the daemon doesn't get on.
fn is_last(ticket: u32, head: &Head) -> bool
    ensures { result ≡ is_last ticket head.now }
{
    match head {
        Head::Turned(TurnReply::Finished(finished, _)) => *finished == ticket,
        Head::Turned(TurnReply::Stuck | TurnReply::Idle) => true,
        _ => false,
    }
}

// The fault that ended a run, where nothing else may.
fn fault_in(stop: Stop) -> RunFault
    requires { IsFault stop }
    ensures { stop ≡ Stop.Fault result }
{
    match stop {
        Stop::Fault(fault) => fault,
        Stop::Grammar(_) | Stop::BadGrant | Stop::NoStore(_) => unreachable!(),
    }
}

// Gives a zone's daemon turns until its ticket is answered or a turn is stuck. They count for the line of this number.
fn until_answered<D: Disk, F: Fn(&Change) -> HookAnswer, K: Sink>(
    alloc: Global,
    telling: Telling,
    machine: &mut Machine<'_, D, F>,
    opened: Opened,
    number: u64,
    refused: Option<u64>,
    text: &mut Vec<u8>,
    waiting: &mut Vec<u8>,
    out: &mut K,
) -> Result<Option<u64>, RunFault>
    requires asks { AsksBrands F.Fn machine.old }
    requires ready { MayGoOn D.view machine.old }
    ensures went { (brands : List Tabled) (R : List Commit) (first : D) (held bytes input : Option (List ℕ)) → Follows (Mode.WithTurns telling) (puts_until 10000000 opened number) brands R (λ S. StandsFor S machine.old) (Left brands R (D.view first) (D.view machine.old.bank.disk)) refused (number + 1) held (after_known (K.holds out.old) waiting.old.items) bytes input
        → IfOk result (λ now. Follows (Mode.WithTurns telling) none_put brands R (λ S. StandsFor S machine.new) (Left brands R (D.view first) (D.view machine.new.bank.disk)) now (number + 1) held (after_known (K.holds out.new) waiting.new.items) bytes input) }
    ensures ended { (brands : List Tabled) (R : List Commit) (first : D) (held bytes input : Option (List ℕ)) → Follows (Mode.WithTurns telling) (puts_until 10000000 opened number) brands R (λ S. StandsFor S machine.old) (Left brands R (D.view first) (D.view machine.old.bank.disk)) refused (number + 1) held (after_known (K.holds out.old) waiting.old.items) bytes input
        → (left : Option (List ℕ)) → HasWritten held (K.holds out.old) → TakesPiece bytes left → IfErr result (λ fault. EndsAs (Mode.WithTurns telling) brands R (Err fault) input left held (K.holds out.new) (after_known (K.holds out.new) waiting.new.items)) }
    ensures recorded { (brands : List Tabled) (R : List Commit) (first : D) (held bytes input : Option (List ℕ)) → Follows (Mode.WithTurns telling) (puts_until 10000000 opened number) brands R (λ S. StandsFor S machine.old) (Left brands R (D.view first) (D.view machine.old.bank.disk)) refused (number + 1) held (after_known (K.holds out.old) waiting.old.items) bytes input
        → IsStoreOf (D.view first) R → IfErr result (λ fault. RanAs (Mode.WithTurns telling) brands R (Err fault) input held (after_known (K.holds out.new) waiting.new.items) (D.view first) (D.view machine.new.bank.disk)) }
    ensures written { HasWritten (K.holds out.old) (K.holds out.new) }
    ensures none { IsErrOf result RunFault.Write ⊎ IsErrOf result RunFault.Disk → waiting.new.items ≡ [] }
    ensures only { OnErr result (result ≢ Err RunFault.Read) }
    ensures write { IsErrOf result RunFault.Write → Rose (K.faults out.old) (K.faults out.new) }
    ensures disk { IsErrOf result RunFault.Disk → Rose (D.view machine.old.bank.disk).faults (D.view machine.new.bank.disk).faults }
    ensures later { K.faults out.old ≤ K.faults out.new }
    ensures ready { OnOk result (MayGoOn D.view machine.new) }
    ensures passes { Passes (D.view machine.old.bank.disk) (D.view machine.new.bank.disk) }
    ensures asks { AsksBrands F.Fn machine.new }
{
    let ticket = opened.ticket;
    let due = Due {
        event: Event::Turn { zone: opened.zone },
        stated: None,
    };
    let mut refused = refused;
    for given in 0..TURNS_MAX {
        match answer(
            alloc,
            &Mode::WithTurns(telling),
            machine,
            &due,
            text,
            waiting,
            out,
        ) {
            Ok(answer) => {
                refused = refused_by(refused, number, &answer.reply.head);
                if is_last(ticket, &answer.reply.head) {
                    return Ok(refused);
                }
            }
            Err(stop) => return Err(fault_in(stop)),
        }
    }
    Ok(refused)
}

/// Puts in the turns that follow a line, and answers the first line that is refused by now.
pub fn give_turns<D: Disk, F: Fn(&Change) -> HookAnswer, K: Sink>(
    alloc: Global,
    mode: &Mode,
    machine: &mut Machine<'_, D, F>,
    taken: Taken,
    number: u64,
    text: &mut Vec<u8>,
    waiting: &mut Vec<u8>,
    out: &mut K,
) -> Result<Option<u64>, RunFault>
    requires asks { AsksBrands F.Fn machine.old }
    requires ready { MayGoOn D.view machine.old }
    ensures went { (brands : List Tabled) (R : List Commit) (first : D) (held bytes input : Option (List ℕ)) → Follows mode.now (puts_after mode.now taken.opened number) brands R (λ S. StandsFor S machine.old) (Left brands R (D.view first) (D.view machine.old.bank.disk)) taken.refused (number + 1) held (after_known (K.holds out.old) waiting.old.items) bytes input
        → IfOk result (λ now. Follows mode.now none_put brands R (λ S. StandsFor S machine.new) (Left brands R (D.view first) (D.view machine.new.bank.disk)) now (number + 1) held (after_known (K.holds out.new) waiting.new.items) bytes input) }
    ensures ended { (brands : List Tabled) (R : List Commit) (first : D) (held bytes input : Option (List ℕ)) → Follows mode.now (puts_after mode.now taken.opened number) brands R (λ S. StandsFor S machine.old) (Left brands R (D.view first) (D.view machine.old.bank.disk)) taken.refused (number + 1) held (after_known (K.holds out.old) waiting.old.items) bytes input
        → (left : Option (List ℕ)) → HasWritten held (K.holds out.old) → TakesPiece bytes left → IfErr result (λ fault. EndsAs mode.now brands R (Err fault) input left held (K.holds out.new) (after_known (K.holds out.new) waiting.new.items)) }
    ensures recorded { (brands : List Tabled) (R : List Commit) (first : D) (held bytes input : Option (List ℕ)) → Follows mode.now (puts_after mode.now taken.opened number) brands R (λ S. StandsFor S machine.old) (Left brands R (D.view first) (D.view machine.old.bank.disk)) taken.refused (number + 1) held (after_known (K.holds out.old) waiting.old.items) bytes input
        → IsStoreOf (D.view first) R → IfErr result (λ fault. RanAs mode.now brands R (Err fault) input held (after_known (K.holds out.new) waiting.new.items) (D.view first) (D.view machine.new.bank.disk)) }
    ensures written { HasWritten (K.holds out.old) (K.holds out.new) }
    ensures none { IsErrOf result RunFault.Write ⊎ IsErrOf result RunFault.Disk → waiting.new.items ≡ [] }
    ensures only { OnErr result (result ≢ Err RunFault.Read) }
    ensures write { IsErrOf result RunFault.Write → Rose (K.faults out.old) (K.faults out.new) }
    ensures disk { IsErrOf result RunFault.Disk → Rose (D.view machine.old.bank.disk).faults (D.view machine.new.bank.disk).faults }
    ensures later { K.faults out.old ≤ K.faults out.new }
    ensures ready { OnOk result (MayGoOn D.view machine.new) }
    ensures passes { Passes (D.view machine.old.bank.disk) (D.view machine.new.bank.disk) }
    ensures asks { AsksBrands F.Fn machine.new }
{
    let Taken { refused, opened } = taken;
    match mode {
        Mode::Replies | Mode::Purged(_) | Mode::Stated => Ok(refused),
        Mode::WithTurns(telling) => match opened {
            Some(opened) => until_answered(
                alloc, *telling, machine, opened, number, refused, text, waiting, out,
            ),
            None => Ok(refused),
        },
    }
}
