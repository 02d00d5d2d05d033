//! An event is read, once: what it says, whose it is, and what it is answered where it is no zone's.
ghost use Rattle.std.specs.Prelude.{◌≡◌, IfOk, None, Some, Option};
ghost use Rattle.zone_machine.specs.Code.Reads.{IsRightRead, decide_read, global_read, held_subject, idle_subject, is_turn, is_turn_read, number_read, subject_in, subject_read};
ghost use Rattle.kernel_objects.specs.Shared.{pid_owner};
ghost use Rattle.zone_machine.specs.Code.Cells.{Stands};
ghost use Rattle.zone_machine.specs.Code.Shown_zones.{listed};
ghost use Rattle.process_calls.specs.Calls.{call_of};
ghost use Rattle.zone_cases.specs.State.Decisions.{says, told};
ghost use Rattle.zone_cases.specs.Code.Lines.{as_line, as_word};
ghost use Rattle.zone_machine.specs.Machine.{decide, global_reply, named_subject, session_number};
ghost use Rattle.zone_cases.specs.State.{State};
ghost use Rattle.zone_cases.specs.Session.Typed.{badly_entered, badly_named, global_help, global_line};
ghost use Rattle.zone_cases.specs.State.Worlds.{View};
ghost use Rattle.zone_cases.specs.declared.events.Subject.TheVariants.{Zone};
ghost use Rattle.zone_machine.specs.declared.machine.shared.Shared as shared_types;

use crate::machine::parts::Parts;
use crate::machine::shared::Shared;
use kernel_objects::{Errno, KernelShared};
use process_calls::{Call, CallFault, read_call};
use std::alloc::{AllocError, Global};
use zn_base::{Bytes, Listing, NameFault, ZoneName};
use zone_cases::{
    Body, Command, Declaration, Event, Head, Line, Options, Refusal, Reply, Subject, help, line_of,
};
use zoneadmd_steps::RequestKind;

/// An event as it is read, once: what a session types, a turn of a zone's daemon, a call of a zone's process, what the whole
/// system declares, or that it restarts.
#[derive(Clone, Copy)]
pub(crate) enum Read<'e> {
    Line(u8, Line<'e>),
    Turn(&'e ZoneName),
    Process(&'e ZoneName, u32, &'e Call),
    System(&'e Declaration),
    Restart,
}

/// An event is read.
#[tactic(auto, unfolding(crate::specs::Machine::decide))]
pub(crate) fn read_event(event: &Event) -> Read<'_>
    ensures subject { (s : shared_types.Shared) → subject_read s result ≡ subject_in s event.now }
    ensures decide { (v : View) → decide_read v result ≡ decide v event.now }
    ensures number { number_read result ≡ session_number event.now }
    ensures turn { is_turn_read result ≡ is_turn event.now }
    ensures right { IsRightRead result }
    ensures global { (S : State) → global_read S result ≡ global_reply S event.now }
{
    match event {
        Event::Session { number, text } => Read::Line(*number, line_of(text.bytes())),
        Event::Turn { zone } => Read::Turn(zone),
        Event::Process { zone, pid, call } => Read::Process(zone, *pid, call),
        Event::System(what) => Read::System(what),
        Event::Restart => Read::Restart,
    }
}

// The zone that a word names, or the global zone.
#[inline(never)]
fn named_subject(alloc: Global, word: Option<&[u8]>) -> Result<Subject, AllocError>
    ensures { IfOk result (λ subject. subject ≡ named_subject (as_word word.entry)) }
{
    let Some(word) = word else {
        return Ok(Subject::Global);
    };
    match ZoneName::read(alloc, word) {
        Ok(zone) => Ok(Subject::Zone(zone)),
        Err(NameFault::Memory) => Err(AllocError),
        Err(NameFault::Empty | NameFault::TooLong | NameFault::BadByte(_) | NameFault::Reserved) =>
            Ok(Subject::Global),
    }
}

// The zone that has a process, or the global zone.
#[inline(never)]
fn holder(kernel: &KernelShared, alloc: Global, pid: u32) -> Result<Subject, AllocError>
    ensures { IfOk result (λ subject. subject ≡ held_subject (pid_owner kernel.now pid)) }
{
    match kernel.owner(pid) {
        Some(zone) => Ok(Subject::Zone(zone.copy(alloc)?)),
        None => Ok(Subject::Global),
    }
}

// Whose a line of an idle session is: of the zone that has the process that it sends a signal to, else of the zone that it
// names.
fn idle_subject(kernel: &KernelShared, alloc: Global, line: Line<'_>) -> Result<Subject, AllocError>
    ensures { IfOk result (λ subject. subject ≡ idle_subject (as_line line.entry).zone kernel.now (as_line line.entry).command) }
{
    match line.command {
        Command::Kill(_, pid) => holder(kernel, alloc, pid),
        Command::Blank
        | Command::Edit
        | Command::Zonecfg(_)
        | Command::Request(_)
        | Command::Boot(_)
        | Command::Reboot(_)
        | Command::Move(_)
        | Command::Clone(_)
        | Command::Unforced
        | Command::Hold(_)
        | Command::Release(_)
        | Command::Login(_)
        | Command::Console(_)
        | Command::Enter(_)
        | Command::Help
        | Command::Verify
        | Command::ListOne(_)
        | Command::ListZones(_)
        | Command::Unknown => named_subject(alloc, line.zone),
    }
}

/// Whose an event is: the zone that its session does something in, else that of the process that its line sends a signal to, else
/// the zone that its line names.
pub(crate) fn subject(shared: &Shared, alloc: Global, read: Read<'_>) -> Result<Subject, AllocError>
    ensures { IfOk result (λ subject. subject ≡ subject_read shared.now read.entry) }
{
    match read {
        Read::Turn(zone) | Read::Process(zone, _, _) => Ok(Subject::Zone(zone.copy(alloc)?)),
        Read::Line(number, line) => match shared.sessions.owner(&number) {
            Some(zone) => Ok(Subject::Zone(zone.copy(alloc)?)),
            None => idle_subject(&shared.kernel, alloc, line),
        },
        Read::System(_) | Read::Restart => Ok(Subject::Whole),
    }
}

// Why a word names no zone.
fn badly_named(alloc: Global, word: Option<&[u8]>) -> Result<Refusal, AllocError>
    ensures { IfOk result (λ refusal. refusal ≡ badly_named (as_word word.entry)) }
{
    let Some(word) = word else {
        return Ok(Refusal::Usage);
    };
    match ZoneName::read(alloc, word) {
        Ok(_) => Ok(Refusal::Usage),
        Err(NameFault::Memory) => Err(AllocError),
        Err(fault) => Ok(Refusal::BadName(fault)),
    }
}

/// A reply without a body.
pub(crate) fn says(head: Head) -> Reply
    ensures { result ≡ says head }
{
    Reply {
        head,
        body: Body::Nothing,
    }
}

fn refused(refusal: Refusal) -> Reply
    ensures { result ≡ says (Head.Refused refusal) }
{
    says(Head::Refused(refusal))
}

/// A reply of lines.
pub(crate) fn told(lines: Listing<Bytes>) -> Reply
    ensures { result ≡ told (Body.Lines lines) }
{
    Reply {
        head: Head::Ok,
        body: Body::Lines(lines),
    }
}

// Why a call by zlogin(1) is refused that belongs to no zone: it is no call, or the name is at fault.
fn badly_entered(alloc: Global, text: &[u8], word: Option<&[u8]>) -> Result<Refusal, AllocError>
    ensures { IfOk result (λ r. r ≡ badly_entered (call_of text.now) (as_word word.entry)) }
{
    match read_call(alloc, text) {
        Ok(_) => badly_named(alloc, word),
        Err(CallFault::Memory) => Err(AllocError),
        Err(CallFault::BadWord(_)) => Ok(Refusal::Usage),
    }
}

// What a line is answered that asks for help and belongs to no zone.
fn global_help(alloc: Global, word: Option<&[u8]>) -> Result<Reply, AllocError>
    ensures { IfOk result (λ reply. reply ≡ global_help (as_word word.entry)) }
{
    if word.is_some() {
        return Ok(refused(badly_named(alloc, word)?));
    }
    Ok(told(help(alloc)?))
}

/// The options of a line that lists all zones.
pub(crate) fn listed_options(line: Line<'_>) -> Option<Options>
    ensures { result ≡ listed (as_line line.entry).command }
{
    match line.command {
        Command::ListZones(options) => Some(options),
        Command::Blank
        | Command::Edit
        | Command::Zonecfg(_)
        | Command::Request(_)
        | Command::Boot(_)
        | Command::Reboot(_)
        | Command::Move(_)
        | Command::Clone(_)
        | Command::Unforced
        | Command::Kill(_, _)
        | Command::Hold(_)
        | Command::Release(_)
        | Command::Login(_)
        | Command::Console(_)
        | Command::Enter(_)
        | Command::Help
        | Command::Verify
        | Command::ListOne(_)
        | Command::Unknown => None,
    }
}

/// What a line is answered that belongs to no zone and doesn't list all zones.
pub(crate) fn unlisted_line(alloc: Global, line: Line<'_>) -> Result<Reply, AllocError>
    requires { listed (as_line line).command ≡ None }
    ensures { IfOk result (λ reply. (S : State) → reply ≡ global_line S (as_line line.entry)) }
{
    match line.command {
        Command::Blank => Ok(says(Head::Ok)),
        Command::Help => global_help(alloc, line.zone),
        Command::Enter(text) => Ok(refused(badly_entered(alloc, text, line.zone)?)),
        Command::Unknown
        | Command::Request(
            RequestKind::Clone | RequestKind::Boot | RequestKind::Reboot | RequestKind::Move,
        ) => Ok(refused(Refusal::Usage)),
        Command::Kill(_, _) => Ok(refused(Refusal::Errno(Errno::ESRCH))),
        Command::Edit
        | Command::Zonecfg(_)
        | Command::Request(_)
        | Command::Boot(_)
        | Command::Reboot(_)
        | Command::Move(_)
        | Command::Clone(_)
        | Command::Unforced
        | Command::Hold(_)
        | Command::Release(_)
        | Command::Login(_)
        | Command::Console(_)
        | Command::Verify
        | Command::ListOne(_) => Ok(refused(badly_named(alloc, line.zone)?)),
        Command::ListZones(_) => unreachable!(),
    }
}

// What a line is answered that belongs to no zone.
fn global_line(alloc: Global, parts: &Parts, line: Line<'_>) -> Result<Reply, AllocError>
    ensures { IfOk result (λ reply. (S : State) → Stands S parts.now → reply ≡ global_line S (as_line line.entry)) }
{
    match listed_options(line) {
        Some(options) => Ok(told(parts.list_zones(alloc, options)?)),
        None => unlisted_line(alloc, line),
    }
}

/// What an event is answered that is no zone's.
pub(crate) fn global_reply(
    alloc: Global,
    parts: &Parts,
    read: Read<'_>,
) -> Result<Reply, AllocError>
    ensures { IfOk result (λ reply. (S : State) → Stands S parts.now → reply ≡ global_read S read.entry) }
{
    match read {
        Read::Line(_, line) => global_line(alloc, parts, line),
        Read::Turn(_) | Read::Process(_, _, _) | Read::System(_) | Read::Restart => Ok(says(
            Head::Ok,
        )),
    }
}
