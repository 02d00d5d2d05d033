//! How a run of live sessions is told: its record, and the line and the status that it ends with.
ghost use Rattle.std.specs.Prelude.{◌≡◌, ◌≢◌, ◌⊎◌, ◌++◌, [], IfSome, None, Some};
ghost use Rattle.zn_io.specs.Streams.{Rose, TakesFront};
ghost use Rattle.zones_live.specs.Living.{IsDone};
ghost use Rattle.zones_live.specs.Records.{record_text, told_record, told_refused};
ghost use Rattle.zones_run.specs.Complaints.{complaint_status, complaint_text};
ghost use Rattle.zones_run.specs.Run.{HasFront, IsDecided, TellsLine, TellsText, disk_fault_line, fault_status, memory_line};

use crate::record::Record;
use crate::writing::write_record;
use std::alloc::{AllocError, Global};
use zn_io::Sink;
use zone_cases::Entry;
use zone_machine::StepFault;
use zone_threads::History;
use zones_run::{
    Complaint, DISK_FAULT, DONE, NO_MEMORY, RunFault, WRITE_FAULT, complain, fail, tell,
};

/// Tells what ends a run before anything is done, and answers the exit status. Whether the line is taken is not asked.
pub(crate) fn tell_ending<E: Sink>(alloc: Global, err: &mut E, complaint: Complaint) -> u8
    ensures statuses { (result ≡ complaint_status complaint) ⊎ (result ≡ NO_MEMORY) }
    ensures line { result ≢ NO_MEMORY → TakesFront (E.holds err.old) (E.holds err.new) (E.faults err.old) (E.faults err.new) (complaint_text complaint) }
    ensures memory { result ≡ NO_MEMORY → TakesFront (E.holds err.old) (E.holds err.new) (E.faults err.old) (E.faults err.new) memory_line }
{
    match complaint.line(alloc) {
        Ok(line) => {
            tell(err, &line);
            complaint.status()
        }
        Err(AllocError) => fail(err, RunFault::Memory),
    }
}

// Tells the first refused entry, if there is one.
fn tell_refused<E: Sink>(alloc: Global, err: &mut E, refused: Option<u64>) -> u8
    ensures statuses { IsDone result ⊎ (result ≡ NO_MEMORY) }
    ensures decided { IsDecided result → result ≡ (told_refused [] refused).status }
    ensures line { TellsLine (told_refused [] refused).err result (E.holds err.old) (E.holds err.new) (E.faults err.old) (E.faults err.new) }
    ensures write_fault { result ≡ WRITE_FAULT → Rose (E.faults err.old) (E.faults err.new) }
    ensures memory { result ≡ NO_MEMORY → TakesFront (E.holds err.old) (E.holds err.new) (E.faults err.old) (E.faults err.new) memory_line }
{
    match refused {
        None => DONE,
        Some(number) => complain(alloc, err, Complaint::FirstRefusedEntry(number)),
    }
}

// A whole record is written, and its first refused entry told.
fn tell_whole<K: Sink, E: Sink>(alloc: Global, out: &mut K, err: &mut E, entries: Record) -> u8
    ensures statuses { IsDone result ⊎ (result ≡ NO_MEMORY) }
    ensures text { TellsText (told_record entries) result (K.holds out.old) (K.holds out.new) }
    ensures line { TellsLine (told_record entries).err result (E.holds err.old) (E.holds err.new) (E.faults err.old) (E.faults err.new) }
    ensures front { HasFront (K.holds out.old) (K.holds out.new) (record_text entries) }
    ensures write_fault { result ≡ WRITE_FAULT → Rose (K.faults out.old) (K.faults out.new) ⊎ Rose (E.faults err.old) (E.faults err.new) }
    ensures memory { result ≡ NO_MEMORY → TakesFront (E.holds err.old) (E.holds err.new) (E.faults err.old) (E.faults err.new) memory_line }
{
    match write_record(alloc, out, entries) {
        Ok(refused) => tell_refused(alloc, err, refused),
        Err(fault) => fail(err, fault),
    }
}

// A part of a record is written, as far as it can be, and what ended it told.
fn tell_part<K: Sink, E: Sink>(
    alloc: Global,
    out: &mut K,
    err: &mut E,
    entries: Record,
    fault: RunFault,
) -> u8
    ensures status { result ≡ fault_status fault }
    ensures front { HasFront (K.holds out.old) (K.holds out.new) (record_text entries) }
    ensures disk { result ≡ DISK_FAULT → TakesFront (E.holds err.old) (E.holds err.new) (E.faults err.old) (E.faults err.new) disk_fault_line }
    ensures memory { result ≡ NO_MEMORY → TakesFront (E.holds err.old) (E.holds err.new) (E.faults err.old) (E.faults err.new) memory_line }
{
    let _ = write_record(alloc, out, entries);
    fail(err, fault)
}

// What ended sessions, as what ends a run.
fn run_fault(fault: StepFault) -> RunFault
    requires { (fault ≡ StepFault.Memory) ⊎ (fault ≡ StepFault.DiskFault) }
    ensures memory { fault ≡ StepFault.Memory → result ≡ RunFault.Memory }
    ensures disk { fault ≡ StepFault.DiskFault → result ≡ RunFault.Disk }
{
    match fault {
        StepFault::Memory => RunFault::Memory,
        StepFault::DiskFault => RunFault::Disk,
        _ => unreachable!(),
    }
}

/// Writes the record of what was declared and of what sessions left, and tells how the run ended.
pub(crate) fn tell_live<K: Sink, E: Sink>(
    alloc: Global,
    out: &mut K,
    err: &mut E,
    declared: Vec<Entry>,
    lived: History<Entry>,
    ended: Option<StepFault>,
) -> u8
    requires only { IfSome ended (λ fault. (fault ≡ StepFault.Memory) ⊎ (fault ≡ StepFault.DiskFault)) }
    ensures statuses { IsDone result ⊎ ((result ≡ NO_MEMORY) ⊎ (result ≡ DISK_FAULT)) }
    ensures whole { IsDone result → ended ≡ None }
    ensures text { ended ≡ None → TellsText (told_record (declared.items ++ lived)) result (K.holds out.old) (K.holds out.new) }
    ensures line { ended ≡ None → TellsLine (told_record (declared.items ++ lived)).err result (E.holds err.old) (E.holds err.new) (E.faults err.old) (E.faults err.new) }
    ensures front { HasFront (K.holds out.old) (K.holds out.new) (record_text (declared.items ++ lived)) }
    ensures write_fault { result ≡ WRITE_FAULT → Rose (K.faults out.old) (K.faults out.new) ⊎ Rose (E.faults err.old) (E.faults err.new) }
    ensures disk { result ≡ DISK_FAULT → ended ≡ Some StepFault.DiskFault }
    ensures disk_line { result ≡ DISK_FAULT → TakesFront (E.holds err.old) (E.holds err.new) (E.faults err.old) (E.faults err.new) disk_fault_line }
    ensures settled { result ≡ NO_MEMORY → ended ≢ Some StepFault.DiskFault }
    ensures memory { result ≡ NO_MEMORY → TakesFront (E.holds err.old) (E.holds err.new) (E.faults err.old) (E.faults err.new) memory_line }
{
    let entries = Record::new(declared, lived);
    match ended {
        None => tell_whole(alloc, out, err, entries),
        Some(fault) => tell_part(alloc, out, err, entries, run_fault(fault)),
    }
}
