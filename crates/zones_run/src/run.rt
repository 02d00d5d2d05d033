//! The top call of `zones`.
ghost use Rattle.std.specs.Prelude.{◌≡◌, ◌≢◌, ◌≤◌, ◌⊎◌, [], map, string_bytes, IfSome, List, None, Some};
ghost use Rattle.brand_hooks.specs.Brands.{Tabled, tables_of};
ghost use Rattle.brand_hooks.specs.Hooks.{AllFollow};
ghost use Rattle.commit_journal.specs.declared.records.Commit.{Commit};
ghost use Rattle.zn_io.specs.Streams.{Rose, TakesFront, after_known};
ghost use Rattle.zone_machine.specs.Code.Decided.{AsksBrands, MayGoOn};
ghost use Rattle.zone_machine.specs.Code.Openings.{Begins, StandsFor};
ghost use Rattle.zone_machine.specs.Code.Records.{Passes};
ghost use Rattle.zone_machine.specs.Machine.{opening};
ghost use Rattle.zone_machine.specs.Machine.Images.{IsStoreOf};
ghost use Rattle.zones_run.specs.Bulk.{RanBulk, bulked};
ghost use Rattle.zones_run.specs.Complaints.{complaint_status, complaint_text};
ghost use Rattle.zones_run.specs.Opening.{Finds, Found};
ghost use Rattle.zones_run.specs.Outcomes.{report_output};
ghost use Rattle.zones_run.specs.Output.{written};
ghost use Rattle.zones_run.specs.Program.{AnswersOn, AnswersOver, AnswersTrace, DoneOverSome, FindsStore, HasAnswered, HasRecorded, IsNoStore, OpensNothing, ReadsNothing, RecordsOver, RestartsNothing, done_on, done_over, output_of};
ghost use Rattle.zones_run.specs.Recording.{RanBy};
ghost use Rattle.zones_run.specs.Run.{HasFront, IsDecided, IsStatus, IsWhole, TakesFronts, TellsLine, TellsText, disk_fault_line, fault_status, memory_line, read_fault_line, write_fault_line};
ghost use Rattle.zones_run.specs.Words.{HasFewZones, command_of};
ghost use Rattle.zones_run.specs.Answering.{FindsAlways};
ghost use Rattle.zones_run.specs.Tracing.{traced};
ghost use Rattle.index_file.specs.Index.{index_text};
ghost use Rattle.zone_machine.specs.Machine.Indexed.{index_of};

use crate::bulk::{Report, report_bulk};
use crate::export::export_all;
use crate::fault::RunFault;
use crate::index::index_text;
use crate::outcome::{Complaint, Outcome};
use crate::status::{
    DISK_FAULT, DONE, NO_MEMORY, NOT_A_STORE, READ_FAULT, REFUSED, USAGE, WRITE_FAULT,
};
use crate::trace::trace_all;
use crate::words::{Command, HELP, Mode, Task, USAGE_LINE, VERSION, command_of};
use brand_hooks::{Brands, Change, HookAnswer};
use commit_journal::{StoreFault, opens_store_one_way};
use std::alloc::{AllocError, Global};
use zn_io::{Disk, Sink, Source, write_all};
use zone_machine::Machine;

/// Tries a line once; its failure changes nothing but the count of faults.
pub fn tell<E: Sink>(err: &mut E, line: &[u8])
    ensures front { TakesFront (E.holds err.old) (E.holds err.new) (E.faults err.old) (E.faults err.new) line.now }
    ensures later { E.faults err.old ≤ E.faults err.new }
{
    let _ = write_all(err, line);
}

/// Tells what ends a run on standard error, and answers the exit status.
pub fn fail<E: Sink>(err: &mut E, fault: RunFault) -> u8
    ensures status { result ≡ fault_status fault }
    ensures later { E.faults err.old ≤ E.faults err.new }
    ensures read { result ≡ READ_FAULT → (fault ≡ RunFault.Read) × TakesFront (E.holds err.old) (E.holds err.new) (E.faults err.old) (E.faults err.new) read_fault_line }
    ensures write { result ≡ WRITE_FAULT → (fault ≡ RunFault.Write) × TakesFront (E.holds err.old) (E.holds err.new) (E.faults err.old) (E.faults err.new) write_fault_line }
    ensures disk { result ≡ DISK_FAULT → (fault ≡ RunFault.Disk) × TakesFront (E.holds err.old) (E.holds err.new) (E.faults err.old) (E.faults err.new) disk_fault_line }
    ensures memory { result ≡ NO_MEMORY → (fault ≡ RunFault.Memory) × TakesFront (E.holds err.old) (E.holds err.new) (E.faults err.old) (E.faults err.new) memory_line }
{
    match fault {
        RunFault::Read => {
            tell(err, b"read fault\n");
            READ_FAULT
        }
        RunFault::Write => {
            tell(err, b"write fault\n");
            WRITE_FAULT
        }
        RunFault::Disk => {
            tell(err, b"disk fault\n");
            DISK_FAULT
        }
        RunFault::Memory => {
            tell(err, b"no memory\n");
            NO_MEMORY
        }
    }
}

// Writes a text on standard output.
#[tactic(auto, using(crate::proofs::Fronts::behind_nothing))]
fn write_text<K: Sink, E: Sink>(out: &mut K, err: &mut E, text: &[u8]) -> u8
    ensures statuses { (result ≡ DONE) ⊎ (result ≡ WRITE_FAULT) }
    ensures all { result ≡ DONE → K.holds out.new ≡ after_known (K.holds out.old) text.now }
    ensures quiet { result ≡ DONE → E.holds err.new ≡ E.holds err.old }
    ensures front { result ≡ WRITE_FAULT → HasFront (K.holds out.old) (K.holds out.new) text.now }
    ensures fault { result ≡ WRITE_FAULT → Rose (K.faults out.old) (K.faults out.new) }
    ensures told { result ≡ WRITE_FAULT → TakesFronts (E.holds err.old) (E.holds err.new) (E.faults err.old) (E.faults err.new) [] write_fault_line }
{
    match write_all(out, text) {
        Ok(()) => DONE,
        Err(_) => fail(err, RunFault::Write),
    }
}

/// Writes the line that ends a run. Where a refusal can't be written, that is a write fault.
pub fn complain<E: Sink>(alloc: Global, err: &mut E, complaint: Complaint) -> u8
    ensures statuses { (result ≡ complaint_status complaint) ⊎ (result ≡ WRITE_FAULT) ⊎ (result ≡ NO_MEMORY) }
    ensures refused { result ≡ REFUSED → E.holds err.new ≡ after_known (E.holds err.old) (complaint_text complaint) }
    ensures line { IsDecided result → TakesFront (E.holds err.old) (E.holds err.new) (E.faults err.old) (E.faults err.new) (complaint_text complaint) }
    ensures memory { result ≡ NO_MEMORY → TakesFront (E.holds err.old) (E.holds err.new) (E.faults err.old) (E.faults err.new) memory_line }
    ensures fault { result ≡ WRITE_FAULT → Rose (E.faults err.old) (E.faults err.new) }
    ensures told { result ≡ WRITE_FAULT → TakesFronts (E.holds err.old) (E.holds err.new) (E.faults err.old) (E.faults err.new) (complaint_text complaint) write_fault_line }
{
    let Ok(line) = complaint.line(alloc) else {
        return fail(err, RunFault::Memory);
    };
    if complaint.status() != REFUSED {
        tell(err, &line);
        return complaint.status();
    }
    match write_all(err, &line) {
        Ok(()) => REFUSED,
        Err(_) => fail(err, RunFault::Write),
    }
}

// The commands `trace`, `script`, `purge` and `given`, on a machine that is opened.
fn run_lines<S: Source, K: Sink, E: Sink, D: Disk, F: Fn(&Change) -> HookAnswer>(
    alloc: Global,
    mode: &Mode,
    machine: &mut Machine<'_, D, F>,
    src: &mut S,
    out: &mut K,
    err: &mut E,
) -> u8
    requires asks { AsksBrands F.Fn machine.old }
    requires ready { MayGoOn D.view machine.old }
    ensures statuses { IsStatus result }
    ensures usage { result ≢ USAGE }
    ensures store { (D.view machine.old.bank.disk).Keeps → result ≢ NOT_A_STORE }
    ensures text { (brands : List Tabled) (R : List Commit) → StandsFor (opening brands R) machine.old → FindsAlways mode.now (D.view machine.old.bank.disk) (S.left src.old) → IfSome (S.left src.old) (λ bytes. TellsText (traced mode.now brands R bytes) result (K.holds out.old) (K.holds out.new)) }
    ensures line { (brands : List Tabled) (R : List Commit) → StandsFor (opening brands R) machine.old → FindsAlways mode.now (D.view machine.old.bank.disk) (S.left src.old) → IfSome (S.left src.old) (λ bytes. TellsLine (traced mode.now brands R bytes).err result (E.holds err.old) (E.holds err.new) (E.faults err.old) (E.faults err.new)) }
    ensures answered { (brands : List Tabled) (R : List Commit) → StandsFor (opening brands R) machine.old → FindsAlways mode.now (D.view machine.old.bank.disk) (S.left src.old) → AnswersTrace mode.now brands R result (S.left src.old) (S.left src.new) (K.holds out.old) (K.holds out.new) }
    ensures recorded { (brands : List Tabled) (R : List Commit) → StandsFor (opening brands R) machine.old → IsStoreOf (D.view machine.old.bank.disk) R → RanBy mode.now brands R result (S.left src.old) (K.holds out.old) (K.holds out.new) (D.view machine.old.bank.disk) (D.view machine.new.bank.disk) }
    ensures read_fault { result ≡ READ_FAULT → Rose (S.faults src.old) (S.faults src.new) }
    ensures read_line { result ≡ READ_FAULT → TakesFront (E.holds err.old) (E.holds err.new) (E.faults err.old) (E.faults err.new) read_fault_line }
    ensures write_fault { result ≡ WRITE_FAULT → Rose (K.faults out.old) (K.faults out.new) ⊎ Rose (E.faults err.old) (E.faults err.new) }
    ensures disk_fault { result ≡ DISK_FAULT → Rose (D.view machine.old.bank.disk).faults (D.view machine.new.bank.disk).faults }
    ensures disk_line { result ≡ DISK_FAULT → TakesFront (E.holds err.old) (E.holds err.new) (E.faults err.old) (E.faults err.new) disk_fault_line }
    ensures memory_line { result ≡ NO_MEMORY → TakesFront (E.holds err.old) (E.holds err.new) (E.faults err.old) (E.faults err.new) memory_line }
    ensures passes { Passes (D.view machine.old.bank.disk) (D.view machine.new.bank.disk) }
{
    match trace_all(alloc, mode, machine, src, out) {
        Ok(None) => DONE,
        Ok(Some(complaint)) => complain(alloc, err, complaint),
        Err(fault) => fail(err, fault),
    }
}

// The command `index`, on a machine that is opened.
fn run_index<K: Sink, E: Sink, D: Disk, F: Fn(&Change) -> HookAnswer>(
    alloc: Global,
    machine: &Machine<'_, D, F>,
    out: &mut K,
    err: &mut E,
) -> u8
    requires stands { (brands : List Tabled) × Begins brands machine.now }
    requires ready { MayGoOn D.view machine.now }
    ensures statuses { (result ≡ DONE) ⊎ (result ≡ WRITE_FAULT) ⊎ (result ≡ NO_MEMORY) }
    ensures text { (brands : List Tabled) (R : List Commit) → StandsFor (opening brands R) machine.now → TellsText (written (index_text (index_of R))) result (K.holds out.old) (K.holds out.new) }
    ensures line { TellsLine [] result (E.holds err.old) (E.holds err.new) (E.faults err.old) (E.faults err.new) }
    ensures nothing { result ≡ NO_MEMORY → K.holds out.new ≡ K.holds out.old }
    ensures write_fault { result ≡ WRITE_FAULT → Rose (K.faults out.old) (K.faults out.new) }
    ensures memory_line { result ≡ NO_MEMORY → TakesFront (E.holds err.old) (E.holds err.new) (E.faults err.old) (E.faults err.new) memory_line }
{
    match index_text(alloc, machine) {
        Ok(text) => write_text(out, err, &text),
        Err(AllocError) => fail(err, RunFault::Memory),
    }
}

// Writes both texts of a report.
fn write_report<K: Sink, E: Sink>(out: &mut K, err: &mut E, report: &Report) -> u8
    requires low { report.now.status ≤ REFUSED }
    ensures statuses { (result ≡ report.now.status) ⊎ (result ≡ WRITE_FAULT) }
    ensures text { TellsText (report_output report.now) result (K.holds out.old) (K.holds out.new) }
    ensures line { TellsLine report.now.err.items result (E.holds err.old) (E.holds err.new) (E.faults err.old) (E.faults err.new) }
    ensures fault { result ≡ WRITE_FAULT → Rose (K.faults out.old) (K.faults out.new) ⊎ Rose (E.faults err.old) (E.faults err.new) }
{
    match write_all(out, &report.out) {
        Ok(()) => match write_all(err, &report.err) {
            Ok(()) => report.status,
            Err(_) => fail(err, RunFault::Write),
        },
        Err(_) => fail(err, RunFault::Write),
    }
}

// The command `bulk`, on a machine that is opened.
fn run_bulk<K: Sink, E: Sink, D: Disk, F: Fn(&Change) -> HookAnswer>(
    alloc: Global,
    zones: u64,
    machine: &mut Machine<'_, D, F>,
    out: &mut K,
    err: &mut E,
) -> u8
    requires few { zones ≤ 256 }
    requires asks { AsksBrands F.Fn machine.old }
    requires ready { MayGoOn D.view machine.old }
    requires stands { (brands : List Tabled) × Begins brands machine.old }
    ensures statuses { (result ≤ REFUSED) ⊎ ((result ≡ WRITE_FAULT) ⊎ ((result ≡ DISK_FAULT) ⊎ (result ≡ NO_MEMORY))) }
    ensures text { (brands : List Tabled) (R : List Commit) → StandsFor (opening brands R) machine.old → TellsText (bulked zones brands R) result (K.holds out.old) (K.holds out.new) }
    ensures line { (brands : List Tabled) (R : List Commit) → StandsFor (opening brands R) machine.old → TellsLine (bulked zones brands R).err result (E.holds err.old) (E.holds err.new) (E.faults err.old) (E.faults err.new) }
    ensures nothing { (result ≡ NO_MEMORY) ⊎ (result ≡ DISK_FAULT) → K.holds out.new ≡ K.holds out.old }
    ensures recorded { (brands : List Tabled) (R : List Commit) → StandsFor (opening brands R) machine.old → IsStoreOf (D.view machine.old.bank.disk) R → RanBulk zones brands R (IsWhole result) (result ≡ DISK_FAULT) (D.view machine.old.bank.disk) (D.view machine.new.bank.disk) }
    ensures write_fault { result ≡ WRITE_FAULT → Rose (K.faults out.old) (K.faults out.new) ⊎ Rose (E.faults err.old) (E.faults err.new) }
    ensures disk_fault { result ≡ DISK_FAULT → Rose (D.view machine.old.bank.disk).faults (D.view machine.new.bank.disk).faults }
    ensures disk_line { result ≡ DISK_FAULT → TakesFront (E.holds err.old) (E.holds err.new) (E.faults err.old) (E.faults err.new) disk_fault_line }
    ensures memory_line { result ≡ NO_MEMORY → TakesFront (E.holds err.old) (E.holds err.new) (E.faults err.old) (E.faults err.new) memory_line }
    ensures passes { Passes (D.view machine.old.bank.disk) (D.view machine.new.bank.disk) }
{
    match report_bulk(alloc, zones, machine) {
        Ok(report) => write_report(out, err, &report),
        Err(fault) => fail(err, fault),
    }
}

// What a command does on a machine that is opened.
fn run_task<S: Source, K: Sink, E: Sink, D: Disk, F: Fn(&Change) -> HookAnswer>(
    alloc: Global,
    task: &Task,
    machine: &mut Machine<'_, D, F>,
    src: &mut S,
    out: &mut K,
    err: &mut E,
) -> u8
    requires few { HasFewZones task.now }
    requires asks { AsksBrands F.Fn machine.old }
    requires ready { MayGoOn D.view machine.old }
    requires stands { (brands : List Tabled) × Begins brands machine.old }
    ensures statuses { IsStatus result }
    ensures usage { result ≢ USAGE }
    ensures store { (D.view machine.old.bank.disk).Keeps → result ≢ NOT_A_STORE }
    ensures text { (brands : List Tabled) (R : List Commit) → StandsFor (opening brands R) machine.old → FindsStore task.now (D.view machine.old.bank.disk) (S.left src.old) → IfSome (done_over task.now brands R (S.left src.old)) (λ o. TellsText o result (K.holds out.old) (K.holds out.new)) }
    ensures line { (brands : List Tabled) (R : List Commit) → StandsFor (opening brands R) machine.old → FindsStore task.now (D.view machine.old.bank.disk) (S.left src.old) → IfSome (done_over task.now brands R (S.left src.old)) (λ o. TellsLine o.err result (E.holds err.old) (E.holds err.new) (E.faults err.old) (E.faults err.new)) }
    ensures answered { (brands : List Tabled) (R : List Commit) → StandsFor (opening brands R) machine.old → FindsStore task.now (D.view machine.old.bank.disk) (S.left src.old) → AnswersOver task.now brands R result (S.left src.old) (S.left src.new) (K.holds out.old) (K.holds out.new) }
    ensures unread { ReadsNothing (Some (Command.OnStore task.now)) → src.new ≡ src.old }
    ensures recorded { (brands : List Tabled) (R : List Commit) → StandsFor (opening brands R) machine.old → IsStoreOf (D.view machine.old.bank.disk) R → RecordsOver task.now brands R result (S.left src.old) (K.holds out.old) (K.holds out.new) (D.view machine.old.bank.disk) (D.view machine.new.bank.disk) }
    ensures read_fault { result ≡ READ_FAULT → Rose (S.faults src.old) (S.faults src.new) }
    ensures read_line { result ≡ READ_FAULT → TakesFront (E.holds err.old) (E.holds err.new) (E.faults err.old) (E.faults err.new) read_fault_line }
    ensures write_fault { result ≡ WRITE_FAULT → Rose (K.faults out.old) (K.faults out.new) ⊎ Rose (E.faults err.old) (E.faults err.new) }
    ensures disk_fault { result ≡ DISK_FAULT → Rose (D.view machine.old.bank.disk).faults (D.view machine.new.bank.disk).faults }
    ensures disk_line { result ≡ DISK_FAULT → TakesFront (E.holds err.old) (E.holds err.new) (E.faults err.old) (E.faults err.new) disk_fault_line }
    ensures memory_line { result ≡ NO_MEMORY → TakesFront (E.holds err.old) (E.holds err.new) (E.faults err.old) (E.faults err.new) memory_line }
    ensures passes { Passes (D.view machine.old.bank.disk) (D.view machine.new.bank.disk) }
{
    match task {
        Task::Run(mode) => run_lines(alloc, mode, machine, src, out, err),
        Task::Index => run_index(alloc, machine, out, err),
        Task::Bulk(zones) => run_bulk(alloc, *zones, machine, out, err),
    }
}

// A command over the store: the machine is opened on the disk, which is handed back however that ends.
fn run_on_store<S: Source, K: Sink, E: Sink, D: Disk, F: Fn(&Change) -> HookAnswer>(
    alloc: Global,
    task: &Task,
    src: &mut S,
    out: &mut K,
    err: &mut E,
    disk: D,
    brands: &Brands<F>,
) -> (u8, D)
    requires follow { AllFollow F.Fn brands.now }
    requires few { HasFewZones task.now }
    ensures statuses { IsStatus result.0 }
    ensures usage { result.0 ≢ USAGE }
    ensures text { (found : Found) → Finds (D.view disk) found → IfSome (done_on task.now (tables_of brands.now) found (S.left src.old)) (λ o. TellsText o result.0 (K.holds out.old) (K.holds out.new)) }
    ensures line { (found : Found) → Finds (D.view disk) found → IfSome (done_on task.now (tables_of brands.now) found (S.left src.old)) (λ o. TellsLine o.err result.0 (E.holds err.old) (E.holds err.new) (E.faults err.old) (E.faults err.new)) }
    ensures answered { (found : Found) → Finds (D.view disk) found → AnswersOn task.now (tables_of brands.now) found result.0 (S.left src.old) (S.left src.new) (K.holds out.old) (K.holds out.new) }
    ensures any_disk { RestartsNothing task.now (S.left src.old) → DoneOverSome task.now (tables_of brands.now) result.0 (S.left src.old) (S.left src.new) (K.holds out.old) (K.holds out.new) (E.holds err.old) (E.holds err.new) (E.faults err.old) (E.faults err.new) }
    ensures unread { ReadsNothing (Some (Command.OnStore task.now)) → src.new ≡ src.old }
    ensures store { result.0 ≡ NOT_A_STORE → (D.view disk).Keeps → IsNoStore (D.view disk) }
    ensures recorded { (R : List Commit) → IsStoreOf (D.view disk) R → RecordsOver task.now (tables_of brands.now) R result.0 (S.left src.old) (K.holds out.old) (K.holds out.new) (D.view disk) (D.view result.1) }
    ensures read_fault { result.0 ≡ READ_FAULT → Rose (S.faults src.old) (S.faults src.new) }
    ensures read_line { result.0 ≡ READ_FAULT → TakesFront (E.holds err.old) (E.holds err.new) (E.faults err.old) (E.faults err.new) read_fault_line }
    ensures write_fault { result.0 ≡ WRITE_FAULT → Rose (K.faults out.old) (K.faults out.new) ⊎ Rose (E.faults err.old) (E.faults err.new) }
    ensures disk_fault { result.0 ≡ DISK_FAULT → Rose (D.view disk).faults (D.view result.1).faults }
    ensures disk_line { result.0 ≡ DISK_FAULT → TakesFront (E.holds err.old) (E.holds err.new) (E.faults err.old) (E.faults err.new) disk_fault_line }
    ensures memory_line { result.0 ≡ NO_MEMORY → TakesFront (E.holds err.old) (E.holds err.new) (E.faults err.old) (E.faults err.new) memory_line }
{
    // A law: an image stands for the records of one store, or for none.
    opens_store_one_way();
    match Machine::open(alloc, disk, brands) {
        Ok(opened) => {
            let mut machine = opened;
            let status = run_task(alloc, task, &mut machine, src, out, err);
            (status, machine.into_disk())
        }
        Err((StoreFault::Memory, disk)) => (fail(err, RunFault::Memory), disk),
        Err((StoreFault::DiskFault, disk)) => (fail(err, RunFault::Disk), disk),
        Err((fault, disk)) => (complain(alloc, err, Complaint::NotAStore(fault)), disk),
    }
}

/// Does what the words say, and answers the exit status and the disk. `out` and `err` are standard output and
/// standard error. Lines are answered one at a time, up to the one that ends the run, and less than a piece of
/// the input is read beyond it. `trace`, `script`, `purge`, `given`, `bulk` and `index` open the store on the disk; what waits to be
/// written is written before a record is stored.
pub fn run_zones<S: Source, K: Sink, E: Sink, D: Disk, F: Fn(&Change) -> HookAnswer>(
    alloc: Global,
    words: &[String],
    src: &mut S,
    out: &mut K,
    err: &mut E,
    disk: D,
    brands: &Brands<F>,
) -> (u8, D)
    requires { AllFollow F.Fn brands.now }
    ensures statuses { IsStatus result.0 }

    // As far as the disk and the input are known, the status and both texts are those of the whole input.
    ensures text { (found : Found) → Finds (D.view disk) found → IfSome (output_of (tables_of brands.now) (map string_bytes words.now) found (S.left src.old)) (λ o.
        TellsText o result.0 (K.holds out.old) (K.holds out.new)) }
    ensures line { (found : Found) → Finds (D.view disk) found → IfSome (output_of (tables_of brands.now) (map string_bytes words.now) found (S.left src.old)) (λ o.
        TellsLine o.err result.0 (E.holds err.old) (E.holds err.new) (E.faults err.old) (E.faults err.new)) }

    // What is taken of the input: lines that don't end the run, and less than a piece beyond the one that does. Where a fault
    // ended the run, what was written are the replies of lines that were taken.
    ensures answered { (found : Found) → Finds (D.view disk) found →
        HasAnswered (tables_of brands.now) (command_of (map string_bytes words.now)) found result.0 (S.left src.old) (S.left src.new) (K.holds out.old) (K.holds out.new) }

    // Whatever the disk is, a command over the store that restarts nothing is answered as one over the store of some commits, or cut
    // before its first line: then nothing was taken and written, and the status is none of a whole run.
    ensures any_disk { (task : Task) → command_of (map string_bytes words.now) ≡ Some (Command.OnStore task) → RestartsNothing task (S.left src.old) →
        DoneOverSome task (tables_of brands.now) result.0 (S.left src.old) (S.left src.new) (K.holds out.old) (K.holds out.new) (E.holds err.old) (E.holds err.new) (E.faults err.old) (E.faults err.new) }

    // Where no command reads its input, none of it is taken.
    ensures unread { ReadsNothing (command_of (map string_bytes words.now)) → src.new ≡ src.old }

    // Status 2 comes exactly where the words are no form of the command line.
    ensures usage { result.0 ≡ USAGE → command_of (map string_bytes words.now) ≡ None }
    ensures form { command_of (map string_bytes words.now) ≡ None → result.0 ≡ USAGE }

    // The source failed.
    ensures read_fault { result.0 ≡ READ_FAULT → Rose (S.faults src.old) (S.faults src.new) }
    ensures read_line { result.0 ≡ READ_FAULT → TakesFront (E.holds err.old) (E.holds err.new) (E.faults err.old) (E.faults err.new) read_fault_line }

    // A sink failed.
    ensures write_fault { result.0 ≡ WRITE_FAULT → Rose (K.faults out.old) (K.faults out.new) ⊎ Rose (E.faults err.old) (E.faults err.new) }

    // The disk failed.
    ensures disk_fault { result.0 ≡ DISK_FAULT → Rose (D.view disk).faults (D.view result.1).faults }
    ensures disk_line { result.0 ≡ DISK_FAULT → TakesFront (E.holds err.old) (E.holds err.new) (E.faults err.old) (E.faults err.new) disk_fault_line }

    // What is on the disk is no store, at the start or at a restart. At a restart that is so on no disk that keeps to its model.
    ensures store { result.0 ≡ NOT_A_STORE → (D.view disk).Keeps → IsNoStore (D.view disk) }

    // Memory ran out.
    ensures memory_line { result.0 ≡ NO_MEMORY → TakesFront (E.holds err.old) (E.holds err.new) (E.faults err.old) (E.faults err.new) memory_line }

    // What a crash leaves at any moment meanwhile, and what is on the disk at the end.
    ensures recorded { (R : List Commit) → IsStoreOf (D.view disk) R →
        HasRecorded (tables_of brands.now) (command_of (map string_bytes words.now)) R result.0 (S.left src.old) (K.holds out.old) (K.holds out.new) (D.view disk) (D.view result.1) }
    ensures untouched { OpensNothing (command_of (map string_bytes words.now)) → result.1 ≡ disk }
{
    let command = match command_of(alloc, words) {
        Ok(command) => command,
        Err(AllocError) => return (fail(err, RunFault::Memory), disk),
    };
    match command {
        Some(Command::Export) => match export_all(alloc, src) {
            Ok(Outcome::Text(text)) => (write_text(out, err, &text), disk),
            Ok(Outcome::Complains(complaint)) => (complain(alloc, err, complaint), disk),
            Err(fault) => (fail(err, RunFault::from(fault)), disk),
        },
        Some(Command::OnStore(task)) => run_on_store(alloc, &task, src, out, err, disk, brands),
        Some(Command::Help) => (write_text(out, err, HELP), disk),
        Some(Command::Version) => (write_text(out, err, VERSION), disk),
        None => {
            tell(err, USAGE_LINE);
            (USAGE, disk)
        }
    }
}
