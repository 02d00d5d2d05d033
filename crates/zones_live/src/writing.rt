//! The record is written as it is taken, and its first refused entry is found.
ghost use Rattle.std.specs.Prelude.{◌≡◌, ◌⊎◌, ◌+◌, ◌≤◌, ◌++◌, ◌∷◌, ℕ, List, [], Option, Err, IfErr, IfOk, IsErrOf, OnErr, OnOk};
ghost use Rattle.trace_text.specs.Live.{entry_text};
ghost use Rattle.zone_cases.specs.declared.events.Entry.{Entry};
ghost use Rattle.zn_io.specs.Streams.{Rose, after_known};
ghost use Rattle.zones_live.specs.Records.{first_refused, record_text, refused_at};
ghost use Rattle.zones_live.specs.Writing.{IsTold, Waits};
ghost use Rattle.zones_run.specs.Run.{HasFront};

use crate::record::Record;
use std::alloc::{AllocError, Global};
use trace_text::push_entry;
use zn_io::{Sink, write_all};
use zone_cases::Entry;
use zones_run::{RunFault, is_refusal};

// How many bytes may wait before they are written.
const WAITING_MAX: usize = 16384;

// What of a record is told so far: the bytes that wait to be written, how many entries were taken, and the number of the first one that
// is refused. They are numbered from 1.
#[derive(Drop)]
struct Progress {
    waiting: Vec<u8>,
    taken: u64,
    refused: Option<u64>,
}

// Writes the bytes that wait. None waits then; where standard output fails, a front of them was taken.
fn write_waiting<K: Sink>(waiting: &mut Vec<u8>, out: &mut K) -> Result<(), RunFault>
    ensures all { OnOk result (K.holds out.new ≡ after_known (K.holds out.old) waiting.old.items) }
    ensures none { waiting.new.items ≡ [] }
    ensures front { OnErr result (HasFront (K.holds out.old) (K.holds out.new) waiting.old.items) }
    ensures fault { OnErr result ((result ≡ Err RunFault.Write) × Rose (K.faults out.old) (K.faults out.new)) }
    ensures later { K.faults out.old ≤ K.faults out.new }
{
    let written = write_all(out, waiting);
    waiting.clear();
    match written {
        Ok(()) => Ok(()),
        Err(_) => Err(RunFault::Write),
    }
}

// An entry's text waits behind what waits. Where many bytes do, all are written.
fn put_entry<K: Sink>(waiting: &mut Vec<u8>, out: &mut K, entry: &Entry) -> Result<(), RunFault>
    ensures waits { OnOk result (Waits (K.holds out.old) (K.holds out.new) waiting.new.items (waiting.old.items ++ entry_text entry.now)) }
    ensures front { OnErr result (HasFront (K.holds out.old) (K.holds out.new) (waiting.old.items ++ entry_text entry.now)) }
    ensures only { IfErr result (λ fault. (fault ≡ RunFault.Memory) ⊎ (fault ≡ RunFault.Write)) }
    ensures fault { IsErrOf result RunFault.Write → Rose (K.faults out.old) (K.faults out.new) }
    ensures later { K.faults out.old ≤ K.faults out.new }
{
    if let Err(AllocError) = push_entry(waiting, entry) {
        return Err(RunFault::Memory);
    }
    if waiting.len() < WAITING_MAX {
        return Ok(());
    }
    write_waiting(waiting, out)
}

// Numbers an entry, and notes whether it is the first refused one. There is no number for more entries than memory can hold.
fn note_entry(progress: &mut Progress, entry: &Entry) -> Result<(), RunFault>
    ensures waiting { progress.new.waiting ≡ progress.old.waiting }
    ensures taken { OnOk result (progress.new.taken ≡ progress.old.taken + 1) }
    ensures refused { OnOk result (progress.new.refused ≡ refused_at progress.old.refused (progress.old.taken + 1) entry.now) }
    ensures fault { OnErr result (result ≡ Err RunFault.Memory) }
{
    let Some(number) = progress.taken.checked_add(1) else {
        return Err(RunFault::Memory);
    };
    progress.taken = number;
    if progress.refused.is_none() && is_refusal(&entry.reply.head) {
        progress.refused = Some(number);
    }
    Ok(())
}

// The next entry of a record is told.
fn tell_entry<K: Sink>(progress: &mut Progress, out: &mut K, entry: &Entry) -> Result<(), RunFault>
    ensures told { OnOk result ((held : Option (List ℕ)) (all rest : List Entry) → IsTold held (K.holds out.old) progress.old.waiting.items progress.old.taken progress.old.refused all (entry.now ∷ rest) → IsTold held (K.holds out.new) progress.new.waiting.items progress.new.taken progress.new.refused all rest) }
    ensures front { OnErr result ((held : Option (List ℕ)) (all rest : List Entry) → IsTold held (K.holds out.old) progress.old.waiting.items progress.old.taken progress.old.refused all (entry.now ∷ rest) → HasFront held (K.holds out.new) (record_text all)) }
    ensures only { IfErr result (λ fault. (fault ≡ RunFault.Memory) ⊎ (fault ≡ RunFault.Write)) }
    ensures fault { IsErrOf result RunFault.Write → Rose (K.faults out.old) (K.faults out.new) }
    ensures later { K.faults out.old ≤ K.faults out.new }
{
    note_entry(progress, entry)?;
    put_entry(&mut progress.waiting, out, entry)
}

// The same of an entry that is taken, and dropped.
fn tell_taken<K: Sink>(progress: &mut Progress, out: &mut K, entry: Entry) -> Result<(), RunFault>
    ensures told { OnOk result ((held : Option (List ℕ)) (all rest : List Entry) → IsTold held (K.holds out.old) progress.old.waiting.items progress.old.taken progress.old.refused all (entry ∷ rest) → IsTold held (K.holds out.new) progress.new.waiting.items progress.new.taken progress.new.refused all rest) }
    ensures front { OnErr result ((held : Option (List ℕ)) (all rest : List Entry) → IsTold held (K.holds out.old) progress.old.waiting.items progress.old.taken progress.old.refused all (entry ∷ rest) → HasFront held (K.holds out.new) (record_text all)) }
    ensures only { IfErr result (λ fault. (fault ≡ RunFault.Memory) ⊎ (fault ≡ RunFault.Write)) }
    ensures fault { IsErrOf result RunFault.Write → Rose (K.faults out.old) (K.faults out.new) }
    ensures later { K.faults out.old ≤ K.faults out.new }
{
    tell_entry(progress, out, &entry)
}

/// Writes the text of a record on standard output, each entry as it is taken, and answers the number of the first one that is refused.
/// Where memory runs out or standard output fails, a front of the text was taken.
pub(crate) fn write_record<K: Sink>(
    alloc: Global,
    out: &mut K,
    entries: Record,
) -> Result<Option<u64>, RunFault>
    ensures all { OnOk result (K.holds out.new ≡ after_known (K.holds out.old) (record_text entries)) }
    ensures refused { IfOk result (λ refused. refused ≡ first_refused 1 entries) }
    ensures front { OnErr result (HasFront (K.holds out.old) (K.holds out.new) (record_text entries)) }
    ensures only { IfErr result (λ fault. (fault ≡ RunFault.Memory) ⊎ (fault ≡ RunFault.Write)) }
    ensures fault { IsErrOf result RunFault.Write → Rose (K.faults out.old) (K.faults out.new) }
    ensures later { K.faults out.old ≤ K.faults out.new }
{
    let mut entries = entries;
    let mut progress = Progress {
        waiting: Vec::new(alloc),
        taken: 0,
        refused: None,
    };
    while let Some(entry) = entries.next() {
        tell_taken(&mut progress, out, entry)?;
    }
    write_waiting(&mut progress.waiting, out)?;
    Ok(progress.refused)
}
