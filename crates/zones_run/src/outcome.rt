//! What the whole input comes to: a text on standard output, or a line on standard error.
ghost use Rattle.std.specs.Prelude.{◌≡◌, ◌++◌, IfOk, OnOk};
ghost use Rattle.zones_run.specs.Complaints.{complaint_status, complaint_text, store_fault_text};

use crate::refusal::{Refusal, push_refusal};
use crate::status;
use commit_journal::StoreFault;
use std::alloc::{AllocError, Global};
use trace_text::LineFault;
use zn_base::push_numbered;

/// What ends a run with a line on standard error. Lines are numbered from 1.
#[derive(Drop)]
pub enum Complaint {
    /// A line is refused.
    Line(u64, Refusal),
    /// The end of the input is refused.
    End(Refusal),
    /// A line of a trace is outside its grammar.
    Grammar(u64, LineFault),
    /// A line of a trace states a grant that doesn't fit what its event asks of the pools.
    BadGrant(u64),
    /// A trace is done, and this is its first line that was refused.
    FirstRefused(u64),
    /// Live sessions are done, and this is the first entry of their record that was refused.
    FirstRefusedEntry(u64),
    /// A line is past a limit.
    Limit(u64),
    /// What is on the disk is no store.
    NotAStore(StoreFault),
}

// The code and the name of a fault of a store, and its place or number.
fn push_store_fault(out: &mut Vec<u8>, fault: &StoreFault) -> Result<(), AllocError>
    ensures { OnOk result (out.new.items ≡ out.old.items ++ store_fault_text fault.now) }
{
    match fault {
        StoreFault::Memory => out.extend_from_slice(b"no memory"),
        StoreFault::NotAStore(place) => push_numbered(out, b"61 NotAStore ", *place),
        StoreFault::BadRecord(place) => push_numbered(out, b"62 BadRecord ", *place),
        StoreFault::DiskFault => out.extend_from_slice(b"63 DiskFault"),
        StoreFault::BankFull => out.extend_from_slice(b"64 BankFull"),
        StoreFault::RecordForm(serial) => push_numbered(out, b"65 RecordForm ", *serial as u64),
    }
}

impl Complaint {
    /// The exit status.
    pub fn status(&self) -> u8
        ensures { result ≡ complaint_status self.now }
    {
        match self {
            Complaint::Line(_, _)
            | Complaint::End(_)
            | Complaint::FirstRefused(_)
            | Complaint::FirstRefusedEntry(_) => status::REFUSED,
            Complaint::Grammar(_, _) | Complaint::BadGrant(_) => status::GRAMMAR,
            Complaint::Limit(_) => status::LIMIT,
            Complaint::NotAStore(_) => status::NOT_A_STORE,
        }
    }

    /// Its line, with its newline.
    pub fn line(&self, alloc: Global) -> Result<Vec<u8>, AllocError>
        ensures { IfOk result (λ line. line.items ≡ complaint_text self.now) }
    {
        let mut line = Vec::new(alloc);
        match self {
            Complaint::Line(number, refusal) => {
                push_numbered(&mut line, b"line ", *number)?;
                line.extend_from_slice(b": ")?;
                push_refusal(&mut line, refusal)?;
            }
            Complaint::End(refusal) => {
                line.extend_from_slice(b"end: ")?;
                push_refusal(&mut line, refusal)?;
            }
            Complaint::Grammar(number, fault) => {
                push_numbered(&mut line, b"line ", *number)?;
                line.extend_from_slice(b": ")?;
                line.extend_from_slice(fault.to_string(alloc)?.as_bytes())?;
            }
            Complaint::BadGrant(number) => {
                push_numbered(&mut line, b"line ", *number)?;
                line.extend_from_slice(b": 105 BadGrant")?;
            }
            Complaint::FirstRefused(number) => {
                push_numbered(&mut line, b"first refused line: ", *number)?;
            }
            Complaint::FirstRefusedEntry(number) => {
                push_numbered(&mut line, b"first refused entry: ", *number)?;
            }
            Complaint::Limit(number) => push_numbered(&mut line, b"limit at line ", *number)?,
            Complaint::NotAStore(fault) => {
                line.extend_from_slice(b"not a store: ")?;
                push_store_fault(&mut line, fault)?;
            }
        }
        line.push(b'\n')?;
        Ok(line)
    }
}

/// What the whole input comes to.
#[derive(Drop)]
pub enum Outcome {
    /// A text for standard output.
    Text(Vec<u8>),
    /// A line for standard error.
    Complains(Complaint),
}
