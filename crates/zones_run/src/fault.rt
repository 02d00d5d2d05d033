//! What ends a run that the words and the input do not decide.
ghost use Rattle.std.specs.Prelude.{◌≡◌};

use commit_journal::StoreFault;
use input_lines::ReadFault;
use thiserror::Error;
use trace_text::LineFault;

/// What ends a run before its answer.
#[derive(Clone, Copy, Debug, PartialEq, Eq, Error)]
pub enum RunFault {
    #[error("out of memory")]
    Memory,
    #[error("the source has failed")]
    Read,
    #[error("standard output or standard error has failed")]
    Write,
    #[error("the disk has failed")]
    Disk,
}

impl From<ReadFault> for RunFault {
    ghost use Rattle.zones_run.specs.Run.{run_fault_of};

    ghost from_gives = { λ fault e. e ≡ run_fault_of fault };

    fn from(fault: ReadFault) -> Self {
        match fault {
            ReadFault::Memory => RunFault::Memory,
            ReadFault::Failed => RunFault::Read,
        }
    }
}

/// Why a line ends a trace.
#[derive(Drop)]
pub enum Stop {
    Fault(RunFault),
    Grammar(LineFault),
    /// The grant that it states doesn't fit what its event asks of the pools.
    BadGrant,
    /// The system restarted, and what is on the disk is no store.
    NoStore(StoreFault),
}
