//! A bank of bodies on a disk: each body is on the disk before it is acknowledged, and a crash at any
//! moment, also while a disk is opened or formatted, leaves the old bodies, or these and the new one.
#![tactic(auto)]

mod bank;
mod body;
mod fault;
mod format;
mod header;
mod laws;
mod read;

pub use bank::{BANK_BYTES, Bank};
pub use body::Body;
pub use fault::BankFault;
pub use laws::{opens_one_way, stands_for_one};
