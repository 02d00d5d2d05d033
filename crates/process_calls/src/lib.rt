//! The calls that a process makes, as text. `read_call` answers the call that a text spells or the place of its first
//! wrong or missing word, exactly by the definition `call_of`; `push_call` writes a call as it is read.
#![tactic(auto)]

mod call;
mod laws;
mod read;
mod words;
mod write;

pub use call::{BoxedMount, Call, CallFault, MountCall};
pub use laws::{calls_are_read_back, read_calls_are_right};
pub use read::{pid_in, read_call, signal_in};
pub use write::push_call;
