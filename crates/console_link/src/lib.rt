//! The console of one zone, by zcons(4D), as zlogin(1) attaches a session to it: the last 4,096 bytes that were written
//! and that nobody has taken, and the session that is attached, one at most. Each call's answer and change are those of
//! the definitions in `specs/` on plain lists of bytes. A call that takes memory and changes something is also there in
//! two halves, for a caller that decides all before it does anything: one that only looks, as `output` and
//! `output_after`, and one that can't fail, as `clear`.
#![tactic(auto)]

mod console;
mod faults;
mod laws;
mod limits;
mod lines;

pub use console::Console;
pub use faults::ConsoleFault;
pub use laws::{
    a_console_has_one_holder, each_byte_is_taken_once, only_the_last_bytes_are_kept,
    what_is_out_of_use_is_as_new,
};
pub use limits::OUTPUT_MAX;
