//! What an event is given of the pools that zones share, as text. `read_grant` answers just the grant that a line
//! begins with, and what follows it, where the line is the grant's text, one space and a rest; no line is that in
//! two ways.
#![tactic(auto)]

mod laws;
mod pools;
mod printing;
mod reading;

pub use laws::{grants_are_read_back, grants_are_split_one_way};
pub use pools::pool_word;
pub use printing::push_grant;
pub use reading::read_grant;
