//! Who holds what, and what the pools give that zones share: things with their zones' names, pools and grants.
#![tactic(auto)]

mod grant;
mod limits;
mod numbers;
mod owned;
mod owners;

pub use grant::{Grant, Pool, number_in, numbered};
pub use limits::{PID_MAX, PID_MIN, SERIAL_MAX, ZID_MAX, ZID_MIN, ZONES_MAX};
pub use numbers::next_free;
pub use owned::Owned;
pub use owners::{Keyed, Owners};
