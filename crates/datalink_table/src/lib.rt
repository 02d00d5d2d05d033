//! Links, addresses and datasets, each of which one zone holds at most: those of dladm(8), of a shared zone's net
//! resources and of its dataset resources in zonecfg(8). A `ClaimCell` is what one zone holds, in the order of its claims,
//! and the `ClaimShared` what other zones may ask: which items are declared, and who holds each. Each call's answer and
//! change are those of the definitions in `specs/` on the zone's plain list of claims. A call that changes something is
//! also there in two halves, for a caller that decides all before it does anything: one that only looks, as `check_claim`
//! and `check_declare`, and one that has its memory and can't fail, as `hold` and `declare_reserved`.
#![tactic(auto)]

mod cell;
mod claims;
mod counts;
mod faults;
mod laws;
mod limits;
mod shared;

pub use cell::{ClaimCell, Ready};
pub use claims::{Claim, ClaimKind};
pub use faults::ClaimFault;
pub use laws::{
    cells_and_shared_part_agree, each_item_has_one_holder, held_items_are_declared, items_of_a_zone,
};
pub use limits::ITEMS_MAX;
pub use shared::ClaimShared;
