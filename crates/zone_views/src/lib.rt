//! What a zone learns of the others: the laws of the zone machine's definitions. Removing all other zones' entries,
//! grants kept, changes no reply of a zone and none of the whole system, and what is kept still fits; a reply to a zone names
//! the zone's own objects alone; what is declared changes by declarations alone; from records that a store may hold, zones move
//! only along the transition table; each process's privileges lie within its zone's limit set; a zone has 128 mounts at most; a
//! session that is logged in has its process, one at a console holds it, and no turn is idle of a daemon that a session waits
//! for; no number that is given is above the greatest of its pool; and where the grants fit, those that the pools give fit too,
//! each process and zone number is held once, and each item that a zone claims is declared, and claimed by no other. Each law
//! is the contract of a function that does nothing. `view` tells the objects that a zone has, and `run_purged` answers a zone's
//! events again without those of other zones.
#![tactic(auto)]

mod laws;
mod purging;
mod viewing;

pub use laws::{
    allowed_grants_fit, claimed_items_are_declared, consoles_are_held_by_who_is_there,
    declarations_are_common, each_item_has_one_holder, kept_entries_stay, kept_grants_fit,
    local_turns_leave_what_is_common, logins_have_their_process, mounts_are_few,
    no_turn_is_idle_while_a_session_waits, numbers_are_held_once, numbers_given_are_small,
    others_change_nothing, own_world_decides, purging_keeps_replies, replies_name_own_objects,
    requests_are_of_stored_zones, runs_are_histories, sessions_edit_what_was_said,
    sets_lie_within_limits, states_move_along_the_table, stores_hold_records, subjects_agree,
    tables_agree_with_daemons, worlds_are_replayed, zones_share_no_process_number,
    zones_stay_small,
};
pub use purging::{only, replies_of, run, run_purged};
pub use viewing::{Object, ObjectKind, view};
