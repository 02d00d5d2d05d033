//! What the requests of a zone's daemon come to: laws over its definitions.
#![tactic(auto)]

mod laws;

pub use laws::{
    a_failure_undoes_what_was_made, a_halt_has_ten_turns_and_more, a_halt_stays_one,
    a_request_tells_its_trail, each_turn_answers_the_next_item, local_turns_share_nothing,
    the_agreement_says, turns_come_to_an_end, turns_keep_the_agreement, what_ends_is_told,
};
