//! Laws of cores and of what they share: rings, stealing, control words, rests, blocks, homes, and what a run leaves.
#![tactic(auto)]

mod blocks;
mod control;
mod feeding;
mod homes;
mod items;
mod outputs;
mod ownership;
mod resting;
mod rounds;
mod served;
mod staying;
mod stealing;

pub use blocks::{all_commands_are_done, each_finished_command_has_one_text};
pub use control::{
    all_cores_have_counted_themselves_where_done_says_so, done_is_at_most_the_number_of_cores,
    each_bit_that_is_set_is_of_a_core_that_has_announced_itself,
    the_bit_of_a_core_is_set_exactly_where_it_has_announced_itself,
};
pub use feeding::a_feeder_counts_on;
pub use homes::{
    a_connection_in_the_hand_is_finished, a_settled_home_is_finished,
    an_idle_connection_is_finished, an_idle_connection_that_gets_a_frame_arrives,
    own_connections_come_in_turn, texts_are_cut_at_the_ends_of_sessions,
};
pub use items::{all_that_was_offered_is_taken, items_are_offered_one_by_one};
pub use outputs::{first_texts_stay, texts_are_sent_in_order, the_worked_output_has_its_bytes};
pub use ownership::{
    a_busy_connection_has_one_request, a_publication_of_a_held_connection_settles_it,
    a_publication_of_an_idle_connection_is_its_arrival, a_step_with_an_event_is_that_event,
    a_step_with_events_is_these_events, a_step_without_an_event_leaves_the_machine,
    each_event_keeps_owners_sound, giving_or_joining_a_pass_is_no_event, no_place_is_at_two_places,
    no_place_is_in_two_hands, no_place_is_lost, no_place_is_twice_in_the_queue,
    runs_reach_sound_states, the_first_run_is_empty, the_queue_is_bounded,
    the_table_shows_a_sound_state, the_views_know_one_run, unfinished_requests_are_not_idle,
    what_a_pass_knows_of_its_hand_stays,
};
pub use resting::no_more_tokens_are_taken_than_were_put;
pub use rounds::each_core_has_one_turn_in_a_round;
pub use served::{
    a_connection_receives_its_streams, outputs_are_cut_at_the_ends,
    settled_cores_have_received_what_was_sent, what_is_served_is_a_run,
};
pub use staying::each_core_stays;
pub use stealing::{
    a_block_given_back_leaves_the_hands, a_stolen_block_has_the_label, worked_orders,
};
