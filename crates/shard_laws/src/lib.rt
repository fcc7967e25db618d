//! Laws of calls on shards, of lists of entries, and of merged histories.
#![tactic(auto)]

mod calls;
mod lists;
mod merges;
mod numbers;
mod replies;
mod uniques;
mod values;

pub use calls::{
    a_flush_empties_and_keeps_the_counter, a_tally_changes_nothing,
    what_is_not_stored_changes_nothing, worked_calls, worked_calls_with_an_item,
    worked_calls_without_an_item, worked_counts,
};
pub use lists::{
    a_command_has_its_replies, a_connection_has_its_entries, a_legal_list_grows_by_a_reply,
    a_legal_list_has_counted_tallies, a_list_is_legal_shard_by_shard, a_shard_counts_its_entries,
    a_shard_has_its_entries, the_counter_counts_calls,
};
pub use merges::{
    a_merge_keeps_the_calls_of_a_connection, a_merge_of_histories_is_legal, histories_have_a_merge,
    histories_have_one_merge, two_entries_are_merged_by_stamp_and_shard,
};
pub use numbers::{digits_are_read_back, worked_numbers, worked_shards};
pub use replies::{
    a_key_depends_on_its_own_calls, replies_are_of_the_table, replies_are_within_their_bounds,
    steady_calls_tell_no_other_unique,
};
pub use uniques::{uniques_of_a_shard_rise, uniques_of_two_shards_differ};
pub use values::{worked_odd_values, worked_values};
