//! Laws of the formats: captures, replies files, journals, recorded packets and inputs of checks.
#![tactic(auto)]

mod captures;
mod examples;
mod fields;
mod hashes;
mod inputs;
mod journals;
mod packets;
mod replies;

pub use captures::{
    a_capture_has_few_streams, a_capture_is_bad_exactly_where_it_has_a_fault,
    a_further_record_is_added_last, a_good_capture_tells_its_parts, each_session_holds_its_stream,
    how_a_capture_is_cut_does_not_matter, the_first_fault_of_a_capture_counts,
    the_records_of_a_capture_so_far_are_lawful, the_version_and_the_count_are_told,
    what_is_given_depends_on_the_bytes_alone,
};
pub use examples::{
    worked_captures, worked_heads, worked_records, worked_replies, worked_reply_faults,
};
pub use fields::a_text_of_fields_is_what_its_fields_say;
pub use hashes::the_published_values_hold;
pub use inputs::an_input_has_one_set_of_parts;
pub use journals::{
    a_journal_has_few_bytes, a_journal_is_bad_exactly_where_it_has_a_fault,
    how_a_journal_is_cut_does_not_matter, the_first_fault_of_a_journal_counts,
    the_worked_journal_has_its_bytes, two_journals_have_two_texts,
    what_is_read_depends_on_the_bytes_alone, worked_codes, worked_entries, worked_journals,
    written_journals_are_read_again,
};
pub use packets::{
    a_capture_is_no_longer_than_its_file, a_copy_changes_no_stream, a_file_holds_its_packets,
    a_file_is_what_its_fields_say, a_stream_is_no_longer_than_its_payloads,
    the_order_of_packets_changes_no_stream, the_worked_faults_are_told,
    the_worked_file_makes_its_capture,
};
pub use replies::{
    a_good_replies_file_tells_its_parts, a_replies_file_has_few_bytes,
    a_replies_file_is_bad_exactly_where_it_has_a_fault,
    a_replies_file_is_good_exactly_where_it_is_a_spelling,
    how_a_replies_file_is_cut_does_not_matter, outputs_stay_outputs,
    outputs_that_are_read_can_be_added, the_first_fault_of_a_replies_file_counts,
    the_outputs_of_a_replies_file_so_far_are_lawful, the_version_of_a_replies_file_is_told,
    what_is_given_of_replies_depends_on_the_bytes_alone, written_replies_are_read_again,
};
