//! Laws of frames, of runs and of what is said of them: reports, words, checks and generated traffic.
#![tactic(auto)]

mod checks;
mod frames;
mod reports;
mod runs;
mod traffic;
mod words;

pub use checks::{
    a_run_has_short_files, a_run_is_right, there_is_one_verdict, what_checks_is_of_a_run,
    yes_means_a_run,
};
pub use frames::{
    a_quit_line_begins_the_rest, commands_are_those_of_the_cut, commands_of_a_prefix_come_first,
    each_kind_of_frame_text_has_its_frame, each_stream_has_a_cut, frame_texts_are_of_three_kinds,
    frames_are_those_of_the_cut, frames_of_a_prefix_come_first, no_frame_comes_after_quit,
    no_frame_text_is_a_proper_prefix, no_stream_has_two_cuts, pieces_give_the_frames_of_the_stream,
    pieces_of_a_prefix_come_first, quit_is_met_where_the_rest_begins_with_it,
    the_empty_stream_has_no_frame, worked_commands, worked_frames, worked_quit_lines,
};
pub use reports::worked_reports;
pub use runs::{
    a_connection_has_a_session, a_connection_is_answered_as_if_alone, each_run_has_the_summary,
    each_session_has_its_output, runs_apart_have_the_same_outputs, serial_is_a_run,
    sessions_are_held, the_worked_capture_is_apart, the_worked_run_is_one,
};
pub use traffic::{
    generated_traffic_has_its_commands, generated_traffic_is_apart,
    runs_of_generated_traffic_have_the_same_outputs, the_worked_capture_has_its_bytes,
};
pub use words::{worked_requests, worked_rests};
