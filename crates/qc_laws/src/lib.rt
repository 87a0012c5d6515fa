//! What follows of runs: laws over whole runs of a connection, of which `qc_state` has the steps.
#![tactic(auto)]

mod laws;

pub use laws::{
    acks_were_accepted, bytes_are_kept, datagrams_alone_tell, datagrams_are_sealed, datagrams_keep,
    datagrams_tell, ends_hold, events_are_datagrams, events_told, failures_end, faults_close,
    first_packets_are_datagrams, folds_ids, frames_are_acknowledged, harmless_bytes,
    held_acks_wait, ids_have_one_length, ids_hold, initial_is_left, issued_ids_are_told,
    keys_are_folded, keys_count, keys_fit_their_session, keys_hold, known_ids_are_used, limits_end,
    loss_timer_stands, marks_are_told, mismatches_are_listed, numbers_count_once,
    one_retry_is_taken, packets_tell, paths_hold, posts_are_folded, reads_are_what_came,
    recovery_is_folded, retries_come, runs_join, runs_mirror, sealed_datagrams_were_sent,
    seals_what_was_written, session_is_given_its_stream, space_keys_are_named, space_keys_fit,
    steps_tell, streams_are_folded, streams_stay_within, taken_datagrams_came,
    update_errors_are_caused, window_is_kept, written_bytes_are_kept,
};
