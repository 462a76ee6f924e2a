//! The whole protocol as definitions: spheres with their roles, cores, flights and devices; what each of nine events
//! answers and leaves; the serialisation points; finishing; and the same points executed whole, one at a time.
#![tactic(auto)]

mod event;
mod promise;
mod reply;

pub use event::Event;
pub use promise::{
    asks_are_granted, commits_are_serial, committers_are_told, console_is_put_out,
    cores_have_one_chunk, epochs_are_of_plays, events_are_alike, events_keep_sound,
    grants_are_clear, hits_spare_the_older, interrupts_abandon, invariants_hold, logs_are_fresh,
    logs_are_of_points, logs_play_back, moves_are_serial, notes_fit_logs, pieces_count_nothing,
    pieces_stay_together, points_are_made, recordings_are_kept, sizes_are_kept, spheres_keep_lasts,
    stopped_spheres_stay, tails_are_of_points, worlds_are_sound, youngers_begin,
};
pub use reply::Reply;
