//! The laws of the definitions. Each is the contract of a function that does nothing.

pub use blanking::{
    digests_no_secrets, keeps_resting, resting_hides_secrets, runs_hide_secrets, tells_no_secrets,
    uses_no_secrets, zeroing_changes_nothing, zeroing_is_unseen,
};
pub use instruction_table::{follows_table, keeps_ranges, one_insn, one_word};
pub use running::runs_append;
pub use segments::{accepted_texts_are_spelt, spelt_segments_are_accepted};
pub use soundness::{
    blanking_keeps_sound, events_keep_acceptances, events_keep_claims, events_keep_harts,
    events_keep_harts_asleep, events_keep_ids, events_keep_modes, events_keep_rows,
    events_keep_sound, events_keep_states, events_keep_stored, opening_is_sound,
};
pub use switching::{modules_start, stops_clear, stops_save};
pub use touching::{changes_are_touched, touches_are_admitted};
pub use walking::{
    leaves_are_local, refused_walks_are_local, walks_are_local, walks_read_free_pages,
    walks_read_three_tables,
};

mod blanking;
mod instruction_table;
mod running;
mod segments;
mod soundness;
mod switching;
mod touching;
mod walking;
