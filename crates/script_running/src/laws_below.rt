//! The laws of the crates below, passed on to `promises`, which says in one file what holds of the whole workbench.

pub use gluing::{glue_measures, glues_add, glues_are_calls, glues_make_glued};
pub use plane_split::{
    parts_lie_on_either_side, parts_share_volumes, splits_are_calls, splits_are_held,
    splits_make_split,
};
pub use solid_listing::listing_tells;
pub use sweeps::{
    block_measures, effects_are_sound, euler_number_grows, histories_are_consistent, inverses_undo,
    lamina_measures, larger_commands_are_calls, machines_are_copies, operators_make_blocks,
    operators_make_lamina, refusals_name_the_first_false, runs_are_undone, sweep_measures,
    sweeps_make_prisms, undo_gives_the_model_before,
};
