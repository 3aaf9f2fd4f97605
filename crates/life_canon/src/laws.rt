//! Laws over the definitions alone, from the crates below.

pub use life_pattern::laws::{
    blank_outside, centred_squares_tell_cells, faults_are_unique, files_are_on_plane,
    files_are_unique, formats_differ, patterns_fit, patterns_stay, patterns_tell_files,
    refusals_have_kinds, squares_are_centred, trimming_ignores_growth,
};
pub use life_reader::laws::{
    faults_stay, few_squares, length_hides_no_fault, lengths_stay, limit_suffices, prefixes_hold,
    readers_stand,
};
pub use life_writer::laws::{
    canonical_is_least, rle_texts_are_files, rle_texts_keep_patterns, squares_have_places,
    texts_are_files, texts_are_fixed, texts_keep_patterns, texts_tell_patterns,
    texts_tell_universes, wider_plane_keeps_texts, wider_planes_keep_files,
};
