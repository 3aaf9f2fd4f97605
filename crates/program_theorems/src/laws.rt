//! What ties the definitions to those of the layers.

ghost use Rattle.program_theorems.specs.Words.{LayersAgree};

use claims::laws::{tables_decide, tables_read, tables_refuse};
use life_forms::laws::{
    images_stay_on_plane, moved_forms_are_on_plane, moved_texts_are_files, moved_texts_tell_files,
    turned_forms_are_on_plane, turned_texts_are_files, turned_texts_tell_files,
};
use life_pattern::laws::{files_are_on_plane, files_are_unique, refusals_have_kinds};
use life_phase_forms::laws::{phases_texts_are_files, phases_texts_tell_files};
use life_table::laws::{grammars_agree, refusals_have_kinds as table_refusals_have_kinds};
use life_writer::laws::{
    canonical_is_least, rle_texts_keep_patterns, texts_are_files, texts_are_fixed,
    texts_keep_patterns, texts_tell_patterns,
};

/// What files, texts and tables are in the layers is what they are in the words of the formats.
pub fn layers_agree()
    ensures { LayersAgree }
{
    files_are_on_plane();
    files_are_unique();
    texts_are_files();
    texts_keep_patterns();
    texts_tell_patterns();
    texts_are_fixed();
    canonical_is_least();
    rle_texts_keep_patterns();
    refusals_have_kinds();
    images_stay_on_plane();
    moved_forms_are_on_plane();
    moved_texts_are_files();
    moved_texts_tell_files();
    turned_forms_are_on_plane();
    turned_texts_are_files();
    turned_texts_tell_files();
    phases_texts_are_files();
    phases_texts_tell_files();
    grammars_agree();
    table_refusals_have_kinds();
    tables_read();
    tables_refuse();
    tables_decide();
}
