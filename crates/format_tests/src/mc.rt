//! Tests of `life_mc`: its laws are called. Its worked files are rows of the crate `rows`.

use life_mc::laws;

#[test]
fn laws_are_called() {
    laws::grammars_agree();
    laws::files_are_unique();
    laws::faults_are_unique();
    laws::prefixes_are_unbroken();
    laws::prefixes_are_files();
    laws::long_lines_break();
    laws::lines_break_by_kinds();
    laws::refusals_have_kinds();
    laws::kinds_name_lines();
    laws::lines_are_valid();
    laws::blank_outside();
}
