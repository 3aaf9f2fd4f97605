//! The texts of patterns in a form, as if their generations were 0.

ghost use Rattle.std.specs.Prelude.{◌≡◌, ◌^◌, IfOk, IfErr, List, ℕ};
ghost use Rattle.pattern_sources.specs.Words.{source_run, OrMemory, IsOfFile, IsRead, IsTextAtStart, ComesOf, RefusesInForm};

use crate::patterns::{MOST_SQUARES, pattern_of};
use crate::seeds::Seeds;
use life_base::{Fault, MAX_LEVEL, Source};
use life_pattern::Pattern;
use life_pattern::laws::{files_are_on_plane, files_are_unique};
use life_quad::Shared;
use life_writer::laws::texts_are_files;
use pattern_forms::{Form, text_in};
use std::alloc::Global;

/// The text in a form of a file's pattern as if its generation were 0.
fn text_at_start(
    alloc: Global,
    store: &Shared,
    form: Form,
    pattern: Pattern,
) -> Result<Vec<u8>, Fault>
    requires read { IsOfFile MAX_LEVEL store.now pattern }
    requires limit { store.now.limit ≡ 2 ^ 31 }
    ensures text { IfOk result (λ text. (bytes : List ℕ)
        → IsRead MAX_LEVEL bytes store.now pattern
        → IsTextAtStart form MAX_LEVEL bytes text.items) }
    ensures fault { IfErr result (λ fault. OrMemory fault ((bytes : List ℕ)
        → IsRead MAX_LEVEL bytes store.now pattern → RefusesInForm form bytes fault)) }
{
    texts_are_files();
    files_are_on_plane();
    files_are_unique();
    let start = Pattern {
        rule: pattern.rule,
        generation: 0,
        root: pattern.root,
    };
    text_in(alloc, store, form, &start)
}

/// The text of a source's pattern in a form, as if the pattern's generation were 0.
///
/// # Errors
///
/// Those of `text_of_source`.
pub fn start_text_of_source<A: Source>(
    alloc: Global,
    seeds: &Seeds,
    form: Form,
    first: &mut A,
) -> Result<Vec<u8>, Fault>
    requires { A.failures first.old ≡ 0 }
    ensures { ComesOf (λ text. text.items) (IsTextAtStart form MAX_LEVEL) (RefusesInForm form)
        (source_run A.remaining A.failures first.old first.new) result }
{
    let mut store = Shared::seeded(alloc, seeds.squares, MOST_SQUARES);
    let pattern = pattern_of(alloc, &mut store, first)?;
    text_at_start(alloc, &store, form, pattern)
}
