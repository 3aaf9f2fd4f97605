//! The texts of patterns in a form.

ghost use Rattle.std.specs.Prelude.{◌≡◌};
ghost use Rattle.pattern_sources.specs.Words.{source_run, IsTextIn, ComesOf, RefusesInForm};

use crate::patterns::{MOST_SQUARES, pattern_of};
use crate::seeds::Seeds;
use life_base::{Fault, MAX_LEVEL, Source};
use life_quad::Shared;
use pattern_forms::{Form, text_in};
use std::alloc::Global;

/// The text of a source's pattern in a form.
///
/// # Errors
///
/// Those of `pattern_of`, and those of `text_in` of `pattern_forms`, where a form has at most 2^21 different squares.
pub fn text_of_source<A: Source>(
    alloc: Global,
    seeds: &Seeds,
    form: Form,
    first: &mut A,
) -> Result<Vec<u8>, Fault>
    requires { A.failures first.old ≡ 0 }
    ensures { ComesOf (λ text. text.items) (IsTextIn form MAX_LEVEL) (RefusesInForm form)
        (source_run A.remaining A.failures first.old first.new) result }
{
    let mut store = Shared::seeded(alloc, seeds.squares, MOST_SQUARES);
    let pattern = pattern_of(alloc, &mut store, first)?;
    text_in(alloc, &store, form, &pattern)
}
