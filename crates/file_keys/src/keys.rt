//! The key of a pattern: the SHA-256 of its canonical text in a form.

ghost use Rattle.std.specs.Prelude.{◌≡◌};
ghost use Rattle.file_keys.specs.Words.{source_run, ComesOf, RefusesInForm, IsHashedText, IsKeyIn, IsKeyOf, IsTextIn};

use command_line::{Form, KeyForm};
use key_sink::KeySink;
use life_base::{Fault, MAX_LEVEL, Source};
use life_quad::Shared;
use pattern_sources::{MOST_SQUARES, Seeds, start_text_of_source, text_of_source, write_canonical};
use sha2::{Digest, Sha256};
use std::alloc::Global;

pub(crate) mod files;
pub(crate) mod lines;
pub(crate) mod names;
mod objects;
pub(crate) mod outcome;
pub(crate) mod outputs;
pub(crate) mod refusal;
mod runs;
pub(crate) mod style;

pub use refusal::OpenedFile;
pub use runs::write_keys;

/// The key of a source's pattern in its place. Its text is hashed as it is made, and isn't stored.
fn placed_key<A: Source>(alloc: Global, seeds: &Seeds, source: &mut A) -> Result<[u8; 32], Fault>
    requires { A.failures source.old ≡ 0 }
    ensures { ComesOf (λ key. key) (IsKeyOf (IsTextIn Form.Placed MAX_LEVEL))
        (RefusesInForm Form.Placed)
        (source_run A.remaining A.failures source.old source.new) result }
{
    let mut store = Shared::seeded(alloc, seeds.squares, MOST_SQUARES);
    let mut sink = KeySink::new();
    write_canonical(alloc, &mut store, source, &mut sink)?;
    Ok(sink.key())
}

/// The text of a source's pattern that is hashed.
fn hashed_text<A: Source>(
    alloc: Global,
    seeds: &Seeds,
    form: KeyForm,
    source: &mut A,
) -> Result<Vec<u8>, Fault>
    requires { A.failures source.old ≡ 0 }
    ensures { ComesOf (λ text. text.items) (IsHashedText form MAX_LEVEL) (RefusesInForm form.form)
        (source_run A.remaining A.failures source.old source.new) result }
{
    if form.ignores_generation {
        start_text_of_source(alloc, seeds, form.form, source)
    } else {
        text_of_source(alloc, seeds, form.form, source)
    }
}

/// The key of a source's pattern. The text of one that is moved or turned, or whose generation is ignored, is held, and then hashed.
pub(crate) fn key_of<A: Source>(
    alloc: Global,
    seeds: &Seeds,
    form: KeyForm,
    source: &mut A,
) -> Result<[u8; 32], Fault>
    requires { A.failures source.old ≡ 0 }
    ensures { ComesOf (λ key. key) (IsKeyIn form MAX_LEVEL) (RefusesInForm form.form)
        (source_run A.remaining A.failures source.old source.new) result }
{
    match (form.form, form.ignores_generation) {
        (Form::Placed, false) => placed_key(alloc, seeds, source),
        _ => match hashed_text(alloc, seeds, form, source) {
            Ok(text) => Ok(Sha256::digest(text.as_slice())),
            Err(fault) => Err(fault),
        },
    }
}
