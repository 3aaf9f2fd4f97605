//! Texts of a pattern's images.

ghost use Rattle.std.specs.Prelude.{◌≡◌, ◌^◌, ℕ, List, true, false, not, min, IfOk, IfErr, IfSome, MatchOption, OnOk};
ghost use Rattle.life_forms.specs.Words.{MAX_LEVEL, Memory, fault_of, content, header_lines_text, is_blank_tree, IsCorner, square_text, turn_of, turned_tree, IsImageText, IsTrimmed, IsSquareBox, universe_in, IsLeastOfTwo, IsLesserOfTwo, IsLesserText, IsLowerBound, IsUpTo, AreSmall, IsTurnedText, HasLargeImage, RefusesTurning};

use crate::corners::{Corner, corner_of, lesser_text_of_corner};
use crate::lower_bounds::{above_texts, lower_bound, prefix_of};
use crate::order::is_up_to;
use crate::patterns::corner_form;
use life_base::{Bounds, Fault};
use life_pattern::Pattern;
use life_pattern::laws::{centred_squares_tell_cells, squares_are_centred};
use life_quad::{Shared, Turn, bounds};
use life_writer::{lesser_text, lesser_turned_text};
use std::alloc::Global;

/// The lesser of a text and of that of a pattern's root, with columns and rows counted from the other side or not. No image is made.
fn lesser_corner_text(
    alloc: Global,
    form: &Shared,
    moved: &Pattern,
    columns: bool,
    rows: bool,
    best: Vec<u8>,
) -> Result<Vec<u8>, Fault>
    requires { IsTrimmed form.now moved.now }
    ensures lesser { IfOk result (λ text. IsLesserText best.items
        (square_text moved.now.rule moved.now.generation
        (turned_tree (turn_of false columns rows) (content form.now moved.now.root))) text.items) }
    ensures memory { IfErr result (λ fault. fault ≡ fault_of Memory) }
{
    squares_are_centred();
    centred_squares_tell_cells();
    if !columns && !rows {
        return lesser_text(alloc, form, moved, best);
    }
    let turn = Turn {
        exchange: false,
        columns,
        rows,
    };
    lesser_turned_text(alloc, form, moved, turn, best)
}

/// The lesser of a text and of those of two images of a pattern, moved: with columns and rows counted from the other side or not, and with both exchanged.
/// Both are made by walks over the same squares. `found` is the bounding box of the pattern.
fn lesser_form_text(
    alloc: Global,
    store: &Shared,
    pattern: &Pattern,
    found: &Option<Bounds>,
    columns: bool,
    rows: bool,
    best: Vec<u8>,
) -> Result<Vec<u8>, Fault>
    requires trimmed { IsTrimmed store.now pattern.now }
    requires bounds { MatchOption found.now
        (is_blank_tree (content store.now pattern.now.root) ≡ true)
        (IsSquareBox (content store.now pattern.now.root)) }
    ensures text { IfOk result (λ text. IsLesserOfTwo MAX_LEVEL
        (universe_in store.now pattern.now) columns rows best.items text.items) }
    ensures image { OnOk result ((text : List ℕ) × IsImageText MAX_LEVEL
        (universe_in store.now pattern.now) (turn_of false columns rows) text) }
    ensures small { OnOk result (AreSmall (min (2 ^ 21) store.now.limit)
        (universe_in store.now pattern.now) columns rows) }
    ensures fault { IfErr result (RefusesTurning store.now pattern.now) }
{
    squares_are_centred();
    centred_squares_tell_cells();
    let (form, moved) = corner_form(alloc, store, pattern, found, columns, rows)?;
    let lesser = lesser_corner_text(alloc, &form, &moved, columns, rows, best)?;
    let exchanged = Turn {
        exchange: true,
        columns,
        rows,
    };
    lesser_turned_text(alloc, &form, &moved, exchanged, lesser)
}

/// The same of a pattern with these cells from a corner of its box on, without a form.
fn lesser_small_text(
    alloc: Global,
    store: &Shared,
    pattern: &Pattern,
    prefix: &[u8],
    corner: Corner,
    columns: bool,
    rows: bool,
    best: Vec<u8>,
) -> Result<Vec<u8>, Fault>
    requires trimmed { IsTrimmed store.now pattern.now }
    requires prefix { prefix.now ≡ header_lines_text pattern.now.rule pattern.now.generation }
    requires corner { IsCorner (min (2 ^ 21) store.now.limit) (universe_in store.now pattern.now)
        columns rows corner }
    ensures text { IfOk result (λ text. IsLesserOfTwo MAX_LEVEL
        (universe_in store.now pattern.now) columns rows best.items text.items) }
    ensures image { OnOk result ((text : List ℕ) × IsImageText MAX_LEVEL
        (universe_in store.now pattern.now) (turn_of false columns rows) text) }
    ensures small { OnOk result (AreSmall (min (2 ^ 21) store.now.limit)
        (universe_in store.now pattern.now) columns rows) }
    ensures fault { IfErr result (RefusesTurning store.now pattern.now) }
{
    let text = lesser_text_of_corner(alloc, prefix, corner, columns, rows, best)?;
    Ok(text)
}

/// The same of any pattern. No form is made of a small one.
fn lesser_image_text(
    alloc: Global,
    store: &Shared,
    pattern: &Pattern,
    prefix: &[u8],
    found: &Option<Bounds>,
    columns: bool,
    rows: bool,
    best: Vec<u8>,
) -> Result<Vec<u8>, Fault>
    requires trimmed { IsTrimmed store.now pattern.now }
    requires prefix { prefix.now ≡ header_lines_text pattern.now.rule pattern.now.generation }
    requires bounds { MatchOption found.now
        (is_blank_tree (content store.now pattern.now.root) ≡ true)
        (IsSquareBox (content store.now pattern.now.root)) }
    ensures text { IfOk result (λ text. IsLesserOfTwo MAX_LEVEL
        (universe_in store.now pattern.now) columns rows best.items text.items) }
    ensures image { OnOk result ((text : List ℕ) × IsImageText MAX_LEVEL
        (universe_in store.now pattern.now) (turn_of false columns rows) text) }
    ensures small { OnOk result (AreSmall (min (2 ^ 21) store.now.limit)
        (universe_in store.now pattern.now) columns rows) }
    ensures fault { IfErr result (RefusesTurning store.now pattern.now) }
{
    match corner_of(store, pattern, found, columns, rows) {
        Some(corner) => lesser_small_text(
            alloc, store, pattern, prefix, corner, columns, rows, best,
        ),
        None => lesser_form_text(alloc, store, pattern, found, columns, rows, best),
    }
}

/// The lesser of the texts of two images of a pattern, moved, as above.
fn image_text(
    alloc: Global,
    store: &Shared,
    pattern: &Pattern,
    prefix: &[u8],
    found: &Option<Bounds>,
    columns: bool,
    rows: bool,
) -> Result<Vec<u8>, Fault>
    requires trimmed { IsTrimmed store.now pattern.now }
    requires prefix { prefix.now ≡ header_lines_text pattern.now.rule pattern.now.generation }
    requires bounds { MatchOption found.now
        (is_blank_tree (content store.now pattern.now.root) ≡ true)
        (IsSquareBox (content store.now pattern.now.root)) }
    ensures text { IfOk result (λ text. IsLeastOfTwo MAX_LEVEL (universe_in store.now pattern.now)
        columns rows text.items) }
    ensures small { OnOk result (AreSmall (min (2 ^ 21) store.now.limit)
        (universe_in store.now pattern.now) columns rows) }
    ensures fault { IfErr result (RefusesTurning store.now pattern.now) }
{
    let above = above_texts(alloc)?;
    lesser_image_text(alloc, store, pattern, prefix, found, columns, rows, above)
}

/// The same as `lesser_image_text`, where the two texts may have a lower bound: if the text is no greater than that, no form is made.
fn bounded_image_text(
    alloc: Global,
    store: &Shared,
    pattern: &Pattern,
    prefix: &[u8],
    found: &Option<Bounds>,
    columns: bool,
    rows: bool,
    lower: &Option<Vec<u8>>,
    best: Vec<u8>,
) -> Result<Vec<u8>, Fault>
    requires trimmed { IsTrimmed store.now pattern.now }
    requires prefix { prefix.now ≡ header_lines_text pattern.now.rule pattern.now.generation }
    requires bounds { MatchOption found.now
        (is_blank_tree (content store.now pattern.now.root) ≡ true)
        (IsSquareBox (content store.now pattern.now.root)) }
    requires lower { IfSome lower.now (λ text. IsLowerBound MAX_LEVEL
        (min (2 ^ 21) store.now.limit) (universe_in store.now pattern.now) columns rows
        text.items) }
    ensures text { IfOk result (λ text. IsLesserOfTwo MAX_LEVEL
        (universe_in store.now pattern.now) columns rows best.items text.items) }
    ensures small { OnOk result (AreSmall (min (2 ^ 21) store.now.limit)
        (universe_in store.now pattern.now) columns rows) }
    ensures fault { IfErr result (RefusesTurning store.now pattern.now) }
{
    if let Some(lower) = lower {
        if is_up_to(&best, lower) {
            return Ok(best);
        }
    }
    lesser_image_text(alloc, store, pattern, prefix, found, columns, rows, best)
}

/// The least text of the eight images, moved, where the first two are those with columns and rows counted from these sides, and the other texts may have
/// lower bounds.
fn least_text_from(
    alloc: Global,
    store: &Shared,
    pattern: &Pattern,
    prefix: &[u8],
    found: &Option<Bounds>,
    columns: bool,
    rows: bool,
    second: &Option<Vec<u8>>,
    third: &Option<Vec<u8>>,
    fourth: &Option<Vec<u8>>,
) -> Result<Vec<u8>, Fault>
    requires trimmed { IsTrimmed store.now pattern.now }
    requires prefix { prefix.now ≡ header_lines_text pattern.now.rule pattern.now.generation }
    requires bounds { MatchOption found.now
        (is_blank_tree (content store.now pattern.now.root) ≡ true)
        (IsSquareBox (content store.now pattern.now.root)) }
    requires second { IfSome second.now (λ text. IsLowerBound MAX_LEVEL
        (min (2 ^ 21) store.now.limit) (universe_in store.now pattern.now) (not columns) rows
        text.items) }
    requires third { IfSome third.now (λ text. IsLowerBound MAX_LEVEL
        (min (2 ^ 21) store.now.limit) (universe_in store.now pattern.now) (not columns) (not rows)
        text.items) }
    requires fourth { IfSome fourth.now (λ text. IsLowerBound MAX_LEVEL
        (min (2 ^ 21) store.now.limit) (universe_in store.now pattern.now) columns (not rows)
        text.items) }
    ensures text { IfOk result
        (λ text. IsTurnedText MAX_LEVEL (universe_in store.now pattern.now) text.items) }
    ensures small { OnOk result (¬ HasLargeImage store.now pattern.now) }
    ensures fault { IfErr result (RefusesTurning store.now pattern.now) }
{
    let least = image_text(alloc, store, pattern, prefix, found, columns, rows)?;
    let two = bounded_image_text(
        alloc, store, pattern, prefix, found, !columns, rows, second, least,
    )?;
    let three = bounded_image_text(
        alloc, store, pattern, prefix, found, !columns, !rows, third, two,
    )?;
    bounded_image_text(
        alloc, store, pattern, prefix, found, columns, !rows, fourth, three,
    )
}

/// The bytes of a text, or none.
fn bytes_of(text: &Option<Vec<u8>>) -> &[u8] {
    match text {
        Some(text) => text.as_slice(),
        None => b"",
    }
}

/// Whether the first of two texts is less, where none is the least.
fn is_less(first: &Option<Vec<u8>>, second: &Option<Vec<u8>>) -> bool {
    bytes_of(first).cmp(bytes_of(second)).is_lt()
}

/// The canonical text of the turned form of a pattern: of the eight turns and reflections of the pattern, each moved as by `moved_of`, the one
/// whose canonical text is least, byte by byte. The texts of two patterns are one exactly if a turn followed by a shift takes the one pattern to
/// the other (`laws::turned_texts_tell_turns`). Whether the rule is the same from each side is not asked.
///
/// Two images begin in each corner of the pattern's box. The texts of those whose first leaf has the least line are written first; the others mostly aren't.
///
/// # Errors
///
/// `Full` where the moved form of one of the eight has more different squares than `MOST_SQUARES`, or than the pattern's store may hold, and only there;
/// and `Memory`. They name no line. A turn followed by a shift takes the eight forms to the same eight, so `Full` is returned for all of them or for none.
pub fn turned_text(alloc: Global, store: &Shared, pattern: &Pattern) -> Result<Vec<u8>, Fault>
    requires { IsTrimmed store.now pattern.now }
    ensures text { IfOk result
        (λ text. IsTurnedText MAX_LEVEL (universe_in store.now pattern.now) text.items) }
    ensures small { OnOk result (¬ HasLargeImage store.now pattern.now) }
    ensures fault { IfErr result (RefusesTurning store.now pattern.now) }
{
    let found = bounds(alloc, store, pattern.root)?;
    let prefix = prefix_of(alloc, pattern)?;
    let nw = lower_bound(alloc, store, pattern, &prefix, &found, false, false);
    let ne = lower_bound(alloc, store, pattern, &prefix, &found, true, false);
    let sw = lower_bound(alloc, store, pattern, &prefix, &found, false, true);
    let se = lower_bound(alloc, store, pattern, &prefix, &found, true, true);
    let east_of_north = is_less(&ne, &nw);
    let east_of_south = is_less(&se, &sw);
    let north = if east_of_north { &ne } else { &nw };
    let south = if east_of_south { &se } else { &sw };
    match (is_less(south, north), east_of_north, east_of_south) {
        (false, false, _) => least_text_from(
            alloc, store, pattern, &prefix, &found, false, false, &ne, &se, &sw,
        ),
        (false, true, _) => least_text_from(
            alloc, store, pattern, &prefix, &found, true, false, &nw, &sw, &se,
        ),
        (true, _, false) => least_text_from(
            alloc, store, pattern, &prefix, &found, false, true, &se, &ne, &nw,
        ),
        (true, _, true) => least_text_from(
            alloc, store, pattern, &prefix, &found, true, true, &sw, &nw, &ne,
        ),
    }
}
