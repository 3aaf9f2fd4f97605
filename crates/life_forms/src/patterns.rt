//! Patterns, moved.

ghost use Rattle.std.specs.Prelude.{◌≡◌, ◌≢◌, ◌⊎◌, ◌^◌, ◌≤◌, ℤ, min, false, true, Err, IfOk, IfErr, OnOk, MatchOption};
ghost use Rattle.life_forms.specs.Words.{fault_of, depth, tree_cell, MAX_LEVEL, Full, Memory, OrMemory, largest_state, IsMemory, IsShortageKind, stored_squares, IsKnown, IsTrimmed, content, universe_in, least_level, square_universe, image, turn_of, turned_tree, is_blank_tree, AddsOnly, IsNew, IsSquareBox, IsMoved, IsMovedRoot, SomeOfMovedForm, HasLargerForm, HasLargeForm};
ghost use Rattle.life_pattern.specs.Store.{Keeps};

use crate::moves::moved_root;
use life_base::{Bounds, Fault, Kind, Rule};
use life_pattern::laws::{centred_squares_tell_cells, squares_are_centred};
use life_pattern::{Pattern, least_level};
use life_quad::{Id, Shared, SharedSquares, bounds};
use std::alloc::Global;

/// A store of leaves, or of forms that are compared, is bounded by memory alone.
pub(crate) const WITHOUT_LIMIT: u64 = 1 << 62;

/// How many different squares a form has at most.
pub const MOST_SQUARES: u64 = 1 << 21;

/// A form's store has capacity for so many nodes at once: a small form needs no more.
const FIRST_NODES: usize = 14;

/// How many a form of a pattern of this store has at most: no more than the store may hold.
pub(crate) fn most_squares(store: &Shared) -> u64
    ensures { result ≡ min (2 ^ 21) store.now.limit }
{
    let limit = store.limit();
    if MOST_SQUARES < limit {
        MOST_SQUARES
    } else {
        limit
    }
}

/// Where a store that is bounded by memory alone is full, memory was refused.
pub(crate) fn without_limit(kind: Kind) -> Kind
    ensures kind { (result ≡ kind) ⊎ (result ≡ Memory) }
    ensures space { result ≢ Kind.Full }
{
    match kind {
        Kind::Full => Kind::Memory,
        other => other,
    }
}

/// The cells of a square, moved so that their image with columns and rows counted from the other side or not is in its place, as a pattern under this rule
/// and in this generation, in another store. `found` is their bounding box.
fn moved_pattern(
    alloc: Global,
    from: &Shared,
    to: &mut Shared,
    rule: Rule,
    generation: u64,
    square: Id,
    found: &Option<Bounds>,
    columns: bool,
    rows: bool,
) -> Result<Pattern, Kind>
    requires known { IsKnown from.now square }
    requires high { least_level rule ≤ depth (content from.now square) }
    requires states { (x y : ℤ) → tree_cell (content from.now square) x y ≤ largest_state rule }
    requires bounds { MatchOption found.now (is_blank_tree (content from.now square) ≡ true)
        (IsSquareBox (content from.now square)) }
    ensures trimmed { IfOk result (IsTrimmed to.new) }
    ensures moved { IfOk result (λ moved. IsMoved MAX_LEVEL
        (image (turn_of false columns rows)
        (square_universe rule generation (content from.now square)))
        (image (turn_of false columns rows) (universe_in to.new moved))) }
    ensures root { IfOk result (λ moved. IsMovedRoot
        (image (turn_of false columns rows)
        (square_universe rule generation (content from.now square)))
        (least_level rule) (turned_tree (turn_of false columns rows)
        (content to.new moved.root))) }
    ensures refusals { IfErr result (IsShortageKind (stored_squares to.new) to.new.limit) }
    ensures needed { result ≡ Err Full
        → SomeOfMovedForm (λ t. IsNew to.new (turned_tree (turn_of false columns rows) t))
        (image (turn_of false columns rows)
        (square_universe rule generation (content from.now square))) }
    ensures adds { AddsOnly stored_squares
        (λ P. SomeOfMovedForm (λ t. P (turned_tree (turn_of false columns rows) t))
        (image (turn_of false columns rows)
        (square_universe rule generation (content from.now square)))) to.old to.new }
    ensures keeps { Keeps to.old to.new }
{
    squares_are_centred();
    centred_squares_tell_cells();
    let least = least_level(&rule);
    let root = moved_root(alloc, from, to, square, found, columns, rows, least)?;
    Ok(Pattern {
        rule,
        generation,
        root,
    })
}

/// A pattern, moved so that its image with columns and rows counted from the other side or not is the moved form of its image, in a store of its own.
/// `found` is the bounding box of the pattern.
pub(crate) fn corner_form(
    alloc: Global,
    store: &Shared,
    pattern: &Pattern,
    found: &Option<Bounds>,
    columns: bool,
    rows: bool,
) -> Result<(Shared, Pattern), Fault>
    requires trimmed { IsTrimmed store.now pattern.now }
    requires bounds { MatchOption found.now
        (is_blank_tree (content store.now pattern.now.root) ≡ true)
        (IsSquareBox (content store.now pattern.now.root)) }
    ensures trimmed { IfOk result (λ form. IsTrimmed form.0 form.1) }
    ensures moved { IfOk result (λ form. IsMoved MAX_LEVEL
        (image (turn_of false columns rows) (universe_in store.now pattern.now))
        (image (turn_of false columns rows) (universe_in form.0 form.1))) }
    ensures small { OnOk result (¬ HasLargerForm (min (2 ^ 21) store.now.limit)
        (image (turn_of false columns rows) (universe_in store.now pattern.now))) }
    ensures fault { IfErr result (λ fault. OrMemory fault ((fault ≡ fault_of Full)
        × HasLargerForm (min (2 ^ 21) store.now.limit)
        (image (turn_of false columns rows) (universe_in store.now pattern.now)))) }
{
    squares_are_centred();
    centred_squares_tell_cells();
    let rule = pattern.rule.copy(alloc)?;
    let mut to = Shared::seeded(alloc, store.seed(), most_squares(store));
    to.reserve(FIRST_NODES);
    let generation = pattern.generation;
    let square = pattern.root;
    let moved = moved_pattern(
        alloc, store, &mut to, rule, generation, square, found, columns, rows,
    );
    // Its contract says that a store holds each square once, and none that is blank. The proof counts them.
    let _ = to.len();
    match moved {
        Ok(pattern) => Ok((to, pattern)),
        Err(kind) => Err(Fault::of(kind)),
    }
}

/// The moved form of a pattern, in a store of its own: the pattern with its bounding box at (0, 0), or, where the box would leave the plane so, ending with
/// the plane, columns and rows each for themselves. Two patterns have one moved form exactly if a shift takes the one to the other
/// (`laws::moved_forms_tell_shifts`).
///
/// # Errors
///
/// `Full` where the form has more different squares than `MOST_SQUARES`, or than the pattern's store may hold, and only there; and `Memory`. They name no
/// line. All shifts of a pattern have one form, so all of them are refused with `Full`, or none is (`laws::shifts_have_one_size`).
pub fn moved_of(
    alloc: Global,
    store: &Shared,
    pattern: &Pattern,
) -> Result<(Shared, Pattern), Fault>
    requires { IsTrimmed store.now pattern.now }
    ensures trimmed { IfOk result (λ form. IsTrimmed form.0 form.1) }
    ensures moved { IfOk result (λ form. IsMoved MAX_LEVEL (universe_in store.now pattern.now)
        (universe_in form.0 form.1)) }
    ensures small { OnOk result (¬ HasLargeForm store.now pattern.now) }
    ensures fault { IfErr result (λ fault. OrMemory fault ((fault ≡ fault_of Full)
        × HasLargeForm store.now pattern.now)) }
{
    let found = bounds(alloc, store, pattern.root)?;
    corner_form(alloc, store, pattern, &found, false, false)
}

/// A moved form again, in a store that is bounded by memory alone.
pub(crate) fn brought(
    alloc: Global,
    from: &Shared,
    to: &mut Shared,
    form: Pattern,
) -> Result<Pattern, Kind>
    requires { IsTrimmed from.now form }
    ensures trimmed { IfOk result (IsTrimmed to.new) }
    ensures moved { IfOk result (λ again. IsMoved MAX_LEVEL (universe_in from.now form)
        (universe_in to.new again)) }
    ensures keeps { Keeps to.old to.new }
    ensures memory { IfErr result IsMemory }
{
    let found = bounds(alloc, from, form.root)?;
    let (generation, root) = (form.generation, form.root);
    match moved_pattern(
        alloc, from, to, form.rule, generation, root, &found, false, false,
    ) {
        Ok(again) => Ok(again),
        Err(kind) => Err(without_limit(kind)),
    }
}
