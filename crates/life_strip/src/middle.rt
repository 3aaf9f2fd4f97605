//! The rows from the middle of the plane on as one strip, and the square about the middle with all their cells.
ghost use Rattle.std.specs.Prelude.{◌≡◌, ℕ, suc, ◌+◌, ◌-◌, ◌^◌, ◌<◌, ◌≤◌, ◌⊎◌, ◌∷◌, [], false, IsTrue, Some, IfOk};
ghost use Rattle.life_strip.specs.Words.{AreAdjacent, AreStacked, Grows, HaveColumns, id_at, id_or, IdValue, IsAboutMiddle, IsBlankNorth, IsBlankTo, IsSoundStrip, Rise, SomeWider, Tree, height, picture};

use crate::rows::merge;
use crate::spans::{Span, Strip, square_in_column};
use crate::spare::Spare;
use life_base::{Kind, MAX_LEVEL};
use life_quad::{Id, Squares};
use std::alloc::Global;

// The level of a quarter of the plane.
pub(crate) const HALF_LEVEL: u8 = MAX_LEVEL - 1;

// The column of the middle of the plane, in squares of a level.
#[inline(always)]
fn middle_column(level: u8) -> u64
    requires { level < MAX_LEVEL }
    ensures { result ≡ 2 ^ (MAX_LEVEL - 1 - level) }
{
    1 << (HALF_LEVEL - level)
}

// Whether a span has a square that isn't the blank one in another column than those from one to before another one.
#[inline(always)]
fn is_outside(span: &Span, from: u64, to: u64, blank: Id) -> bool
    ensures outside { IsTrue result → (¬ (span.now.square ≡ blank))
        × ((span.now.start < from) ⊎ (to < span.now.end)) }
    ensures inside { result ≡ false → (span.now.square ≡ blank)
        ⊎ ((from ≤ span.now.start) × (span.now.end ≤ to)) }
{
    span.square != blank && (span.start < from || to < span.end)
}

// Whether a square that isn't the blank one is in another column than those from one to before another one.
pub(crate) fn has_outside(spans: &[Span], from: u64, to: u64, blank: Id) -> bool
    requires columns { HaveColumns spans.now }
    requires rises { Rise spans.now }
    ensures some { IsTrue result → (c : ℕ) × (id : IdValue) × (¬ ((from ≤ c) × (c < to)))
        × (id_at spans.now c ≡ Some id) × (¬ (id ≡ blank)) }
    ensures none { result ≡ false → (c : ℕ) → ¬ ((from ≤ c) × (c < to))
        → id_or blank (id_at spans.now c) ≡ blank }
{
    for span in spans {
        if is_outside(span, from, to, blank) {
            return true;
        }
    }
    false
}

// Whether the two squares of a strip beside the middle of the plane lack one of its cells.
fn is_wider<S: Squares>(squares: &S, strip: &Strip) -> bool
    requires sound { IsSoundStrip (S.knows squares.now) (S.content squares.now) strip.now }
    requires high { strip.now.level < MAX_LEVEL }
    ensures low { IsTrue result → strip.now.level + 1 < MAX_LEVEL }
    ensures wider { IsTrue result
        → ¬ AreAdjacent strip.now.level (picture (S.content squares.now) (strip.now ∷ [])) }
    ensures adjacent { result ≡ false
        → AreAdjacent strip.now.level (picture (S.content squares.now) (strip.now ∷ [])) }
{
    if strip.level >= HALF_LEVEL {
        return false;
    }
    let middle = middle_column(strip.level);
    let blank = squares.empty(strip.level);
    has_outside(strip.spans.as_slice(), middle - 1, middle + 1, blank)
}

// Whether the first of strips is that of the northern half of the plane, without cells.
pub(crate) fn is_blank_north<S: Squares>(squares: &S, strips: &[Strip]) -> bool
    requires strips { AreStacked (S.knows squares.now) (S.content squares.now) strips.now }
    requires space { height strips.now < 2 ^ MAX_LEVEL }
    ensures blank { IsTrue result → IsBlankNorth (S.content squares.now) strips.now }
    ensures cell { result ≡ false → 2 ^ (MAX_LEVEL - 1) ≤ height strips.now
        → ¬ IsBlankTo (2 ^ (MAX_LEVEL - 1)) (picture (S.content squares.now) strips.now) }
{
    let Some(first) = strips.first() else {
        return false;
    };
    if first.level != HALF_LEVEL {
        return false;
    }
    let blank = squares.empty(HALF_LEVEL);
    if has_outside(first.spans.as_slice(), 0, 0, blank) {
        return false;
    }
    true
}

// The strip with blank rows below it that fill it up to the least level of which the two squares beside the middle have all cells.
pub(crate) fn widen<S: Squares>(
    squares: &mut S,
    spare: &mut Spare,
    alloc: Global,
    strip: Strip,
) -> Result<Strip, Kind>
    requires sound { IsSoundStrip (S.knows squares.old) (S.content squares.old) strip }
    requires high { strip.level < MAX_LEVEL }
    ensures sound { IfOk result
        (λ r. IsSoundStrip (S.knows squares.new) (S.content squares.new) r) }
    ensures low { IfOk result (λ r. strip.level ≤ r.level) }
    ensures high { IfOk result (λ r. r.level < MAX_LEVEL) }
    ensures picture { IfOk result (λ r. (column row : ℕ)
        → picture (S.content squares.new) (r ∷ []) column row
        ≡ picture (S.content squares.old) (strip ∷ []) column row) }
    ensures adjacent { IfOk result
        (λ r. AreAdjacent r.level (picture (S.content squares.old) (strip ∷ []))) }
    ensures needed { IfOk result (λ r. (m : ℕ) → strip.level ≤ m → m < r.level
        → ¬ AreAdjacent m (picture (S.content squares.old) (strip ∷ []))) }
    ensures grows { Grows S.Squares squares.old squares.new result
        (λ P. SomeWider P strip.level (picture (S.content squares.old) (strip ∷ []))) }
{
    let mut wide = strip;
    while is_wider(squares, &wide) {
        let blank = Strip {
            level: wide.level,
            spans: Vec::new(alloc),
        };
        wide = merge(squares, spare, wide, blank)?;
    }
    Ok(wide)
}

// The square about the middle of the plane whose southern quarters are the two squares of a strip beside the middle.
pub(crate) fn join_middle<S: Squares>(squares: &mut S, strip: &Strip) -> Result<Id, Kind>
    requires sound { IsSoundStrip (S.knows squares.old) (S.content squares.old) strip.now }
    requires high { strip.now.level < MAX_LEVEL }
    ensures known { IfOk result (S.knows squares.new) }
    ensures square { IfOk result (λ r. IsAboutMiddle strip.now.level
        (picture (S.content squares.old) (strip.now ∷ [])) (S.content squares.new r)) }
    ensures grows { Grows S.Squares squares.old squares.new result
        (λ P. (t : Tree) × IsAboutMiddle strip.now.level
        (picture (S.content squares.old) (strip.now ∷ [])) t × P t) }
{
    let middle = middle_column(strip.level);
    let blank = squares.empty(strip.level);
    let spans = strip.spans.as_slice();
    let sw = square_in_column(spans, middle - 1, blank);
    let se = square_in_column(spans, middle, blank);
    squares.join(blank, blank, sw, se)
}
