//! The next generation, place by place.
ghost use Rattle.std.specs.Prelude.{◌≡◌, ◌⊎◌, ◌↔◌, ℕ, ℤ, ◌<◌, true, false, All, Err, IfOk, IfErr, OnOk, IsTrue};
ghost use Rattle.life_sweep.specs.Words.{fault_of, depth, tree_cell, IsShortageFault, SomeAbove, SomeNext, IsHolding, drawn_runs, IsRunOnPlane, state_by, Becomes, Ambiguous, one_after, states_at, AreInside, AreSorted, IsSortedList, AreBelow, IsInside, IsSoundWindow, IsWindowBelow, states_of_window, IsScene, IsSorted, RefusesStep, IsPut, IsReadyFrom, IsReadyRow, IsSweptRows, IsFirstAmbiguous, AddsOnly, KeepsStore};

use crate::band::Band;
use crate::column::Rows;
use crate::law::Law;
use crate::plane::HALF_PLANE;
use crate::run_builder::RunBuilder;
use crate::window::Window;
use life_base::{Cell, Fault, Kind, MAX_LEVEL};
use life_quad::{Id, Squares};
use life_strip::laws::empty_builder_fills;
use std::alloc::Global;

// Whether a place is one of the plane.
fn is_on_plane(x: i64, y: i64) -> bool
    ensures { IsTrue result ↔ IsRunOnPlane x y 1 }
{
    -HALF_PLANE <= x && x < HALF_PLANE && -HALF_PLANE <= y && y < HALF_PLANE
}

// Gives the place of a window in the row `y` its next state. Returns whether a place outside the plane would not become 0, as it may be
// known before.
fn draw_place<S: Squares, L: Law>(
    squares: &mut S,
    builder: &mut RunBuilder,
    law: &mut L,
    window: &Window,
    y: i64,
    leaves: bool,
) -> Result<bool, Fault>
    requires place { IsSoundWindow window.now }
    requires states { IsWindowBelow (L.bound law.old) window.now }
    requires holding { IsHolding (S.knows squares.old) (S.content squares.old) builder.old }
    requires ready { IsReadyFrom (drawn_runs builder.old) window.now.x y }
    ensures same { law.new ≡ law.old }
    ensures holding { OnOk result
        (IsHolding (S.knows squares.new) (S.content squares.new) builder.new) }
    ensures ready { OnOk result (IsReadyFrom (drawn_runs builder.new) (one_after window.now.x) y) }
    ensures put { IfOk result (λ all. state_by (drawn_runs builder.old) window.now.x y ≡ 0
        → IsPut (L.answers law.old) (states_of_window window.now)
        (state_by (drawn_runs builder.new))
        leaves all window.now.x y) }
    ensures others { OnOk result ((c r : ℤ) → (c ≡ window.now.x → r ≡ y → ⊥)
        → state_by (drawn_runs builder.new) c r ≡ state_by (drawn_runs builder.old) c r) }
    ensures keeps { KeepsStore S.Squares squares.old squares.new }
    ensures refusals { IfErr result (λ f. IsShortageFault (S.stored squares.new)
        (S.most squares.new) f ⊎ ((f.kind ≡ Kind.Ambiguous)
        × L.answers law.old (states_of_window window.now) (Ambiguous f.place.line))) }
    ensures needed { result ≡ Err (fault_of Kind.Full)
        → SomeAbove (S.needs_node squares.new) (drawn_runs builder.old) }
    ensures adds { AddsOnly S.stored (λ P. SomeAbove P (drawn_runs builder.old)) squares.old
        squares.new }
{
    let state = law.next(&window.around())?;
    if state == 0 {
        return Ok(leaves);
    }
    if !is_on_plane(window.x, y) {
        return Ok(true);
    }
    builder.draw(squares, window.x, y, state)?;
    Ok(leaves)
}

// Gives the places of the row `y` their next states, by the rows around it. Returns whether a place outside the plane would not become 0, as
// it may be known of earlier rows.
fn draw_row<S: Squares, L: Law>(
    squares: &mut S,
    builder: &mut RunBuilder,
    law: &mut L,
    rows: Rows,
    y: i64,
    leaves: bool,
) -> Result<bool, Fault>
    requires states { AreBelow (L.bound law.old) rows }
    requires inside { AreInside rows }
    requires sorted { AreSorted rows }
    requires holding { IsHolding (S.knows squares.old) (S.content squares.old) builder.old }
    requires ready { IsReadyRow (drawn_runs builder.old) y }
    ensures same { law.new ≡ law.old }
    ensures holding { OnOk result
        (IsHolding (S.knows squares.new) (S.content squares.new) builder.new) }
    ensures ready { OnOk result (IsReadyRow (drawn_runs builder.new) (one_after y)) }
    ensures swept { IfOk result (λ left. (cells : ℤ → ℤ → ℕ) → IsScene cells y rows.entry
        → IsSweptRows (L.answers law.old) cells (state_by (drawn_runs builder.old)) leaves y
        → IsSweptRows (L.answers law.old) cells (state_by (drawn_runs builder.new)) left
        (one_after y)) }
    ensures keeps { KeepsStore S.Squares squares.old squares.new }
    ensures refusals { IfErr result (λ f. IsShortageFault (S.stored squares.new)
        (S.most squares.new)
        f ⊎ ((f.kind ≡ Kind.Ambiguous) × ((cells : ℤ → ℤ → ℕ) → IsScene cells y rows.entry
        → IsSweptRows (L.answers law.old) cells (state_by (drawn_runs builder.old)) leaves y
        → IsFirstAmbiguous (L.answers law.old) cells f.place.line))) }
    ensures needed { result ≡ Err (fault_of Kind.Full) → (cells : ℤ → ℤ → ℕ)
        → IsScene cells y rows.entry
        → IsSweptRows (L.answers law.old) cells (state_by (drawn_runs builder.old)) leaves y
        → SomeNext (S.needs_node squares.new) (L.answers law.old) cells }
    ensures adds { AddsOnly S.stored (λ P. (cells : ℤ → ℤ → ℕ) → IsScene cells y rows.entry
        → IsSweptRows (L.answers law.old) cells (state_by (drawn_runs builder.old)) leaves y
        → SomeNext P (L.answers law.old) cells) squares.old squares.new }
{
    let mut left = leaves;
    let mut window = Window::new(rows);
    while window.advance() {
        left = draw_place(squares, builder, law, &window, y, left)?;
    }
    Ok(left)
}

/// The square of the whole plane with the next generation of sorted cells.
pub(crate) fn next_square<S: Squares, L: Law>(
    alloc: Global,
    squares: &mut S,
    law: &mut L,
    cells: &[Cell],
) -> Result<Id, Fault>
    requires states { All (λ cell. cell.state < L.bound law.old) cells.now }
    requires inside { All IsInside cells.now }
    requires sorted { IsSortedList cells.now }
    ensures same { law.new ≡ law.old }
    ensures known { IfOk result (S.knows squares.new) }
    ensures level { IfOk result (λ r. depth (S.content squares.new r) ≡ MAX_LEVEL) }
    ensures next { IfOk result (λ r. (plane : ℤ → ℤ → ℕ) → IsSorted plane cells.now → (x y : ℤ)
        → L.answers law.old (states_at plane x y)
        (Becomes (tree_cell (S.content squares.new r) x y))) }
    ensures keeps { KeepsStore S.Squares squares.old squares.new }
    ensures refusals { IfErr result (λ f. IsShortageFault (S.stored squares.new)
        (S.most squares.new) f ⊎ ((plane : ℤ → ℤ → ℕ) → IsSorted plane cells.now
        → RefusesStep (L.answers law.old) plane f)) }
    ensures needed { result ≡ Err (fault_of Kind.Full) → (plane : ℤ → ℤ → ℕ)
        → IsSorted plane cells.now → SomeNext (S.needs_node squares.new) (L.answers law.old) plane }
    ensures adds { AddsOnly S.stored (λ P. (plane : ℤ → ℤ → ℕ) → IsSorted plane cells.now
        → SomeNext P (L.answers law.old) plane) squares.old squares.new }
{
    let mut builder = RunBuilder::new(alloc);
    empty_builder_fills::<S>();
    let mut leaves = false;
    let mut band = Band::new(cells);
    while band.advance() {
        leaves = draw_row(squares, &mut builder, law, band.rows, band.y, leaves)?;
    }
    if leaves {
        return Err(Fault::of(Kind::OutOfPlane));
    }
    Ok(builder.finish(squares)?)
}
