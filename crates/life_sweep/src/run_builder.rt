//! A builder that is given whole runs, though the sweep draws place by place.
ghost use Rattle.std.specs.Prelude.{◌≡◌, ◌≢◌, ◌⊎◌, ℤ, pos, ◌+ℤ◌, IsTrue, ◌↔◌, [], Err, None, OnOk, IfOk, IfErr};
ghost use Rattle.life_sweep.specs.Words.{depth, tree_cell, IsEmpty, IsFilling, IsAfterRun, IsNextRunStart, IsRunOnPlane, state_by, SomeAbove, SomeOfAll, IsHolding, drawn_runs, one_cell, AddsOnly, KeepsStore, IsShortageIn};

use life_base::{Kind, MAX_LEVEL, Run, State};
use life_quad::{Id, Squares};
use life_strip::Builder;
use std::alloc::Global;

/// A builder, and the run that was drawn last, which the next cell may continue.
#[derive(Drop)]
pub(crate) struct RunBuilder {
    pub(crate) builder: Builder,
    pub(crate) unclosed: Option<Run>,
}

// Whether the cell is the one east of the run, and has its state.
fn is_continued_by(run: &Run, x: i64, y: i64, state: State) -> bool
    requires { IsRunOnPlane run.now.x run.now.y run.now.len }
    ensures { IsTrue result ↔ ((run.now.y ≡ y) × ((run.now.x +ℤ pos run.now.len) ≡ x)
        × (run.now.state ≡ state)) }
{
    run.y == y && run.x + run.len as i64 == x && run.state == state
}

impl RunBuilder {
    /// Nothing is drawn.
    pub(crate) fn new(alloc: Global) -> RunBuilder
        ensures drawn { drawn_runs result ≡ [] }
        ensures empty { IsEmpty result.builder }
        ensures none { result.unclosed ≡ None }
    {
        RunBuilder {
            builder: Builder::new(alloc),
            unclosed: None,
        }
    }

    // Gives the builder the open run.
    fn close<S: Squares>(&mut self, squares: &mut S) -> Result<(), Kind>
        requires holding { IsHolding (S.knows squares.old) (S.content squares.old) self.old }
        ensures filling { OnOk result
            (IsFilling (S.knows squares.new) (S.content squares.new) self.new.builder) }
        ensures drawn { OnOk result (self.new.builder.runs ≡ drawn_runs self.old) }
        ensures none { OnOk result (self.new.unclosed ≡ None) }
        ensures keeps { KeepsStore S.Squares squares.old squares.new }
        ensures refusals { IfErr result (IsShortageIn S.Squares squares.new) }
        ensures needed { result ≡ Err Kind.Full
            → SomeAbove (S.needs_node squares.new) (drawn_runs self.old) }
        ensures adds { AddsOnly S.stored (λ P. SomeAbove P (drawn_runs self.old)) squares.old
            squares.new }
    {
        let Some(run) = self.unclosed else {
            return Ok(());
        };
        self.builder.add_run(squares, run)?;
        self.unclosed = None;
        Ok(())
    }

    /// Gives the cell (x, y) a state other than 0. It is after the cells that were drawn.
    pub(crate) fn draw<S: Squares>(
        &mut self,
        squares: &mut S,
        x: i64,
        y: i64,
        state: State,
    ) -> Result<(), Kind>
        requires holding { IsHolding (S.knows squares.old) (S.content squares.old) self.old }
        requires inside { IsRunOnPlane x y 1 }
        requires next { IsNextRunStart (drawn_runs self.old) x y }
        requires nonzero { state ≢ 0 }
        ensures holding { OnOk result
            (IsHolding (S.knows squares.new) (S.content squares.new) self.new) }
        ensures here { OnOk result (state_by (drawn_runs self.new) x y ≡ state) }
        ensures others { OnOk result ((c r : ℤ) → (c ≡ x → r ≡ y → ⊥)
            → state_by (drawn_runs self.new) c r ≡ state_by (drawn_runs self.old) c r) }
        ensures next { OnOk result
            ((c r : ℤ) → IsAfterRun (one_cell x y state) c r
            → IsNextRunStart (drawn_runs self.new) c r) }
        ensures keeps { KeepsStore S.Squares squares.old squares.new }
        ensures refusals { IfErr result (IsShortageIn S.Squares squares.new) }
        ensures needed { result ≡ Err Kind.Full
            → SomeAbove (S.needs_node squares.new) (drawn_runs self.old) }
        ensures adds { AddsOnly S.stored (λ P. SomeAbove P (drawn_runs self.old)) squares.old
            squares.new }
    {
        if let Some(run) = self.unclosed {
            if is_continued_by(&run, x, y, state) {
                let len = run.len + 1;
                self.unclosed = Some(Run { len, ..run });
                return Ok(());
            }
        }
        self.close(squares)?;
        self.unclosed = Some(Run {
            x,
            y,
            len: 1,
            state,
        });
        Ok(())
    }

    /// The square of the whole plane with the cells that were drawn.
    pub(crate) fn finish<S: Squares>(mut self, squares: &mut S) -> Result<Id, Kind>
        requires holding { IsHolding (S.knows squares.old) (S.content squares.old) self }
        ensures known { IfOk result (S.knows squares.new) }
        ensures level { IfOk result (λ r. depth (S.content squares.new r) ≡ MAX_LEVEL) }
        ensures cells { IfOk result (λ r. (x y : ℤ)
            → tree_cell (S.content squares.new r) x y ≡ state_by (drawn_runs self) x y) }
        ensures keeps { KeepsStore S.Squares squares.old squares.new }
        ensures refusals { IfErr result (IsShortageIn S.Squares squares.new) }
        ensures needed { result ≡ Err Kind.Full
            → SomeAbove (S.needs_node squares.new) (drawn_runs self)
            ⊎ SomeOfAll (S.needs_node squares.new) (drawn_runs self) }
        ensures adds { AddsOnly S.stored
            (λ P. SomeAbove P (drawn_runs self) ⊎ SomeOfAll P (drawn_runs self)) squares.old
            squares.new }
    {
        self.close(squares)?;
        self.builder.finish(squares)
    }
}
