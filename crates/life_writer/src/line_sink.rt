//! What takes the node lines of a walk.

ghost use Rattle.std.specs.Prelude.{◌≡◌, [], List, OnOk, OnErr, IfErr};
ghost use Rattle.life_writer.specs.Words.{KindValue, LineValue, Leaf, HasStatesUpTo, depth, rows_of, BreaksOff};
ghost use Rattle.life_writer.specs.Walking.{TakesNodeLine};

use crate::leaf_rows::eight_rows;
use crate::orientation::Orientation;
use life_base::Kind;
use life_mc::Line;
use life_quad::{Id, Squares};

/// What takes node lines one after another, and a device that it may empty itself into. Contracts speak of both together.
pub(crate) trait LineSink<D> {
    // It may be given a line.
    ghost ready: { Self × D → Type 0 };

    // From the one state to the other it took these lines.
    ghost took: { Self × D → Self × D → List LineValue → Type 0 };

    // From the one state to the other it took some of these lines, and no more.
    ghost broke: { Self × D → Self × D → List LineValue → Type 0 };

    // It is so after a line that it refused with this kind.
    ghost refuses: { Self × D → KindValue → Type 0 };

    /// Takes a line after those that it took before.
    fn take(&mut self, device: &mut D, line: &Line) -> Result<(), Kind>
        requires { ready (self.old, device.old) }
        ensures ready { OnOk result (ready (self.new, device.new)) }
        ensures took { OnOk result
            (TakesNodeLine took (self.old, device.old) (self.new, device.new) line.now) }
        ensures broke { OnErr result
            (BreaksOff took broke (self.old, device.old) (self.new, device.new)) }
        ensures kind { IfErr result (refuses (self.new, device.new)) };

    /// The same of the leaf line of a square of level 3, as it is seen. A sink that asks for less than its rows may be faster.
    #[inline(always)]
    fn take_leaf<S: Squares, O: Orientation>(
        &mut self,
        device: &mut D,
        squares: &S,
        orientation: &O,
        id: Id,
    ) -> Result<(), Kind>
        requires ready { ready (self.old, device.old) }
        requires known { S.knows squares.now id }
        requires level { depth (O.seen orientation.now (S.content squares.now id)) ≡ 3 }
        requires states { HasStatesUpTo 1 (O.seen orientation.now (S.content squares.now id)) }
        ensures ready { OnOk result (ready (self.new, device.new)) }
        ensures took { OnOk result (TakesNodeLine took (self.old, device.old) (self.new, device.new)
            (Leaf (rows_of (O.seen orientation.now (S.content squares.now id))))) }
        ensures broke { OnErr result
            (BreaksOff took broke (self.old, device.old) (self.new, device.new)) }
        ensures kind { IfErr result (refuses (self.new, device.new)) }
    {
        self.take(device, &Line::Leaf(eight_rows(squares, orientation, id)))
    }

    // At first it took nothing.
    ghost begins: { (a : Self × D) → took a a [] };

    // It may stop after each line.
    ghost stops: { (a : Self × D) → ready a → BreaksOff took broke a a };
}
