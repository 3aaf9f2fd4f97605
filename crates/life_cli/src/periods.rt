//! The work of the task that writes the period of a pattern.

ghost use Rattle.std.specs.Prelude.{◌≡◌};
ghost use Rattle.life_cli.specs.Words.{source_run, ComesOf, IsShownWithPeriod, RefusesPeriodOfFile};

use life_base::{Fault, Source};
use life_periods::show_with_period;
use life_quad::Shared;
use pattern_sources::{MOST_SQUARES, Seeds, pattern_of};
use std::alloc::Global;

/// The five lines of a source's pattern, and the line of its period under its B/S rule, which is sought up to so many generations.
pub(crate) fn lines_with_period_of<A: Source>(
    alloc: Global,
    seeds: &Seeds,
    most: u64,
    first: &mut A,
) -> Result<Vec<u8>, Fault>
    requires { A.failures first.old ≡ 0 }
    ensures { ComesOf (λ text. text.items) (IsShownWithPeriod most) (RefusesPeriodOfFile most)
        (source_run A.remaining A.failures first.old first.new) result }
{
    let mut store = Shared::seeded(alloc, seeds.squares, MOST_SQUARES);
    let pattern = pattern_of(alloc, &mut store, first)?;
    show_with_period(alloc, &store, &pattern, most)
}
