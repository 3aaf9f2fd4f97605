//! Laws of periods. The contract of each function states a law. Calling it gives the law to the prover; at run time the call does nothing.
ghost use Rattle.life_phases.specs.Words.{GenerationsKeepShifts, ShiftsKeepPeriods, PeriodsAreUnique};

/// The generations of a shifted pattern are shifted as far.
pub fn generations_keep_shifts()
    ensures { GenerationsKeepShifts }
{}

/// A shifted pattern has the same periods.
pub fn shifts_keep_periods()
    ensures { ShiftsKeepPeriods }
{}

/// A pattern has at most one least period, and moves by one distance in it.
pub fn periods_are_unique()
    ensures { PeriodsAreUnique }
{}
