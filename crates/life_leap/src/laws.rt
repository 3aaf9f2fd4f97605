//! Laws of many generations. The contract of each function states a law. Calling it gives the law to the prover; at run time the call does nothing.
ghost use Rattle.life_leap.specs.Words.{AfterAdds, DependsOnNear, LeapsDouble};

/// m + n generations are n generations and then m.
pub fn generations_add()
    ensures { AfterAdds }
{}

/// The states of a box n generations later depend only on the states in the box that is n columns and rows wider on each side.
pub fn boxes_depend_on_near()
    ensures { DependsOnNear }
{}

/// The two parts of a leap: first the nine blocks of two by two among the sixteen quarters of a square's quarters, then the four blocks among the nine
/// squares in their middles. Together they give the square in the middle after all generations of the leap.
pub fn leaps_double()
    ensures { LeapsDouble }
{}
