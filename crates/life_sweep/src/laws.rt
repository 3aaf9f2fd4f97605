//! Laws over the definitions alone.
ghost use Rattle.life_sweep.specs.Words.{LifeAnswersAt, TableAnswersAt};

/// The law of a B/S rule answers with the next state under the rule.
pub fn life_answers_at()
    ensures { LifeAnswersAt }
{}

/// The law of a table answers what the table answers for the cell.
pub fn table_answers_at()
    ensures { TableAnswersAt }
{}
