//! The line that says a period.
ghost use Rattle.std.specs.Prelude.{◌≡◌, ◌++◌, OnOk, IfErr};
ghost use Rattle.life_periods.specs.Words.{IsMemory, is_moving, kind_words, period_line};

use life_base::{Kind, append, append_number};
use life_phases::{Period, Shift};

/// Whether a pattern moves by this.
fn is_moving(shift: Shift) -> bool
    ensures { result ≡ is_moving shift }
{
    shift.columns != 0 || shift.rows != 0
}

/// Adds what a pattern with this period is called at the end, and how far it moves where it does.
fn append_kind(out: &mut Vec<u8>, period: Period) -> Result<(), Kind>
    ensures ok { OnOk result (out.new.items ≡ out.old.items ++ kind_words period) }
    ensures kind { IfErr result IsMemory }
{
    if is_moving(period.shift) {
        append(out, b" spaceship ")?;
        append_number(out, period.shift.columns)?;
        append(out, b" ")?;
        return append_number(out, period.shift.rows);
    }
    if period.generations == 1 {
        return append(out, b" still life");
    }
    append(out, b" oscillator")
}

/// Adds the line of a period at the end: `period N` and what the pattern is called, a still life, an oscillator or a spaceship, which is followed by the columns
/// east and the rows south by which it moves. Or, where no period up to `most` was found, `period none up to` that number.
///
/// # Errors
///
/// `Memory` alone. The vector may have got a part of the line then.
pub fn append_period(out: &mut Vec<u8>, found: Option<Period>, most: u64) -> Result<(), Kind>
    ensures ok { OnOk result (out.new.items ≡ out.old.items ++ period_line most found) }
    ensures kind { IfErr result IsMemory }
{
    let Some(period) = found else {
        append(out, b"period none up to ")?;
        append_number(out, most)?;
        return append(out, b"\n");
    };
    append(out, b"period ")?;
    append_number(out, period.generations)?;
    append_kind(out, period)?;
    append(out, b"\n")
}
