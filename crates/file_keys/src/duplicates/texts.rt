//! What the command `duplicates` prints.

ghost use Rattle.std.specs.Prelude.{◌≡◌, OnOk, map, true};
ghost use Rattle.file_keys.specs.Words.{ended_name, groups_text, kept_groups, kept_names, LeavesSink, names_text, next_names, WritesText};

use super::groups::{Group, Groups};
use crate::keys::lines::write_escaped;
use life_base::{Kind, Sink, write_text, write_texts};

/// Writes a name and its end.
fn write_name<W: Sink>(out: &mut W, name: &[u8], zero: bool) -> Result<(), Kind>
    requires { W.failures out.old ≡ 0 }
    ensures text { WritesText (W.contents out.old) (W.contents out.new) (ended_name zero name.now)
        result }
    ensures sink { LeavesSink W.failures W.stalled out.old out.new result }
{
    if zero {
        return write_texts(out, &[name, b"\0"]);
    }
    write_escaped(out, name)?;
    write_text(out, b"\n")
}

/// Writes names, one after another.
fn write_names<W: Sink>(out: &mut W, names: &[&[u8]], zero: bool) -> Result<(), Kind>
    requires { W.failures out.old ≡ 0 }
    ensures text { WritesText (W.contents out.old) (W.contents out.new)
        (names_text zero (map (λ name. name.now) names.now)) result }
    ensures sink { LeavesSink W.failures W.stalled out.old out.new result }
{
    for name in names {
        write_name(out, name, zero)?;
    }
    Ok(())
}

/// Writes the names of a group.
fn write_group<W: Sink>(out: &mut W, group: &Group<'_>, zero: bool) -> Result<(), Kind>
    requires { W.failures out.old ≡ 0 }
    ensures text { WritesText (W.contents out.old) (W.contents out.new)
        (names_text zero (kept_names group.now)) result }
    ensures sink { LeavesSink W.failures W.stalled out.old out.new result }
{
    write_name(out, group.first, zero)?;
    write_names(out, group.more.as_slice(), zero)
}

/// Writes the names of a group, after an empty one unless it is the first group.
fn write_next<W: Sink>(
    out: &mut W,
    group: &Group<'_>,
    zero: bool,
    is_first: bool,
) -> Result<(), Kind>
    requires { W.failures out.old ≡ 0 }
    ensures text { WritesText (W.contents out.old) (W.contents out.new)
        (names_text zero (next_names is_first (kept_names group.now))) result }
    ensures sink { LeavesSink W.failures W.stalled out.old out.new result }
{
    if is_first {
        return write_group(out, group, zero);
    }
    write_name(out, b"", zero)?;
    write_group(out, group, zero)
}

/// Writes the groups of more than one file, and an empty name between two of them.
fn write_all<W: Sink>(out: &mut W, groups: &Groups<'_>, zero: bool) -> Result<(), Kind>
    requires { W.failures out.old ≡ 0 }
    ensures text { WritesText (W.contents out.old) (W.contents out.new)
        (groups_text zero (kept_groups groups.now)) result }
    ensures sink { LeavesSink W.failures W.stalled out.old out.new result }
{
    let mut is_first = true;
    for group in groups.by_key.values() {
        if !group.is_alone() {
            write_next(out, group, zero, is_first)?;
            is_first = false;
        }
    }
    Ok(())
}

/// Writes the groups, and flushes.
pub(super) fn write_groups<W: Sink>(
    out: &mut W,
    groups: &Groups<'_>,
    zero: bool,
) -> Result<(), Kind>
    requires { W.failures out.old ≡ 0 }
    ensures text { WritesText (W.contents out.old) (W.contents out.new)
        (groups_text zero (kept_groups groups.now)) result }
    ensures sink { LeavesSink W.failures W.stalled out.old out.new result }
    ensures flushed { OnOk result (W.flushed out.new ≡ true) }
{
    write_all(out, groups, zero)?;
    out.flush()
}
