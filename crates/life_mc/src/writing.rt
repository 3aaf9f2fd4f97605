//! Macrocell files as texts.

ghost use Rattle.std.specs.Prelude.{◌≡◌, ◌++◌, flat_map, OnOk, IfOk, IfErr};
ghost use Rattle.life_mc.specs.Words.{fault_of, Memory, mc_text, file_text, header_lines_text, node_text, IsMemory};

use crate::file::McFile;
use crate::line::Line;
use crate::line_writing::append_line;
use life_base::{Fault, Kind, Rule, append, append_number};
use std::alloc::Global;

/// Adds the lines of squares at the end, each ended by a line feed.
fn append_lines(out: &mut Vec<u8>, lines: &[Line]) -> Result<(), Kind>
    ensures ok { OnOk result (out.new.items ≡ out.old.items ++ flat_map node_text lines.now) }
    ensures err { IfErr result IsMemory }
{
    for line in lines {
        append_line(out, line)?;
    }
    Ok(())
}

/// Adds the prefix of a file at the end: the header, the rule, and the generation if it isn't 0, each line ended by a line feed.
///
/// # Errors
///
/// `Memory`, and nothing else. What `out` holds then is not promised: drop it.
pub fn append_prefix(out: &mut Vec<u8>, rule: &Rule, generation: u64) -> Result<(), Kind>
    ensures ok { OnOk result (out.new.items ≡ out.old.items
        ++ header_lines_text rule.now generation) }
    ensures kind { IfErr result IsMemory }
{
    append(out, b"[M2] (canonical 1)\n#R ")?;
    rule.write(out)?;
    append(out, b"\n")?;
    if generation == 0 {
        return Ok(());
    }
    append(out, b"#G ")?;
    append_number(out, generation)?;
    append(out, b"\n")
}

/// Adds the text of a rule, a generation and squares at the end.
fn append_parts(out: &mut Vec<u8>, rule: &Rule, generation: u64, lines: &[Line]) -> Result<(), Kind>
    ensures ok { OnOk result
        (out.new.items ≡ out.old.items ++ file_text rule.now generation lines.now) }
    ensures err { IfErr result IsMemory }
{
    append_prefix(out, rule, generation)?;
    append_lines(out, lines)
}

/// The text of a file: the header, the rule, the generation if it isn't 0, and the squares in their order, each line ended by
/// a line feed.
///
/// # Errors
///
/// `Memory`, at no line, and nothing else.
pub fn write_mc(alloc: Global, file: &McFile) -> Result<Vec<u8>, Fault>
    ensures ok { IfOk result (λ out. out.items ≡ mc_text file.now) }
    ensures err { IfErr result (λ fault. fault ≡ fault_of Memory) }
{
    let mut out = Vec::new(alloc);
    append_parts(&mut out, &file.rule, file.generation, file.lines.as_slice())?;
    Ok(out)
}
