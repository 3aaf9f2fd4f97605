//! Bytes and numbers, added to a text.

ghost use Rattle.std.specs.Prelude.{◌≡◌, ◌++◌, OnOk, OnErr, IfErr};
ghost use Rattle.life_base.specs.Words.{IsMemory};

use crate::kind::Kind;
use itoa::{Buffer, Integer};

/// Adds bytes at the end; a refusal, by `Memory` alone, leaves the vector as it was.
pub fn append(out: &mut Vec<u8>, bytes: &[u8]) -> Result<(), Kind>
    ensures ok { OnOk result (out.new.items ≡ out.old.items ++ bytes.now) }
    ensures err { OnErr result (out.new.items ≡ out.old.items) }
    ensures kind { IfErr result IsMemory }
{
    out.extend_from_slice(bytes)?;
    Ok(())
}

/// Adds a number in digits at the end, after `-` if it is below 0; a refusal leaves the vector as it was.
pub fn append_number<N: Integer>(out: &mut Vec<u8>, number: N) -> Result<(), Kind>
    ensures ok { OnOk result (out.new.items ≡ out.old.items ++ N.text number) }
    ensures err { OnErr result (out.new.items ≡ out.old.items) }
    ensures kind { IfErr result IsMemory }
{
    let mut buffer = Buffer::new();
    append(out, buffer.format(number).as_bytes())
}
