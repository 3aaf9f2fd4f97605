//! Texts written to a sink.
ghost use Rattle.std.specs.Prelude.{◌≡◌, true, OnOk};
ghost use Rattle.life_base.specs.Words.{flat_map, WritesText, LeavesSink};

use crate::devices::Sink;
use crate::kind::Kind;

/// Writes the whole text. `WriteFault` is the only refusal: the sink failed, or else it took no bytes and stalls from then on.
/// A prefix of the text was written then.
pub fn write_text<W: Sink>(writer: &mut W, text: &[u8]) -> Result<(), Kind>
    requires { W.failures writer.old ≡ 0 }
    ensures text { WritesText (W.contents writer.old) (W.contents writer.new) text.now result }
    ensures sink { LeavesSink W.failures W.stalled writer.old writer.new result }
{
    let mut at = 0;
    while at < text.len() {
        let count = writer.write(&text[at..])?;
        if count == 0 {
            return Err(Kind::WriteFault);
        }
        at += count;
    }
    Ok(())
}

/// Writes the texts, one after another, as `write_text` writes one.
pub fn write_texts<W: Sink>(writer: &mut W, texts: &[&[u8]]) -> Result<(), Kind>
    requires { W.failures writer.old ≡ 0 }
    ensures text { WritesText (W.contents writer.old) (W.contents writer.new)
        (flat_map (λ text. text.now) texts.now) result }
    ensures sink { LeavesSink W.failures W.stalled writer.old writer.new result }
{
    for text in texts {
        write_text(writer, text)?;
    }
    Ok(())
}

/// Writes the whole text and flushes. `WriteFault` is the only refusal, and also that of a failed flush.
pub fn deliver<W: Sink>(writer: &mut W, text: &[u8]) -> Result<(), Kind>
    requires { W.failures writer.old ≡ 0 }
    ensures text { WritesText (W.contents writer.old) (W.contents writer.new) text.now result }
    ensures sink { LeavesSink W.failures W.stalled writer.old writer.new result }
    ensures flushed { OnOk result (W.flushed writer.new ≡ true) }
{
    write_text(writer, text)?;
    writer.flush()
}
