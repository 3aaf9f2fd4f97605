//! Files of other kinds than patterns and rule tables, recognized by their first bytes.

ghost use Rattle.std.specs.Prelude.{◌≡◌, ◌<◌, length};
ghost use Rattle.file_hints.specs.Words.{foreign_at_start, foreign_of, binary_of, text_kind_of, other_pattern_of, returns_of, first_item_line, first_text, has_byte, has_no_item, has_only, lines_but_first, lines_of, holds_text, is_headerless, is_image, is_plaintext, is_tar, without_space};

use crate::foreign::Foreign;
use life_base::{begins_with, line_end};

/// How many bytes of a file are looked at to recognize it: the mark of a tar file is among them. They are few, because `keys` looks at those of each file.
pub const HEAD: usize = 512;

/// Whether a file of this kind holds text, so that a line of it can be shown.
pub fn is_text(foreign: Foreign) -> bool
    ensures { result ≡ holds_text foreign }
{
    !matches!(
        foreign,
        Foreign::Gzip
            | Foreign::Bzip2
            | Foreign::Xz
            | Foreign::Zip
            | Foreign::Tar
            | Foreign::Image
            | Foreign::Binary
    )
}

/// Whether a text has this byte.
fn has(text: &[u8], byte: u8) -> bool
    ensures { result ≡ has_byte byte text.now }
{
    text.contains(&byte)
}

/// Whether a text has no other bytes than these.
fn has_only(text: &[u8], bytes: &[u8]) -> bool
    ensures { result ≡ has_only bytes.now text.now }
{
    text.iter().all(|byte| has(bytes, *byte))
}

/// Whether these are the first bytes of a tar file.
fn is_tar(head: &[u8]) -> bool
    ensures { result ≡ is_tar head.now }
{
    if head.len() < 257 {
        return false;
    }
    begins_with(&head[257..], b"ustar")
}

/// Whether these are the first bytes of an image: PNG, GIF or JPEG.
fn is_image(head: &[u8]) -> bool
    ensures { result ≡ is_image head.now }
{
    begins_with(head, b"\x89PNG")
        || begins_with(head, b"GIF8")
        || begins_with(head, b"\xFF\xD8\xFF")
}

/// What a file is that holds no text.
fn recognize_binary(head: &[u8]) -> Option<Foreign>
    ensures { result ≡ binary_of head.now }
{
    if begins_with(head, b"\x1F\x8B") {
        Some(Foreign::Gzip)
    } else if begins_with(head, b"BZh") {
        Some(Foreign::Bzip2)
    } else if begins_with(head, b"\xFD7zXZ\0") {
        Some(Foreign::Xz)
    } else if begins_with(head, b"PK") {
        Some(Foreign::Zip)
    } else if is_tar(head) {
        Some(Foreign::Tar)
    } else if is_image(head) {
        Some(Foreign::Image)
    } else if has(head, b'\0') {
        Some(Foreign::Binary)
    } else {
        None
    }
}

/// The text without the spaces, tabs, line ends and form feeds at its beginning.
fn without_space(text: &[u8]) -> &[u8]
    ensures { result.now ≡ without_space text.now }
{
    let mut rest = text;
    while let [first, others @ ..] = rest {
        if !first.is_ascii_whitespace() {
            break;
        }
        rest = others;
    }
    rest
}

/// What a file of text is that is neither a pattern nor a rule table.
fn recognize_text(head: &[u8]) -> Option<Foreign>
    ensures { result ≡ text_kind_of head.now }
{
    if head.is_empty() {
        Some(Foreign::Empty)
    } else if begins_with(without_space(head), b"<") {
        Some(Foreign::WebPage)
    } else if begins_with(head, b"\xEF\xBB\xBF") {
        Some(Foreign::ByteOrderMark)
    } else {
        None
    }
}

/// The first line, without its line feed.
fn first_line(head: &[u8]) -> &[u8]
    ensures { result.now ≡ first_text (lines_of head.now) }
{
    match line_end(head) {
        Some(end) => &head[..end],
        None => head,
    }
}

/// Whether the first line is one of plaintext: a comment, or a row.
fn is_plaintext(head: &[u8]) -> bool
    ensures { result ≡ is_plaintext head.now }
{
    let line = first_line(head);
    begins_with(line, b"!") || (!line.is_empty() && has_only(line, b".O*\r"))
}

/// What follows the first line.
fn after_first_line(text: &[u8]) -> &[u8]
    ensures lines { lines_of result.now ≡ lines_but_first (lines_of text.now) }
    ensures shorter { 0 < length text.now → length result.now < length text.now }
{
    match line_end(text) {
        Some(end) => &text[end + 1..],
        None => &[],
    }
}

/// Whether a line is empty or a comment.
fn has_no_item(line: &[u8]) -> bool
    ensures { result ≡ has_no_item line.now }
{
    line.is_empty() || begins_with(line, b"#")
}

/// The first line that is neither empty nor a comment, or else an empty line.
fn first_item_line(head: &[u8]) -> &[u8]
    ensures { result.now ≡ first_item_line head.now }
{
    let mut rest = head;
    while !rest.is_empty() {
        let line = first_line(rest);
        if !has_no_item(line) {
            return line;
        }
        rest = after_first_line(rest);
    }
    rest
}

/// Whether the first line that is no comment has items of RLE alone.
fn is_headerless(head: &[u8]) -> bool
    ensures { result ≡ is_headerless head.now }
{
    let line = first_item_line(head);
    has(line, b'o') && has_only(line, b"0123456789bo$!. \t\r\x0C")
}

/// What a file is where a pattern was wanted.
fn recognize_pattern(head: &[u8]) -> Option<Foreign>
    ensures { result ≡ other_pattern_of head.now }
{
    if begins_with(head, b"#Life 1.05") {
        Some(Foreign::Life105)
    } else if begins_with(head, b"#Life 1.06") {
        Some(Foreign::Life106)
    } else if begins_with(head, b"#MCell") {
        Some(Foreign::MCell)
    } else if begins_with(head, b"@RULE") {
        Some(Foreign::RuleTable)
    } else if is_plaintext(head) {
        Some(Foreign::Plaintext)
    } else if is_headerless(head) {
        Some(Foreign::Headerless)
    } else {
        None
    }
}

/// What a file is whose lines have no line feeds.
fn recognize_returns(head: &[u8]) -> Option<Foreign>
    ensures { result ≡ returns_of head.now }
{
    if has(head, b'\r') && !has(head, b'\n') {
        Some(Foreign::Returns)
    } else {
        None
    }
}

/// What a file is by these first bytes, if it is something that the program doesn't read.
fn recognize_head(head: &[u8], is_table: bool) -> Option<Foreign>
    ensures { result ≡ foreign_of is_table head.now }
{
    if let Some(foreign) = recognize_binary(head) {
        return Some(foreign);
    }
    if let Some(foreign) = recognize_text(head) {
        return Some(foreign);
    }
    if !is_table {
        if let Some(foreign) = recognize_pattern(head) {
            return Some(foreign);
        }
    }
    recognize_returns(head)
}

/// What a file is, if it is something that the program doesn't read, by no more than its first `HEAD` bytes. `is_table` says whether a rule table was wanted.
pub fn recognize(bytes: &[u8], is_table: bool) -> Option<Foreign>
    ensures { result ≡ foreign_at_start is_table bytes.now }
{
    if bytes.len() > HEAD {
        recognize_head(&bytes[..HEAD], is_table)
    } else {
        recognize_head(bytes, is_table)
    }
}
