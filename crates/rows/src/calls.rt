//! The calls that rows name.

use crate::answer::Answer;
use crate::bytes::bytes_of;
use crate::files::{Lent, Text};
use crate::patterns::OfPattern;
use crate::row::{halves, parts_of};
use crate::squares::Kept;
use crate::stores::{Lending, new_store};
use crate::{base, files, mc, rle, squares, stores, table};
use std::alloc::Global;

/// A call.
#[derive(Clone, Copy)]
pub(crate) enum Call {
    Base(base::Call),
    Rle(rle::Call),
    Mc(mc::Call),
    Table(table::Call),
    Lent(Lent),
    Lending(Lending),
    Steps(Kept),
}

/// The calls by their names, with how many parts the input of each has.
const CALLS: [(&[u8], u8, Call); 64] = [
    (b"rule", 1, Call::Base(base::Call::Rule)),
    (b"same_rules", 2, Call::Base(base::Call::SameRules)),
    (b"name_copy", 1, Call::Base(base::Call::NameCopy)),
    (b"lines", 1, Call::Base(base::Call::Lines)),
    (b"begins_with", 2, Call::Base(base::Call::BeginsWith)),
    (b"split_word", 1, Call::Base(base::Call::SplitWord)),
    (b"leading_number", 1, Call::Base(base::Call::LeadingNumber)),
    (b"line_end", 1, Call::Base(base::Call::LineEnd)),
    (b"line_fits", 2, Call::Base(base::Call::LineFits)),
    (b"is_too_long", 1, Call::Base(base::Call::IsTooLong)),
    (b"items", 1, Call::Base(base::Call::Items)),
    (b"rules", 2, Call::Base(base::Call::Rules)),
    (b"append_numbers", 2, Call::Base(base::Call::AppendNumbers)),
    (b"next_states", 1, Call::Base(base::Call::NextStates)),
    (b"read_within", 2, Call::Base(base::Call::ReadWithin)),
    (b"read_u64", 1, Call::Base(base::Call::ReadU64)),
    (b"read_i64", 1, Call::Base(base::Call::ReadI64)),
    (b"read_rle", 1, Call::Rle(rle::Call::Read)),
    (b"rle_lines", 1, Call::Rle(rle::Call::Lines)),
    (b"rle_lines_into", 1, Call::Rle(rle::Call::LinesInto)),
    (b"sorted_cells", 3, Call::Rle(rle::Call::SortedCells)),
    (b"write_rle", 3, Call::Rle(rle::Call::Write)),
    (b"write_and_read_rle", 3, Call::Rle(rle::Call::WriteAndRead)),
    (b"read_mc", 1, Call::Mc(mc::Call::Read)),
    (b"mc_squares", 1, Call::Mc(mc::Call::Squares)),
    (b"mc_lines", 1, Call::Mc(mc::Call::Lines)),
    (b"read_table", 1, Call::Table(table::Call::Read)),
    (b"table_counts", 1, Call::Table(table::Call::Counts)),
    (b"table", 1, Call::Table(table::Call::Whole)),
    (b"next", 2, Call::Table(table::Call::Next)),
    (b"canonical", 1, Call::Lent(Lent::Canonical)),
    (b"in_pieces", 1, Call::Lent(Lent::InPieces)),
    (b"becomes", 3, Call::Lent(Lent::Becomes)),
    (b"in_store", 3, Call::Lending(Lending::InStore)),
    (b"in_full_store", 1, Call::Lending(Lending::InFullStore)),
    (b"least_limit", 1, Call::Lending(Lending::LeastLimit)),
    (b"takes_room", 1, Call::Lending(Lending::TakesSpace)),
    (b"serves", 1, Call::Lending(Lending::Serves)),
    (b"refused", 1, Call::Lent(Lent::Refused)),
    (b"read", 1, Call::Lent(Lent::Read)),
    (b"feed", 1, Call::Lent(Lent::Feed)),
    (b"read_from", 1, Call::Lent(Lent::ReadFrom)),
    (b"same", 2, Call::Lent(Lent::Compared)),
    (b"is_same", 2, Call::Lent(Lent::IsSame)),
    (b"two_pieces", 2, Call::Lent(Lent::TwoPieces)),
    (b"each_piece", 3, Call::Lent(Lent::EachPiece)),
    (b"becomes_by_rows", 2, Call::Lent(Lent::BecomesByRows)),
    (b"canon", 1, Call::Lent(Lent::Text(Text::Canon))),
    (b"show", 1, Call::Lent(Lent::Text(Text::Show))),
    (b"to_rle", 1, Call::Lent(Lent::Text(Text::ToRle))),
    (b"run", 1, Call::Lent(Lent::Text(Text::Run))),
    (b"byte_by_byte", 1, Call::Lent(Lent::Text(Text::RunByBytes))),
    (b"run_within", 2, Call::Lent(Lent::Text(Text::RunWithin))),
    (b"lesser", 2, Call::Lent(Lent::Text(Text::Lesser))),
    (b"step_life", 2, Call::Lent(Lent::Text(Text::StepLife))),
    (b"step_table", 3, Call::Lent(Lent::Text(Text::StepTable))),
    (
        b"next_by_rule",
        1,
        Call::Lent(Lent::Text(Text::OfPattern(OfPattern::NextByRule))),
    ),
    (
        b"next_by_table",
        2,
        Call::Lent(Lent::Text(Text::OfPattern(OfPattern::NextByTable))),
    ),
    (
        b"moved",
        1,
        Call::Lent(Lent::Text(Text::OfPattern(OfPattern::Moved))),
    ),
    (
        b"turned",
        1,
        Call::Lent(Lent::Text(Text::OfPattern(OfPattern::Turned))),
    ),
    (
        b"period",
        2,
        Call::Lent(Lent::Text(Text::OfPattern(OfPattern::Period))),
    ),
    (b"shared", 3, Call::Steps(Kept::Shared)),
    (b"new", 3, Call::Steps(Kept::New)),
    (b"plain", 3, Call::Steps(Kept::Plain)),
];

/// The call of a name, and how many parts its input has.
pub(crate) fn call_named(name: &[u8]) -> Option<(u8, Call)> {
    for &(known, count, call) in &CALLS {
        if known == name {
            return Some((count, call));
        }
    }
    None
}

/// Bytes of an answer for which memory is taken at once, so that most requests for memory are those of calls.
const BYTES: usize = 1 << 13;

/// Adds what a call answers to the parts of an input.
fn answer(alloc: Global, out: &mut Answer, call: Call, texts: [&[u8]; 3]) {
    match call {
        Call::Base(call) => base::answer(alloc, out, call, texts),
        Call::Rle(call) => rle::answer(alloc, out, call, texts),
        Call::Mc(call) => mc::answer(alloc, out, call, texts[0]),
        Call::Table(table::Call::Next) => {
            table::answer(alloc, out, table::Call::Next, texts[1], texts[0]);
        }
        Call::Table(call) => table::answer(alloc, out, call, texts[0], &[]),
        Call::Lent(call) => files::answer(alloc, out, &mut new_store(alloc), call, texts),
        Call::Lending(call) => stores::answer(alloc, out, call, texts),
        Call::Steps(kept) => squares::answer(alloc, out, kept, texts),
    }
}

/// The answer of a row.
pub(crate) fn answer_to(alloc: Global, row: &[u8]) -> Answer {
    let mut out = Answer::with_capacity(alloc, BYTES);
    let (name, input) = halves(&mut out, row);
    match call_named(name) {
        Some((count, call)) => {
            let bytes = bytes_of(alloc, &mut out, input);
            let texts = parts_of(&mut out, &bytes, count);
            answer(alloc, &mut out, call, texts);
        }
        None => out.is_bad = true,
    }
    out
}
