//! Calls on files that are lent a store.

use crate::answer::{Answer, Show, show_dropped, show_outcome};
use crate::feeding::{Dripping, each, from_source, text_run};
use crate::patterns::{
    OfPattern, becomes_by_rows, by_table, canonical, cut, show_both, show_equal, stepped,
    stepped_and_other, text_of_file, texts_fed, texts_read,
};
use crate::row::number_of;
use life_base::Fault;
use life_canon::{canon, same, show, to_rle};
use life_quad::Shared;
use life_reader::read;
use std::alloc::Global;

/// A call that makes a text of a file.
#[derive(Clone, Copy)]
pub(crate) enum Text {
    Canon,
    Show,
    ToRle,
    Run,
    RunByBytes,
    RunWithin,
    Lesser,
    StepLife,
    StepTable,
    OfPattern(OfPattern),
}

/// The text that a call makes of a file, or of a number or a text and a file.
fn text_by(
    alloc: Global,
    out: &mut Answer,
    store: &mut Shared,
    call: Text,
    texts: [&[u8]; 3],
) -> Result<Vec<u8>, Fault> {
    let [first, second, third] = texts;
    match call {
        Text::Canon => canon(alloc, store, first),
        Text::Show => show(alloc, store, first),
        Text::ToRle => to_rle(alloc, store, first),
        Text::Run => text_run(alloc, store, first, None),
        Text::RunByBytes => text_run(alloc, store, Dripping { left: first }, None),
        Text::RunWithin => {
            let most = number_of(out, first).min(1 << 30);
            text_run(alloc, store, second, Some(most))
        }
        Text::Lesser => text_of_file(alloc, store, OfPattern::Lesser, second, first),
        Text::StepLife => stepped(alloc, store, second, None, number_of(out, first)),
        Text::StepTable => by_table(alloc, store, second, third, number_of(out, first)),
        Text::OfPattern(call) => text_of_file(alloc, store, call, first, second),
    }
}

/// A call that is lent a store. Those of which it is said use stores of their own.
#[derive(Clone, Copy)]
pub(crate) enum Lent {
    /// The text of a call, or the line and the kind of a fault.
    Text(Text),
    /// The canonical text of a file that is read and numbered.
    Read,
    /// The same of a file that a reader is fed in pieces of seven bytes.
    Feed,
    /// The same of two pieces.
    TwoPieces,
    /// What a reader answers for each of three pieces, and at its end.
    EachPiece,
    /// The faults of the calls for the canonical text, the five lines, the runs and the pattern of a file.
    Refused,
    /// The five lines on the pattern that a source gives, and the pattern in RLE.
    ReadFrom,
    /// Whether two files are the same.
    IsSame,
    /// The same, and again in the other order.
    Compared,
    /// Whether a file that is stepped row by row becomes another file; `none` of one that is left to a step by squares.
    BecomesByRows,
    /// The canonical text of a file, and that of this text where it is another. In stores of their own.
    Canonical,
    /// The canonical text of a file in pieces, cut at each place. In stores of their own.
    InPieces,
    /// Whether so many steps make of a file the canonical text of another one. In stores of their own.
    Becomes,
}

/// Adds what a call answers that is lent a store.
pub(crate) fn answer(
    alloc: Global,
    out: &mut Answer,
    store: &mut Shared,
    call: Lent,
    texts: [&[u8]; 3],
) {
    let [first, second, third] = texts;
    match call {
        Lent::Text(call) => {
            let text = text_by(alloc, out, store, call, texts);
            show_dropped(out, text);
        }
        Lent::Read => show_both(out, texts_read(alloc, store, first)),
        Lent::Feed => show_both(out, texts_fed(alloc, store, &[], first, 7)),
        Lent::TwoPieces => show_both(out, texts_fed(alloc, store, first, second, usize::MAX)),
        Lent::EachPiece => each(alloc, out, store, texts),
        Lent::Refused => {
            show_outcome(out, "none", canon(alloc, store, first));
            out.text(", ");
            show_outcome(out, "none", show(alloc, store, first));
            out.text(", ");
            show_outcome(out, "none", to_rle(alloc, store, first));
            out.text(", ");
            show_outcome(out, "none", read(alloc, store, first));
        }
        Lent::ReadFrom => from_source(alloc, out, store, first),
        Lent::IsSame => same(alloc, store, first, second).show(out),
        Lent::Compared => {
            same(alloc, store, first, second).show(out);
            out.text(", ");
            same(alloc, store, second, first).show(out);
        }
        Lent::BecomesByRows => becomes_by_rows(alloc, out, store, first, second),
        Lent::Canonical => show_both(out, canonical(alloc, first)),
        Lent::InPieces => cut(alloc, out, first),
        Lent::Becomes => {
            let steps = number_of(out, first);
            show_equal(out, stepped_and_other(alloc, steps, second, third));
        }
    }
}
