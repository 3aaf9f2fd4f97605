//! The work of a task.

ghost use Rattle.std.specs.Prelude.{◌≡◌, ◌≢◌, ◌⊎◌, ◌<◌, ◌↔◌, ◌^◌, IsSome, IfSome, IfOk, IfErr, OnOk, IsErrAnd, IsTrue, Ok, Err, true, false};
ghost use Rattle.life_cli.specs.Words.{Appends, SourceRun, source_run, optional_source_run, sink_run, Refusal, Refuses, Keeps, stored_squares, AreWorking, ReadsPattern, ReadsWhole, RunsCanon, AreOfInput, IsRleOf, IsShownText, fault_line, refusal_of, status_of, Reports, made_status, made_text, MadeOf, TaskMakes, Worked, OfFile, OfOneFile, InputRefuses, IsWrittenInPart, ComesOf, IsUncompared, refusal_in, CanonRefuses, IsPatternIn, IsShortageFor, TaskRan, TaskRefuses, RefusesMany, HasSecond, WritesPlacedText, task_of};

use crate::later::{later_by_table_of, later_of};
use crate::periods::lines_with_period_of;
use crate::steps::{next_by_table_of, next_of};
use command_line::{Form, Job, Target, Task};
use life_base::{Fault, Kind, MAX_LEVEL, Sink, Source, deliver};
use life_pattern::Pattern;
use life_pattern::laws::{patterns_stay, refusals_have_kinds};
use life_quad::Shared;
use life_writer::{five_lines_of, rle_of};
use pattern_forms::{FaultOfTwo, compare_in};
use pattern_sources::{
    MOST_SQUARES, Refusal, Seeds, pattern_of, status, tell, text_of_source, write_canonical,
};
use std::alloc::Global;

/// What a task made of its files, before any of it is written.
#[derive(Drop)]
pub enum Made {
    /// A text.
    Text(Vec<u8>),
    /// Whether the two files are the same pattern in the form.
    Comparison(bool),
}

impl Made {
    /// What is written.
    fn text(&self) -> &[u8]
        ensures { result.now ≡ made_text self.now }
    {
        match self {
            Made::Text(text) => text.as_slice(),
            Made::Comparison(true) => b"same\n",
            Made::Comparison(false) => b"different\n",
        }
    }

    /// The status of the task.
    fn status(&self) -> u8
        ensures { result ≡ made_status self.now }
    {
        match self {
            Made::Text(_) | Made::Comparison(true) => 0,
            Made::Comparison(false) => 1,
        }
    }
}

/// Writes the whole text and flushes.
fn write_whole<W: Sink>(writer: &mut W, text: &[u8]) -> Result<(), Refusal>
    requires works { W.failures writer.old ≡ 0 }
    requires takes { W.stalled writer.old ≡ false }
    ensures ok { OnOk result (Appends (W.contents writer.old) (W.contents writer.new) text.now) }
    ensures flushed { OnOk result (W.flushed writer.new ≡ true) }
    ensures err { IfErr result (OfFile
        (IsWrittenInPart (sink_run W.contents W.failures W.stalled writer.old writer.new)
        text.now)) }
    ensures reported { (W.failures writer.new ≡ 1) ⊎ (W.stalled writer.new ≡ true)
        → IsErrAnd result (λ refusal. refusal.fault.kind ≡ Kind.WriteFault) }
{
    match deliver(writer, text) {
        Ok(()) => Ok(()),
        Err(kind) => Err(Fault::of(kind).into()),
    }
}

/// The text in extended RLE of a source's pattern.
fn rle_of_source<A: Source>(alloc: Global, seeds: &Seeds, first: &mut A) -> Result<Vec<u8>, Fault>
    requires { A.failures first.old ≡ 0 }
    ensures { ComesOf (λ text. text.items) (IsRleOf MAX_LEVEL (2 ^ 20)) RefusesMany
        (source_run A.remaining A.failures first.old first.new) result }
{
    let mut store = Shared::seeded(alloc, seeds.squares, MOST_SQUARES);
    let pattern = pattern_of(alloc, &mut store, first)?;
    rle_of(alloc, &store, &pattern)
}

/// The five lines of a source's pattern.
fn five_lines_of_source<A: Source>(
    alloc: Global,
    seeds: &Seeds,
    first: &mut A,
) -> Result<Vec<u8>, Fault>
    requires { A.failures first.old ≡ 0 }
    ensures { ComesOf (λ text. text.items) (IsShownText MAX_LEVEL) (Refuses MAX_LEVEL)
        (source_run A.remaining A.failures first.old first.new) result }
{
    let mut store = Shared::seeded(alloc, seeds.squares, MOST_SQUARES);
    let pattern = pattern_of(alloc, &mut store, first)?;
    five_lines_of(alloc, &store, &pattern)
}

/// Whether a fault of this kind isn't in a file: the device failed, the input is too long, the store is full, or memory ran out.
fn is_of_no_file(kind: Kind) -> bool
    ensures { IsTrue result ↔ ((kind ≡ Kind.ReadFault)
        ⊎ ((kind ≡ Kind.InputTooLong) ⊎ ((kind ≡ Kind.Full) ⊎ (kind ≡ Kind.Memory)))) }
{
    matches!(
        kind,
        Kind::ReadFault | Kind::InputTooLong | Kind::Full | Kind::Memory
    )
}

/// The refusal with the fault of one of two pattern files.
fn refusal_in(of_second: bool, fault: Fault) -> Refusal
    ensures { result ≡ refusal_in of_second fault }
{
    Refusal {
        fault,
        in_table: false,
        of_second,
        made: 0,
    }
}

/// The pattern of one of two sources in the store, or the refusal of its file.
fn pattern_in<A: Source>(
    alloc: Global,
    store: &mut Shared,
    source: &mut A,
    of_second: bool,
) -> Result<Result<Pattern, Refusal>, Refusal>
    requires { A.failures source.old ≡ 0 }
    ensures pattern { IfOk result (IsPatternIn of_second store.old store.new
        (source_run A.remaining A.failures source.old source.new)) }
    ensures err { IfErr result (OfOneFile of_second (λ fault. InputRefuses
        (source_run A.remaining A.failures source.old source.new) fault
        ⊎ IsShortageFor (stored_squares store.old)
        (source_run A.remaining A.failures source.old source.new)
        store.new fault)) }
    ensures reported { A.failures source.new ≡ 1
        → IsErrAnd result (λ refusal. refusal.fault.kind ≡ Kind.ReadFault) }
    ensures squares { AreOfInput (stored_squares store.old) (A.remaining source.old)
        (stored_squares store.new) }
    ensures keeps { Keeps store.old store.new }
{
    refusals_have_kinds();
    match pattern_of(alloc, store, source) {
        Ok(pattern) => Ok(Ok(pattern)),
        Err(fault) if is_of_no_file(fault.kind) => Err(refusal_in(of_second, fault)),
        Err(fault) => Ok(Err(refusal_in(of_second, fault))),
    }
}

/// The answer of a comparison, or the refusal with its fault.
fn made_from_comparison(answer: Result<bool, FaultOfTwo>) -> Result<Made, Refusal>
    ensures answer { IfOk answer (λ is_same. result ≡ Ok (Made.Comparison is_same)) }
    ensures refused { IfErr answer (λ it. result ≡ Err (refusal_in it.of_second it.fault)) }
{
    match answer {
        Ok(is_same) => Ok(Made::Comparison(is_same)),
        Err(refused) => Err(refusal_in(refused.of_second, refused.fault)),
    }
}

/// Whether two sources have the same pattern in a form. What keeps `other` from being read is reported before the fault of the file of `one`. A refusal says
/// which of the two files is at fault.
fn compared<A: Source, B: Source>(
    alloc: Global,
    seeds: &Seeds,
    form: Form,
    one: &mut A,
    other: &mut B,
) -> Result<Made, Refusal>
    requires one { A.failures one.old ≡ 0 }
    requires other { B.failures other.old ≡ 0 }
    ensures ok { IfOk result (TaskMakes (Task.Same form)
        (source_run A.remaining A.failures one.old one.new)
        (source_run B.remaining B.failures other.old other.new)) }
    ensures err { IfErr result (IsUncompared form
        (source_run A.remaining A.failures one.old one.new)
        (source_run B.remaining B.failures other.old other.new)) }
    ensures reported { (A.failures one.new ≡ 1) ⊎ (B.failures other.new ≡ 1)
        → IsErrAnd result (λ refusal. refusal.fault.kind ≡ Kind.ReadFault) }
{
    patterns_stay();
    let mut store = Shared::seeded(alloc, seeds.squares, MOST_SQUARES);
    let a = pattern_in(alloc, &mut store, one, false)?;
    let b = pattern_in(alloc, &mut store, other, true)?;
    made_from_comparison(compare_in(alloc, &store, form, &a?, &b?))
}

/// A text that was made, or the refusal with its fault, which is none of a table.
fn made_from_text(text: Result<Vec<u8>, Fault>) -> Result<Made, Refusal>
    ensures text { IfOk text (λ text. result ≡ Ok (Made.Text text)) }
    ensures fault { IfErr text (λ fault. result ≡ Err (refusal_of fault)) }
{
    match text {
        Ok(text) => Ok(Made::Text(text)),
        Err(fault) => Err(fault.into()),
    }
}

/// A text that was made by a table, or the refusal.
fn made_from_step(text: Result<Vec<u8>, Refusal>) -> Result<Made, Refusal>
    ensures text { IfOk text (λ text. result ≡ Ok (Made.Text text)) }
    ensures refusal { IfErr text (λ refusal. result ≡ Err refusal) }
{
    match text {
        Ok(text) => Ok(Made::Text(text)),
        Err(refusal) => Err(refusal),
    }
}

/// What is written for a task, of those that don't write the canonical text of a file's pattern in its place.
fn make<A: Source, B: Source>(
    alloc: Global,
    seeds: &Seeds,
    task: &Task,
    first: &mut A,
    second: &mut Option<B>,
) -> Result<Made, Refusal>
    requires first_reads { A.failures first.old ≡ 0 }
    requires second_reads { IfSome second.old (λ b. B.failures b ≡ 0) }
    requires second_given { IsSome second.old ↔ HasSecond task.now }
    requires other { ¬ WritesPlacedText task.now }
    ensures { MadeOf task.now (source_run A.remaining A.failures first.old first.new)
        (optional_source_run B.remaining B.failures second.old second.new) result }
{
    match (task, second) {
        (Task::Canon(form), _) => made_from_text(text_of_source(alloc, seeds, *form, first)),
        (Task::Convert(Target::Rle), _) => made_from_text(rle_of_source(alloc, seeds, first)),
        (Task::Same(form), Some(second)) => compared(alloc, seeds, *form, first, second),
        (Task::Show, _) => made_from_text(five_lines_of_source(alloc, seeds, first)),
        (Task::ShowPeriod(most), _) => {
            made_from_text(lines_with_period_of(alloc, seeds, *most, first))
        }
        (Task::Step, _) => made_from_text(next_of(alloc, seeds, first)),
        (Task::StepTable, Some(second)) => {
            made_from_step(next_by_table_of(alloc, seeds, first, second))
        }
        (Task::Later(generations), _) => {
            made_from_text(later_of(alloc, seeds, *generations, first))
        }
        (Task::LaterTable(generations), Some(second)) => {
            made_from_step(later_by_table_of(alloc, seeds, *generations, first, second))
        }
        (Task::Same(_), None) | (Task::StepTable, None) | (Task::LaterTable(_), None) => {
            unreachable!()
        }
        (Task::Convert(Target::Mc), _) => unreachable!(),
    }
}

/// Whether the task writes the canonical text of its file's pattern in its place.
fn writes_placed_text(task: &Task) -> bool
    ensures { IsTrue result ↔ WritesPlacedText task.now }
{
    matches!(task, Task::Canon(Form::Placed) | Task::Convert(Target::Mc))
}

/// Writes the canonical text of the first file.
fn run_canonical<A: Source, O: Sink>(
    alloc: Global,
    seeds: &Seeds,
    first: &mut A,
    out: &mut O,
) -> Result<u8, Refusal>
    requires reads { A.failures first.old ≡ 0 }
    requires writes { O.failures out.old ≡ 0 }
    requires takes { O.stalled out.old ≡ false }
    ensures done { IfOk result (λ status. status ≡ 0) }
    ensures canon { OnOk result ((second : SourceRun)
        → Worked (Task.Canon Form.Placed) 0
        (source_run A.remaining A.failures first.old first.new) second
        (sink_run O.contents O.failures O.stalled out.old out.new)) }
    ensures flushed { OnOk result (O.flushed out.new ≡ true) }
    ensures refused { IfErr result (OfFile (CanonRefuses
        (source_run A.remaining A.failures first.old first.new)
        (sink_run O.contents O.failures O.stalled out.old out.new))) }
    ensures unwritten { IfErr result
        (λ refusal. refusal.fault.kind ≢ Kind.WriteFault → out.new ≡ out.old) }
    ensures read_reported { A.failures first.new ≡ 1
        → IsErrAnd result (λ refusal. refusal.fault.kind ≡ Kind.ReadFault) }
    ensures write_reported { (O.failures out.new ≡ 1) ⊎ (O.stalled out.new ≡ true)
        → IsErrAnd result (λ refusal. refusal.fault.kind ≡ Kind.WriteFault) }
{
    let mut store = Shared::seeded(alloc, seeds.squares, MOST_SQUARES);
    write_canonical(alloc, &mut store, first, out)?;
    Ok(0)
}

/// Does the task, and returns the status of one that is done: 1 where two files differ, and otherwise 0. `second` is the second file of a task that has
/// one. The seeds decide time alone.
///
/// # Errors
///
/// Why the task is refused. Nothing is written then, unless the output itself failed, which is `WriteFault`.
pub fn carry_out<A: Source, B: Source, O: Sink>(
    alloc: Global,
    seeds: &Seeds,
    task: &Task,
    first: &mut A,
    second: &mut Option<B>,
    out: &mut O,
) -> Result<u8, Refusal>
    requires first_reads { A.failures first.old ≡ 0 }
    requires second_reads { IfSome second.old (λ b. B.failures b ≡ 0) }
    requires second_given { IsSome second.old ↔ HasSecond task.now }
    requires writes { O.failures out.old ≡ 0 }
    requires takes { O.stalled out.old ≡ false }
    ensures ran { TaskRan task.now (source_run A.remaining A.failures first.old first.new)
        (optional_source_run B.remaining B.failures second.old second.new)
        (sink_run O.contents O.failures O.stalled out.old out.new) result }
    ensures flushed { OnOk result (O.flushed out.new ≡ true) }
    ensures unwritten { IfErr result
        (λ refusal. refusal.fault.kind ≢ Kind.WriteFault → out.new ≡ out.old) }
{
    if writes_placed_text(task) {
        return run_canonical(alloc, seeds, first, out);
    }
    let made = make(alloc, seeds, task, first, second)?;
    write_whole(out, made.text())?;
    Ok(made.status())
}

/// Does the task, and returns the status that the program ends with. `second` is the second file of a task that has one. The seeds decide time alone.
pub fn work_seeded<A: Source, B: Source, O: Sink, E: Sink>(
    alloc: Global,
    seeds: &Seeds,
    task: &Task,
    first: &mut A,
    second: &mut Option<B>,
    out: &mut O,
    err: &mut E,
) -> u8
    requires first_reads { A.failures first.old ≡ 0 }
    requires second_reads { IfSome second.old (λ b. B.failures b ≡ 0) }
    requires second_given { IsSome second.old ↔ HasSecond task.now }
    requires writes { O.failures out.old ≡ 0 }
    requires takes { O.stalled out.old ≡ false }
    requires tells { E.failures err.old ≡ 0 }
    requires hears { E.stalled err.old ≡ false }
    ensures done { result < 2 → Worked task.now result
        (source_run A.remaining A.failures first.old first.new)
        (optional_source_run B.remaining B.failures second.old second.new)
        (sink_run O.contents O.failures O.stalled out.old out.new) }
    ensures flushed { result < 2 → O.flushed out.new ≡ true }
    ensures quiet { result < 2 → err.new ≡ err.old }
    ensures refused { 1 < result → (refusal : Refusal) × (result ≡ status_of refusal.fault.kind)
        × TaskRefuses task.now (source_run A.remaining A.failures first.old first.new)
        (optional_source_run B.remaining B.failures second.old second.new)
        (sink_run O.contents O.failures O.stalled out.old out.new) refusal
        × (refusal.fault.kind ≢ Kind.WriteFault → out.new ≡ out.old)
        × (A.failures first.new ≡ 1 → refusal.fault.kind ≡ Kind.ReadFault)
        × IfSome second.new (λ b. B.failures b ≡ 1 → refusal.fault.kind ≡ Kind.ReadFault)
        × ((O.failures out.new ≡ 1) ⊎ (O.stalled out.new ≡ true)
        → refusal.fault.kind ≡ Kind.WriteFault)
        × Reports (sink_run E.contents E.failures E.stalled err.old err.new) (fault_line refusal) }
    ensures first_reported { A.failures first.new ≡ 1 → result ≡ status_of Kind.ReadFault }
    ensures second_reported { IfSome second.new
        (λ b. B.failures b ≡ 1 → result ≡ status_of Kind.ReadFault) }
    ensures write_reported { (O.failures out.new ≡ 1) ⊎ (O.stalled out.new ≡ true)
        → result ≡ status_of Kind.WriteFault }
{
    match carry_out(alloc, seeds, task, first, second, out) {
        Ok(status) => status,
        Err(refusal) => {
            tell(err, &refusal);
            status(refusal.fault.kind)
        }
    }
}

/// Does the job as `work_seeded` does its task, with fixed seeds, for input that you trust: whoever knows the seeds can choose files whose squares, or
/// whose tables' names, collide, and then each look-up takes time in proportion to their number.
pub fn work<A: Source, B: Source, O: Sink, E: Sink>(
    alloc: Global,
    job: &Job,
    first: &mut A,
    second: &mut Option<B>,
    out: &mut O,
    err: &mut E,
) -> u8
    requires first_reads { A.failures first.old ≡ 0 }
    requires second_reads { IfSome second.old (λ b. B.failures b ≡ 0) }
    requires second_given { IsSome second.old ↔ HasSecond (task_of job.now) }
    requires writes { O.failures out.old ≡ 0 }
    requires takes { O.stalled out.old ≡ false }
    requires tells { E.failures err.old ≡ 0 }
    requires hears { E.stalled err.old ≡ false }
    ensures done { result < 2 → Worked (task_of job.now) result
        (source_run A.remaining A.failures first.old first.new)
        (optional_source_run B.remaining B.failures second.old second.new)
        (sink_run O.contents O.failures O.stalled out.old out.new) }
    ensures flushed { result < 2 → O.flushed out.new ≡ true }
    ensures quiet { result < 2 → err.new ≡ err.old }
    ensures refused { 1 < result → (refusal : Refusal) × (result ≡ status_of refusal.fault.kind)
        × TaskRefuses (task_of job.now) (source_run A.remaining A.failures first.old first.new)
        (optional_source_run B.remaining B.failures second.old second.new)
        (sink_run O.contents O.failures O.stalled out.old out.new) refusal
        × (refusal.fault.kind ≢ Kind.WriteFault → out.new ≡ out.old)
        × (A.failures first.new ≡ 1 → refusal.fault.kind ≡ Kind.ReadFault)
        × IfSome second.new (λ b. B.failures b ≡ 1 → refusal.fault.kind ≡ Kind.ReadFault)
        × ((O.failures out.new ≡ 1) ⊎ (O.stalled out.new ≡ true)
        → refusal.fault.kind ≡ Kind.WriteFault)
        × Reports (sink_run E.contents E.failures E.stalled err.old err.new) (fault_line refusal) }
    ensures first_reported { A.failures first.new ≡ 1 → result ≡ status_of Kind.ReadFault }
    ensures second_reported { IfSome second.new
        (λ b. B.failures b ≡ 1 → result ≡ status_of Kind.ReadFault) }
    ensures write_reported { (O.failures out.new ≡ 1) ⊎ (O.stalled out.new ≡ true)
        → result ≡ status_of Kind.WriteFault }
{
    let task = Task::from(*job);
    work_seeded(alloc, &Seeds::fixed(), &task, first, second, out, err)
}
