//! What the words of a command line ask for.

use clap::error::ErrorKind;
use life_cli::plans::{Form, KeysPlan, Request, Task};
use life_cli::{Job, Target, Usage, plan, request};
use std::alloc::Global;
use std::process::Abort;

/// The arguments that a text writes, which have a space between each two, after the name of the program.
fn words_of<'a>(rt: &impl Abort, alloc: Global, text: &'a str) -> Vec<&'a str> {
    let mut words = Vec::new(alloc);
    words.push("golly_canon").expect(rt, "memory");
    for word in text.split_whitespace() {
        words.push(word).expect(rt, "memory");
    }
    words
}

/// Whether there is this second name, or none.
fn is_second(name: &Option<String>, wanted: Option<&str>) -> bool {
    match (name, wanted) {
        (Some(name), Some(wanted)) => name.as_str() == wanted,
        (None, None) => true,
        _ => false,
    }
}

/// Arguments with the job that they ask for, and its files.
const PLANS: [(&str, Job, &str, Option<&str>); 19] = [
    ("canon -", Job::Canon, "-", None),
    ("canon - --form placed", Job::Canon, "-", None),
    ("show -", Job::Show, "-", None),
    ("convert - --to rle", Job::Convert(Target::Rle), "-", None),
    ("convert --to rle -", Job::Convert(Target::Rle), "-", None),
    ("convert --to=mc -", Job::Convert(Target::Mc), "-", None),
    ("show -- -", Job::Show, "-", None),
    ("step -", Job::Step, "-", None),
    ("same a.mc -", Job::Same, "a.mc", Some("-")),
    ("same - b.rle", Job::Same, "-", Some("b.rle")),
    ("same same same", Job::Same, "same", Some("same")),
    ("step - --table a.rule", Job::StepTable, "-", Some("a.rule")),
    ("step --table a.rule -", Job::StepTable, "-", Some("a.rule")),
    (
        "step --table=a.rule -- -",
        Job::StepTable,
        "-",
        Some("a.rule"),
    ),
    ("canon - --explain", Job::Canon, "-", None),
    (
        "convert --explain --to mc -",
        Job::Convert(Target::Mc),
        "-",
        None,
    ),
    ("same - --explain b", Job::Same, "-", Some("b")),
    ("show --explain -- -", Job::Show, "-", None),
    ("step - --table=a --explain", Job::StepTable, "-", Some("a")),
];

/// The arguments of a text ask for this job of these files.
fn assert_plan(
    rt: &impl Abort,
    alloc: Global,
    text: &str,
    job: Job,
    first: &str,
    second: Option<&str>,
) {
    let words = words_of(rt, alloc, text);
    let Ok(found) = plan(alloc, &words) else {
        panic!(rt; "{text}");
    };
    let is_wanted = found.job == job && found.first.as_str() == first;
    assert!(rt; is_wanted && is_second(&found.second, second), "{text}");
}

#[test]
fn plans(rt: HostRuntime) {
    for &(text, job, first, second) in &PLANS {
        assert_plan(&rt, rt.alloc(), text, job, first, second);
    }
}

/// Arguments with the task that they ask for and its files, and whether they ask for a sentence about an error. The words after `--` are names.
const REQUESTS: [(&str, Task, &str, Option<&str>, bool); 32] = [
    ("canon -", Task::Canon(Form::Placed), "-", None, false),
    (
        "canon - --form placed",
        Task::Canon(Form::Placed),
        "-",
        None,
        false,
    ),
    ("show -", Task::Show, "-", None, false),
    (
        "convert - --to rle",
        Task::Convert(Target::Rle),
        "-",
        None,
        false,
    ),
    (
        "convert --to rle -",
        Task::Convert(Target::Rle),
        "-",
        None,
        false,
    ),
    (
        "convert --to=mc -",
        Task::Convert(Target::Mc),
        "-",
        None,
        false,
    ),
    ("show -- -", Task::Show, "-", None, false),
    ("step -", Task::Step, "-", None, false),
    (
        "same a.mc -",
        Task::Same(Form::Placed),
        "a.mc",
        Some("-"),
        false,
    ),
    (
        "same - b.rle",
        Task::Same(Form::Placed),
        "-",
        Some("b.rle"),
        false,
    ),
    (
        "same same same",
        Task::Same(Form::Placed),
        "same",
        Some("same"),
        false,
    ),
    (
        "canon --form=moved -",
        Task::Canon(Form::Moved),
        "-",
        None,
        false,
    ),
    (
        "canon --form turned -- -",
        Task::Canon(Form::Turned),
        "-",
        None,
        false,
    ),
    (
        "same --form moved - b",
        Task::Same(Form::Moved),
        "-",
        Some("b"),
        false,
    ),
    (
        "same - b --form=turned",
        Task::Same(Form::Turned),
        "-",
        Some("b"),
        false,
    ),
    (
        "canon - --explain",
        Task::Canon(Form::Placed),
        "-",
        None,
        true,
    ),
    (
        "convert --explain --to mc -",
        Task::Convert(Target::Mc),
        "-",
        None,
        true,
    ),
    (
        "same - --explain b",
        Task::Same(Form::Placed),
        "-",
        Some("b"),
        true,
    ),
    ("show --explain -- -", Task::Show, "-", None, true),
    (
        "step - --table=a --explain",
        Task::StepTable,
        "-",
        Some("a"),
        true,
    ),
    (
        "step - --generations 12 --explain",
        Task::Later(12),
        "-",
        None,
        true,
    ),
    (
        "step --generations=18446744073709551615 -",
        Task::Later(u64::MAX),
        "-",
        None,
        false,
    ),
    (
        "step - --table a --generations=0",
        Task::LaterTable(0),
        "-",
        Some("a"),
        false,
    ),
    ("show -- --explain", Task::Show, "--explain", None, false),
    ("show - --period 1", Task::ShowPeriod(1), "-", None, false),
    (
        "show --period=18446744073709551615 --explain -",
        Task::ShowPeriod(u64::MAX),
        "-",
        None,
        true,
    ),
    ("show --period 007 a", Task::ShowPeriod(7), "a", None, false),
    (
        "same - b --form moved",
        Task::Same(Form::Moved),
        "-",
        Some("b"),
        false,
    ),
    (
        "canon --form phases -",
        Task::Canon(Form::Phases(128)),
        "-",
        None,
        false,
    ),
    (
        "canon - --form=phases --within 1 --explain",
        Task::Canon(Form::Phases(1)),
        "-",
        None,
        true,
    ),
    (
        "same --within=18446744073709551615 --form phases a b",
        Task::Same(Form::Phases(u64::MAX)),
        "a",
        Some("b"),
        false,
    ),
    (
        "same - b --form phases --within 007",
        Task::Same(Form::Phases(7)),
        "-",
        Some("b"),
        false,
    ),
];

/// The arguments of a text ask for this task of these files, and for a sentence about an error or not.
fn assert_request(
    rt: &impl Abort,
    alloc: Global,
    text: &str,
    (task, explain): (Task, bool),
    first: &str,
    second: Option<&str>,
) {
    let words = words_of(rt, alloc, text);
    let Ok(Request::Work(found)) = request(alloc, &words) else {
        panic!(rt; "{text}");
    };
    let is_wanted = found.task == task && found.first.as_str() == first;
    let is_second = is_second(&found.second, second);
    assert!(rt;
        is_wanted && is_second && found.explain == explain,
        "{text}"
    );
}

#[test]
fn requests(rt: HostRuntime) {
    for &(text, task, first, second, explain) in &REQUESTS {
        assert_request(&rt, rt.alloc(), text, (task, explain), first, second);
    }
}

/// Arguments of `keys` and `duplicates` with their form, their files, which of --zero, --recursive, --json (of `keys` alone) and --ignore-generation they have, and
/// the list of further files. `keys` takes patterns as they lie, and `duplicates` in the moved form, where none is given.
const FILES: [(&str, Form, &[&str], [bool; 4], Option<&str>); 23] = [
    (
        "keys a",
        Form::Placed,
        &["a"],
        [false, false, false, false],
        None,
    ),
    (
        "keys -r b a",
        Form::Placed,
        &["b", "a"],
        [false, true, false, false],
        None,
    ),
    (
        "keys a --form turned -",
        Form::Turned,
        &["a", "-"],
        [false, false, false, false],
        None,
    ),
    (
        "keys --from l",
        Form::Placed,
        &[],
        [false, false, false, false],
        Some("l"),
    ),
    (
        "keys a --zero",
        Form::Placed,
        &["a"],
        [true, false, false, false],
        None,
    ),
    (
        "keys -r a",
        Form::Placed,
        &["a"],
        [false, true, false, false],
        None,
    ),
    (
        "keys --json a",
        Form::Placed,
        &["a"],
        [false, false, true, false],
        None,
    ),
    (
        "keys a --zero --json -r",
        Form::Placed,
        &["a"],
        [true, true, true, false],
        None,
    ),
    (
        "keys --recursive --from l",
        Form::Placed,
        &[],
        [false, true, false, false],
        Some("l"),
    ),
    (
        "duplicates a",
        Form::Moved,
        &["a"],
        [false, false, false, false],
        None,
    ),
    (
        "duplicates --zero a -- -r",
        Form::Moved,
        &["a", "-r"],
        [true, false, false, false],
        None,
    ),
    (
        "duplicates --form=placed a b a",
        Form::Placed,
        &["a", "b", "a"],
        [false, false, false, false],
        None,
    ),
    (
        "duplicates --from -",
        Form::Moved,
        &[],
        [false, false, false, false],
        Some("-"),
    ),
    (
        "duplicates -- a -r",
        Form::Moved,
        &["a", "-r"],
        [false, false, false, false],
        None,
    ),
    (
        "duplicates a -r",
        Form::Moved,
        &["a"],
        [false, true, false, false],
        None,
    ),
    (
        "duplicates --from=- --zero --recursive",
        Form::Moved,
        &[],
        [true, true, false, false],
        Some("-"),
    ),
    (
        "keys --ignore-generation a",
        Form::Placed,
        &["a"],
        [false, false, false, true],
        None,
    ),
    (
        "keys a --json --form turned --zero --ignore-generation -r",
        Form::Turned,
        &["a"],
        [true, true, true, true],
        None,
    ),
    (
        "duplicates --ignore-generation --from l -- --ignore-generation",
        Form::Moved,
        &["--ignore-generation"],
        [false, false, false, true],
        Some("l"),
    ),
    (
        "keys a --form phases",
        Form::Phases(128),
        &["a"],
        [false, false, false, false],
        None,
    ),
    (
        "keys --within 30 --form phases --json --ignore-generation -r a",
        Form::Phases(30),
        &["a"],
        [false, true, true, true],
        None,
    ),
    (
        "duplicates --form=phases a b",
        Form::Phases(128),
        &["a", "b"],
        [false, false, false, false],
        None,
    ),
    (
        "duplicates a --form phases --within=2 --from l",
        Form::Phases(2),
        &["a"],
        [false, false, false, false],
        Some("l"),
    ),
];

/// The plan of `keys` or of `duplicates`, and whether it is that of `duplicates`.
fn plan_of_files<'a>(alloc: Global, words: &'a [&'a str]) -> Option<(KeysPlan<'a>, bool)> {
    match request(alloc, words) {
        Ok(Request::Keys(plan)) => Some((plan, false)),
        Ok(Request::Duplicates(plan)) => Some((plan, true)),
        _ => None,
    }
}

/// The arguments of a text ask for the keys or the duplicates of files in this form, with these options, and have no plan for a job.
fn assert_files(
    rt: &impl Abort,
    alloc: Global,
    text: &str,
    form: Form,
    names: &[&str],
    options: ([bool; 4], Option<&str>),
) {
    let words = words_of(rt, alloc, text);
    let Some((found, is_duplicates)) = plan_of_files(alloc, &words) else {
        panic!(rt; "{text}");
    };
    let is_wanted = found.form.form == form && is_duplicates == text.starts_with("duplicates");
    let flags = [
        found.zero,
        found.recursive,
        found.json,
        found.form.ignores_generation,
    ];
    assert!(rt; is_wanted && (flags, found.from) == options, "{text}");
    assert!(rt; found.files.as_slice() == names, "{text}");
}

#[test]
fn requests_over_any_files(rt: HostRuntime) {
    for &(text, form, names, flags, from) in &FILES {
        assert_files(&rt, rt.alloc(), text, form, names, (flags, from));
        assert_usage(&rt, rt.alloc(), text, ErrorKind::InvalidSubcommand);
    }
}

/// Arguments of `keys` over a stream with their form, which of --zero, --json and --ignore-generation they have, and the stream.
const STREAMS: [(&str, Form, [bool; 3], &str); 6] = [
    ("keys --stream s", Form::Placed, [false, false, false], "s"),
    (
        "keys --stream=- --zero",
        Form::Placed,
        [true, false, false],
        "-",
    ),
    (
        "keys --json --form moved --stream -",
        Form::Moved,
        [false, true, false],
        "-",
    ),
    (
        "keys --stream s --ignore-generation --form turned",
        Form::Turned,
        [false, false, true],
        "s",
    ),
    (
        "keys --stream s --form phases",
        Form::Phases(128),
        [false, false, false],
        "s",
    ),
    (
        "keys --form=phases --zero --within 5 --stream -",
        Form::Phases(5),
        [true, false, false],
        "-",
    ),
];

/// The arguments of a text ask for the keys of this stream in this form, with these options.
fn assert_stream(
    rt: &impl Abort,
    alloc: Global,
    text: &str,
    form: Form,
    options: ([bool; 3], &str),
) {
    let words = words_of(rt, alloc, text);
    let Ok(Request::Stream(found)) = request(alloc, &words) else {
        panic!(rt; "{text}");
    };
    let flags = [found.zero, found.json, found.form.ignores_generation];
    let is_wanted = found.form.form == form && (flags, found.stream) == options;
    assert!(rt; is_wanted, "{text}");
}

#[test]
fn requests_over_a_stream(rt: HostRuntime) {
    for &(text, form, flags, stream) in &STREAMS {
        assert_stream(&rt, rt.alloc(), text, form, (flags, stream));
        assert_usage(&rt, rt.alloc(), text, ErrorKind::InvalidSubcommand);
    }
}

/// The kind of `clap`'s refusal of the words.
fn refusal_of<'a>(alloc: Global, words: &'a [&'a str]) -> Option<ErrorKind> {
    match plan(alloc, words) {
        Ok(_plan) => None,
        Err(usage) => match usage {
            Usage::Words(error) => Some(error.kind()),
            Usage::TwoInputs | Usage::Memory => None,
        },
    }
}

/// The arguments of a text have no plan, for this reason.
fn assert_usage(rt: &impl Abort, alloc: Global, text: &str, kind: ErrorKind) {
    let words = words_of(rt, alloc, text);
    assert!(rt; refusal_of(alloc, &words) == Some(kind), "{text}");
}

/// Arguments with the kind with which they are refused. Those that ask for another form than that of a pattern as it lies have a request and no plan.
const USAGES: [(&str, ErrorKind); 103] = [
    ("", ErrorKind::MissingSubcommand),
    ("canon", ErrorKind::MissingRequiredArgument),
    ("canon a b", ErrorKind::UnknownArgument),
    ("canon a --bogus", ErrorKind::UnknownArgument),
    ("canon a --help", ErrorKind::DisplayHelp),
    ("cannon a", ErrorKind::InvalidSubcommand),
    ("same a", ErrorKind::MissingRequiredArgument),
    ("show", ErrorKind::MissingRequiredArgument),
    ("convert a", ErrorKind::MissingRequiredArgument),
    ("convert --to rle", ErrorKind::MissingRequiredArgument),
    ("convert a --to", ErrorKind::InvalidValue),
    ("convert a --to RLE", ErrorKind::InvalidValue),
    ("canon a --to mc", ErrorKind::UnknownArgument),
    ("canon a --form", ErrorKind::InvalidValue),
    ("canon a --form Moved", ErrorKind::InvalidValue),
    ("same a b --form rle", ErrorKind::InvalidValue),
    ("show a --form moved", ErrorKind::UnknownArgument),
    ("same --form moved a", ErrorKind::MissingRequiredArgument),
    ("step", ErrorKind::MissingRequiredArgument),
    ("step --table a", ErrorKind::MissingRequiredArgument),
    ("step a --table", ErrorKind::InvalidValue),
    ("step a --generations", ErrorKind::InvalidValue),
    ("step a --generations=", ErrorKind::InvalidValue),
    ("step a --generations ten", ErrorKind::InvalidValue),
    ("step a --generations=-1", ErrorKind::InvalidValue),
    ("step a --generations +1", ErrorKind::InvalidValue),
    ("step a --generations 1.5", ErrorKind::InvalidValue),
    (
        "step a --generations 18446744073709551616",
        ErrorKind::InvalidValue,
    ),
    ("show a --period", ErrorKind::InvalidValue),
    ("show a --period=", ErrorKind::InvalidValue),
    ("show a --period 0", ErrorKind::InvalidValue),
    ("show a --period 00", ErrorKind::InvalidValue),
    ("show a --period ten", ErrorKind::InvalidValue),
    ("show a --period=-1", ErrorKind::InvalidValue),
    ("show a --period +1", ErrorKind::InvalidValue),
    (
        "show a --period 18446744073709551616",
        ErrorKind::InvalidValue,
    ),
    ("show a --period 1 --period 1", ErrorKind::ArgumentConflict),
    ("show --period 1", ErrorKind::MissingRequiredArgument),
    ("canon a --period 1", ErrorKind::UnknownArgument),
    ("step a --table b --generations x", ErrorKind::InvalidValue),
    (
        "step a --generations 1 --generations 1",
        ErrorKind::ArgumentConflict,
    ),
    ("step --generations 1", ErrorKind::MissingRequiredArgument),
    ("canon a --generations 1", ErrorKind::UnknownArgument),
    ("show a --table b", ErrorKind::UnknownArgument),
    ("canon -r a", ErrorKind::UnknownArgument),
    ("keys", ErrorKind::MissingRequiredArgument),
    ("keys --stream s a", ErrorKind::ArgumentConflict),
    ("keys a --stream s", ErrorKind::ArgumentConflict),
    ("keys --stream s --from l", ErrorKind::ArgumentConflict),
    ("keys --stream s -r", ErrorKind::ArgumentConflict),
    ("keys --stream s --form b", ErrorKind::InvalidValue),
    ("keys --stream", ErrorKind::InvalidValue),
    ("duplicates --stream s", ErrorKind::UnknownArgument),
    ("keys -R a", ErrorKind::UnknownArgument),
    ("keys --json", ErrorKind::MissingRequiredArgument),
    ("duplicates a --json", ErrorKind::UnknownArgument),
    ("keys --explain a", ErrorKind::UnknownArgument),
    ("duplicates", ErrorKind::MissingRequiredArgument),
    ("duplicates -r --zero", ErrorKind::MissingRequiredArgument),
    ("duplicates a --explain", ErrorKind::UnknownArgument),
    ("duplicates a --form none", ErrorKind::InvalidValue),
    ("duplicates --help", ErrorKind::DisplayHelp),
    ("canon a --explain --explain", ErrorKind::ArgumentConflict),
    ("--help", ErrorKind::DisplayHelp),
    ("--version", ErrorKind::DisplayVersion),
    ("canon --form=moved -", ErrorKind::InvalidValue),
    ("canon --form turned -- -", ErrorKind::InvalidValue),
    ("same --form moved - b", ErrorKind::InvalidValue),
    ("same - b --form=turned", ErrorKind::InvalidValue),
    ("show - --period 3", ErrorKind::InvalidValue),
    ("step - --generations 3", ErrorKind::InvalidValue),
    ("step - --table=a --generations 3", ErrorKind::InvalidValue),
    ("canon a --within 5", ErrorKind::InvalidValue),
    ("canon a --within 0", ErrorKind::InvalidValue),
    (
        "canon a --form placed --within 128",
        ErrorKind::InvalidValue,
    ),
    ("canon a --form turned --within 5", ErrorKind::InvalidValue),
    ("canon a --form cycle --within 5", ErrorKind::InvalidValue),
    ("canon a --form Phases", ErrorKind::InvalidValue),
    ("canon a --form phases --within", ErrorKind::InvalidValue),
    ("canon a --form phases --within=", ErrorKind::InvalidValue),
    ("canon a --form phases --within 0", ErrorKind::InvalidValue),
    ("canon a --form phases --within x", ErrorKind::InvalidValue),
    ("canon a --form phases --within=-1", ErrorKind::InvalidValue),
    (
        "canon a --form phases --within 18446744073709551616",
        ErrorKind::InvalidValue,
    ),
    (
        "canon a --form phases --within 1 --within 1",
        ErrorKind::ArgumentConflict,
    ),
    (
        "canon --form phases --within 1",
        ErrorKind::MissingRequiredArgument,
    ),
    ("same a b --within 5", ErrorKind::InvalidValue),
    ("same a b --form moved --within x", ErrorKind::InvalidValue),
    (
        "same a b --form phases --within 00",
        ErrorKind::InvalidValue,
    ),
    ("keys a --within 5", ErrorKind::InvalidValue),
    ("keys a --form turned --within 5", ErrorKind::InvalidValue),
    ("keys a --form phases --within 0", ErrorKind::InvalidValue),
    ("keys --within 5", ErrorKind::MissingRequiredArgument),
    ("keys --stream s --within 5", ErrorKind::InvalidValue),
    (
        "keys --stream s --form phases --within x",
        ErrorKind::InvalidValue,
    ),
    ("duplicates a --within 5", ErrorKind::InvalidValue),
    (
        "duplicates a --form moved --within 5",
        ErrorKind::InvalidValue,
    ),
    (
        "duplicates a --form phases --within ten",
        ErrorKind::InvalidValue,
    ),
    ("convert a --to mc --within 5", ErrorKind::UnknownArgument),
    ("show a --within 5", ErrorKind::UnknownArgument),
    ("step a --within 5", ErrorKind::UnknownArgument),
    ("canon --form phases -", ErrorKind::InvalidValue),
    ("same - b --form phases --within 3", ErrorKind::InvalidValue),
];

#[test]
fn usages(rt: HostRuntime) {
    for &(text, kind) in &USAGES {
        assert_usage(&rt, rt.alloc(), text, kind);
    }
}

/// Arguments that name standard input twice.
const TWICE: [&str; 8] = [
    "duplicates - a -",
    "duplicates --from - -r -",
    "same - -",
    "same - - --form none",
    "same - - --form phases --within 0",
    "same -- - -",
    "step - --table -",
    "step - --table - --generations x",
];

#[test]
fn standard_input_once(rt: HostRuntime) {
    for text in &TWICE {
        let words = words_of(&rt, rt.alloc(), text);
        assert!(rt;
            matches!(plan(rt.alloc(), &words), Err(Usage::TwoInputs)),
            "{text}"
        );
    }
}
