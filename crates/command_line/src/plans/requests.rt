//! The plan that the words ask for.

ghost use Rattle.std.specs.Prelude.{◌≡◌, ◌≢◌, ◌⊎◌, ◌↔◌, ◌<◌, ◌≤◌, [], ℕ, Ok, IfOk, IfErr, OnOk, MatchOption, Some, IfSome, IsSome, IsTrue, map, option_map, string_bytes, codes, count_by};
ghost use Rattle.command_line.specs.Words.{bytes_eq, found_of, first_of, rows_of, subcommand_of, subcommand_rows_of, program, AreOfTask, AreWhole, IfWork, IsFoundAmong, IsPlanOf, IsRequestOf, IsTaskPlanOf, HasNoJob, task_of, task_plan_of, IsValueOf, HasDefaultWithin, HasNoForm, HasNoFormat, HasNoMost, HasNoNumber, HasNoPeriod, HasSecond, HasOneFile, HoldsFiles, HoldsFlag, HoldsForm, HoldsGenerations, HoldsKeyForm, HoldsKeys, HoldsMost, HoldsPeriod, HoldsStream, NamesInputTwice, Explains, ExplainsPlan, RefusesAs, RefusesKeys, RefusesStream, RefusesWord, form_word, input_count, input_count_under, target_word, u64_of, values_of};
ghost use Rattle.clap.specs.Words.{fault_of, kind_of};

use super::commands::parse;
use super::{
    Form, Job, KeyForm, KeysPlan, Plan, Request, StreamPlan, Target, Task, TaskPlan, Usage,
};
use clap::error::ErrorKind;
use clap::{ArgMatches, Command, Error};
use life_base::read_u64;
use std::alloc::Global;
use std::convert::AsStr;

/// How the program is called, and each command with an option whose value may be wrong.
const CALL: &str = "golly_canon <COMMAND>";

const CANON: &str = "golly_canon canon [OPTIONS] <FILE>";

const CONVERT: &str = "golly_canon convert --to <FORMAT> <FILE>";

const SAME: &str = "golly_canon same [OPTIONS] <A> <B>";

const SHOW: &str = "golly_canon show [OPTIONS] <FILE>";

const STEP: &str = "golly_canon step [OPTIONS] <FILE>";

const KEYS: &str = "golly_canon keys [OPTIONS] [FILE]...";

const DUPLICATES: &str = "golly_canon duplicates [OPTIONS] [FILE]...";

/// The greatest period that `phases` seeks where `--within` isn't given.
const DEFAULT_WITHIN: u64 = 128;

/// The refusal of the arguments as this kind, with how the command is called and a message.
fn refusal_as(alloc: Global, kind: ErrorKind, call: &str, message: &str) -> Usage
    ensures { RefusesAs kind (Unit {0}) result }
{
    let mut command = Command::new(alloc, "golly_canon").override_usage(call);
    match command.error(kind, message) {
        Ok(error) => Usage::Words(error),
        Err(refused) => Usage::Words(Error::from(refused)),
    }
}

/// The refusal of the value of an option, with how the command is called and the message that says which values there are.
fn refusal(alloc: Global, call: &str, message: &str) -> Usage
    ensures { RefusesWord (Unit {0}) result }
{
    refusal_as(alloc, ErrorKind::InvalidValue, call, message)
}

/// The first value of an option or a file.
fn value<'a>(found: &ArgMatches<'a>, id: &str) -> Option<&'a str>
    ensures { option_map (λ text. text.now) result
        ≡ first_of id.now (rows_of (found_of found.now)) }
{
    found.get_str(id)
}

fn required_text(alloc: Global, found: &ArgMatches<'_>, id: &str) -> Result<String, Usage>
    requires { IsFoundAmong id.now (rows_of (found_of found.now)) }
    ensures ok { IfOk result
        (λ s. first_of id.now (rows_of (found_of found.now)) ≡ Some (string_bytes s)) }
    ensures err { IfErr result (λ usage. usage ≡ Usage.Memory) }
{
    let Some(text) = value(found, id) else {
        unreachable!()
    };
    Ok(String::from_str(alloc, text)?)
}

/// The format of a word.
fn target_named(word: &str) -> Option<Target>
    ensures { IsValueOf target_word word.now result }
{
    match word {
        "rle" => Some(Target::Rle),
        "mc" => Some(Target::Mc),
        _ => None,
    }
}

/// The format that `--to` names.
fn target(alloc: Global, found: &ArgMatches<'_>) -> Result<Target, Usage>
    requires { IsFoundAmong (codes "to") (rows_of (found_of found.now)) }
    ensures ok { IfOk result
        (λ t. first_of (codes "to") (rows_of (found_of found.now)) ≡ Some (target_word t)) }
    ensures err { IfErr result (RefusesWord (HasNoFormat (rows_of (found_of found.now)))) }
{
    match value(found, "to") {
        Some(word) => match target_named(word) {
            Some(target) => Ok(target),
            None => Err(refusal(alloc, CONVERT, "the value of --to is rle or mc")),
        },
        None => unreachable!(),
    }
}

/// The number that a word writes in digits, below 2^64.
fn number_of(word: &str) -> Option<u64>
    ensures { MatchOption result ((n : ℕ) → u64_of word.now ≢ Ok n) (λ n. u64_of word.now ≡ Ok n) }
{
    match read_u64(word.as_bytes()) {
        Ok(number) => Some(number),
        Err(_) => None,
    }
}

/// The number that a word writes in digits, from 1 to below 2^64.
fn most_of(word: &str) -> Option<u64>
    ensures { MatchOption result ((n : ℕ) → u64_of word.now ≡ Ok n → n ≡ 0)
        (λ n. (u64_of word.now ≡ Ok n) × (1 ≤ n)) }
{
    let number = number_of(word)?;
    if number == 0 {
        return None;
    }
    Some(number)
}

/// The greatest period that an option names, where it is given. A refusal says how the command is called, and which values there are.
fn greatest_period(
    alloc: Global,
    found: &ArgMatches<'_>,
    id: &str,
    call: &str,
    message: &str,
) -> Result<Option<u64>, Usage>
    ensures ok { IfOk result (HoldsMost id.now (rows_of (found_of found.now))) }
    ensures err { IfErr result (RefusesWord (HasNoMost id.now (rows_of (found_of found.now)))) }
{
    match value(found, id) {
        Some(word) => match most_of(word) {
            Some(most) => Ok(Some(most)),
            None => Err(refusal(alloc, call, message)),
        },
        None => Ok(None),
    }
}

/// The form of a word. `phases` has the default greatest period.
fn form_named(word: &str) -> Option<Form>
    ensures word { IsValueOf form_word word.now result }
    ensures within { IfSome result HasDefaultWithin }
{
    match word {
        "placed" => Some(Form::Placed),
        "moved" => Some(Form::Moved),
        "turned" => Some(Form::Turned),
        "phases" => Some(Form::Phases(DEFAULT_WITHIN)),
        _ => None,
    }
}

/// The greatest period that `--within` names, where it is given. A refusal says how the command is called.
fn within(alloc: Global, found: &ArgMatches<'_>, call: &str) -> Result<Option<u64>, Usage>
    ensures ok { IfOk result (HoldsMost (codes "within") (rows_of (found_of found.now))) }
    ensures err { IfErr result
        (RefusesWord (HasNoMost (codes "within") (rows_of (found_of found.now)))) }
{
    let message = "the value of --within is a number from 1 to 2^64 - 1";
    greatest_period(alloc, found, "within", call, message)
}

/// The form that `--form` names, with the greatest period that `--within` names for `phases`, or where it isn't given, the default one. A refusal says how the
/// command is called.
fn form(
    alloc: Global,
    found: &ArgMatches<'_>,
    default_form: Form,
    call: &str,
) -> Result<Form, Usage>
    ensures ok { IfOk result (HoldsForm default_form (rows_of (found_of found.now))) }
    ensures err { IfErr result (RefusesWord (HasNoForm (rows_of (found_of found.now)))) }
{
    let most = match within(alloc, found, call) {
        Ok(most) => most,
        Err(usage) => return Err(usage),
    };
    match (value(found, "form"), most) {
        (None, None) => Ok(default_form),
        (Some(word), None) => match form_named(word) {
            Some(form) => Ok(form),
            None => Err(refusal(
                alloc,
                call,
                "the value of --form is placed, moved, turned or phases",
            )),
        },
        (Some("phases"), Some(most)) => Ok(Form::Phases(most)),
        (_, Some(_)) => Err(refusal(alloc, call, "--within is for --form phases alone")),
    }
}

/// Whether a flag was given.
fn is_set(found: &ArgMatches<'_>, id: &str) -> bool
    ensures { HoldsFlag id.now (rows_of (found_of found.now)) result }
{
    found.get_flag(id)
}

/// The plan of a task over one file.
fn over_file(alloc: Global, found: &ArgMatches<'_>, task: Task) -> Result<TaskPlan, Usage>
    requires { IsFoundAmong (codes "FILE") (rows_of (found_of found.now)) }
    ensures ok { IfOk result (λ p. (p.task ≡ task) × HasOneFile (rows_of (found_of found.now)) p
        × HoldsFlag (codes "explain") (rows_of (found_of found.now)) p.explain) }
    ensures err { IfErr result (λ usage. usage ≡ Usage.Memory) }
{
    let first = required_text(alloc, found, "FILE")?;
    Ok(TaskPlan {
        task,
        first,
        second: None,
        explain: is_set(found, "explain"),
    })
}

/// The plan of a task over the files of these names.
fn over_files(
    alloc: Global,
    found: &ArgMatches<'_>,
    task: Task,
    first: &str,
    second: &str,
) -> Result<TaskPlan, Usage>
    requires first { IsFoundAmong first.now (rows_of (found_of found.now)) }
    requires second { IsFoundAmong second.now (rows_of (found_of found.now)) }
    ensures ok { IfOk result
        (λ p. (p.task ≡ task) × HoldsFiles first.now second.now (rows_of (found_of found.now)) p
        × HoldsFlag (codes "explain") (rows_of (found_of found.now)) p.explain) }
    ensures err { IfErr result (λ usage. usage ≡ Usage.Memory) }
{
    let first = required_text(alloc, found, first)?;
    let second = required_text(alloc, found, second)?;
    Ok(TaskPlan {
        task,
        first,
        second: Some(second),
        explain: is_set(found, "explain"),
    })
}

/// How many generations `--generations` names, where it is given.
fn generations(alloc: Global, found: &ArgMatches<'_>) -> Result<Option<u64>, Usage>
    ensures ok { IfOk result (HoldsGenerations (rows_of (found_of found.now))) }
    ensures err { IfErr result (RefusesWord (HasNoNumber (rows_of (found_of found.now)))) }
{
    match value(found, "generations") {
        Some(word) => match number_of(word) {
            Some(number) => Ok(Some(number)),
            None => Err(refusal(
                alloc,
                STEP,
                "the value of --generations is a number from 0 to 2^64 - 1",
            )),
        },
        None => Ok(None),
    }
}

/// The plan of a step of so many generations, or of the one where none are named.
fn step_of(
    alloc: Global,
    found: &ArgMatches<'_>,
    generations: Option<u64>,
) -> Result<TaskPlan, Usage>
    requires file { IsFoundAmong (codes "FILE") (rows_of (found_of found.now)) }
    requires generations { HoldsGenerations (rows_of (found_of found.now)) generations }
    ensures ok { IfOk result (IsTaskPlanOf (Some (codes "step", rows_of (found_of found.now)))) }
    ensures err { IfErr result (λ usage. usage ≡ Usage.Memory) }
{
    match (value(found, "table"), generations) {
        (None, None) => over_file(alloc, found, Task::Step),
        (None, Some(number)) => over_file(alloc, found, Task::Later(number)),
        (Some(_), None) => over_files(alloc, found, Task::StepTable, "FILE", "table"),
        (Some(_), Some(number)) => {
            over_files(alloc, found, Task::LaterTable(number), "FILE", "table")
        }
    }
}

/// The plan of `step`.
fn step(alloc: Global, found: &ArgMatches<'_>) -> Result<TaskPlan, Usage>
    requires { IsFoundAmong (codes "FILE") (rows_of (found_of found.now)) }
    ensures ok { IfOk result (IsTaskPlanOf (Some (codes "step", rows_of (found_of found.now)))) }
    ensures err { IfErr result
        (λ usage. RefusesWord (HasNoNumber (rows_of (found_of found.now))) usage
        ⊎ ((usage ≡ Usage.Memory) × ¬ HasNoNumber (rows_of (found_of found.now)))) }
{
    match generations(alloc, found) {
        Ok(generations) => step_of(alloc, found, generations),
        Err(usage) => Err(usage),
    }
}

/// The plan of what `show` writes, with the period up to so many generations, or without it where none are named.
fn show_of(alloc: Global, found: &ArgMatches<'_>, most: Option<u64>) -> Result<TaskPlan, Usage>
    requires file { IsFoundAmong (codes "FILE") (rows_of (found_of found.now)) }
    requires most { HoldsPeriod (rows_of (found_of found.now)) most }
    ensures ok { IfOk result (IsTaskPlanOf (Some (codes "show", rows_of (found_of found.now)))) }
    ensures err { IfErr result (λ usage. usage ≡ Usage.Memory) }
{
    match most {
        None => over_file(alloc, found, Task::Show),
        Some(most) => over_file(alloc, found, Task::ShowPeriod(most)),
    }
}

/// The plan of `show`.
fn show(alloc: Global, found: &ArgMatches<'_>) -> Result<TaskPlan, Usage>
    requires { IsFoundAmong (codes "FILE") (rows_of (found_of found.now)) }
    ensures ok { IfOk result (IsTaskPlanOf (Some (codes "show", rows_of (found_of found.now)))) }
    ensures err { IfErr result
        (λ usage. RefusesWord (HasNoPeriod (rows_of (found_of found.now))) usage
        ⊎ ((usage ≡ Usage.Memory) × ¬ HasNoPeriod (rows_of (found_of found.now)))) }
{
    let message = "the value of --period is a number from 1 to 2^64 - 1";
    match greatest_period(alloc, found, "period", SHOW, message) {
        Ok(most) => show_of(alloc, found, most),
        Err(usage) => Err(usage),
    }
}

/// The refusal of a command that is no job over one file or two.
fn no_job(alloc: Global) -> Usage
    ensures { RefusesAs ErrorKind.InvalidSubcommand (Unit {0}) result }
{
    let message = "the command is none over one file or two";
    refusal_as(alloc, ErrorKind::InvalidSubcommand, CALL, message)
}

/// The refusal of words that name no file, with how the command is called.
fn lacks_files(alloc: Global, call: &str) -> Usage
    ensures { RefusesAs ErrorKind.MissingRequiredArgument (Unit {0}) result }
{
    let message = if call == KEYS {
        "a FILE, --from LIST or --stream STREAM has to be given"
    } else {
        "a FILE or --from LIST has to be given"
    };
    refusal_as(alloc, ErrorKind::MissingRequiredArgument, call, message)
}

/// A copy of a list of names.
fn copy_of<'a>(alloc: Global, names: &[&'a str]) -> Result<Vec<&'a str>, Error>
    ensures ok { IfOk result (λ copy. copy.items ≡ names.now) }
    ensures err { IfErr result (λ error. kind_of error ≡ ErrorKind.OutOfMemory) }
{
    let mut copy = Vec::new(alloc);
    copy.extend_from_slice(names)?;
    Ok(copy)
}

/// All values of an option or of files.
fn values<'a>(alloc: Global, found: &ArgMatches<'a>, id: &str) -> Result<Vec<&'a str>, Error>
    ensures ok { IfOk result (λ values. map (λ value. value.now) values.items
        ≡ values_of id.now (rows_of (found_of found.now))) }
    ensures err { IfErr result (λ error. kind_of error ≡ ErrorKind.OutOfMemory) }
{
    match found.get_strs(id) {
        Some(names) => copy_of(alloc, names),
        None => Ok(Vec::new(alloc)),
    }
}

/// What of a pattern its key depends on. A refusal says how the command is called.
fn key_form(
    alloc: Global,
    found: &ArgMatches<'_>,
    default_form: Form,
    call: &str,
) -> Result<KeyForm, Usage>
    ensures ok { IfOk result (HoldsKeyForm default_form (rows_of (found_of found.now))) }
    ensures err { IfErr result (RefusesWord (HasNoForm (rows_of (found_of found.now)))) }
{
    match form(alloc, found, default_form, call) {
        Ok(form) => Ok(KeyForm {
            form,
            ignores_generation: is_set(found, "ignore-generation"),
        }),
        Err(usage) => Err(usage),
    }
}

/// The plan of a command over any number of files. A refusal says how the command is called.
fn any_files<'a>(
    alloc: Global,
    found: &ArgMatches<'a>,
    default_form: Form,
    call: &str,
) -> Result<KeysPlan<'a>, Usage>
    ensures ok { IfOk result (HoldsKeys default_form (rows_of (found_of found.now))) }
    ensures err { IfErr result (RefusesKeys (rows_of (found_of found.now))) }
{
    let files = match values(alloc, found, "FILE") {
        Ok(files) => files,
        Err(error) => return Err(Usage::Words(error)),
    };
    let from = value(found, "from");
    if files.is_empty() && from.is_none() {
        return Err(lacks_files(alloc, call));
    }
    let form = match key_form(alloc, found, default_form, call) {
        Ok(form) => form,
        Err(usage) => return Err(usage),
    };
    Ok(KeysPlan {
        form,
        zero: is_set(found, "zero"),
        json: is_set(found, "json"),
        recursive: is_set(found, "recursive"),
        from,
        files,
    })
}

/// The refusal of words that name a stream and files too.
fn not_alone(alloc: Global) -> Usage
    ensures { RefusesAs ErrorKind.ArgumentConflict (Unit {0}) result }
{
    let message = "--stream can't be used with a FILE, with --from or with -r";
    refusal_as(alloc, ErrorKind::ArgumentConflict, KEYS, message)
}

/// The plan of `keys` over the patterns of a stream.
fn over_stream<'a>(
    alloc: Global,
    found: &ArgMatches<'a>,
    stream: &'a str,
) -> Result<StreamPlan<'a>, Usage>
    requires { first_of (codes "stream") (rows_of (found_of found.now)) ≡ Some stream.now }
    ensures ok { IfOk result (HoldsStream (rows_of (found_of found.now))) }
    ensures err { IfErr result (RefusesStream (rows_of (found_of found.now))) }
{
    let files = match values(alloc, found, "FILE") {
        Ok(files) => files,
        Err(error) => return Err(Usage::Words(error)),
    };
    if !files.is_empty() || value(found, "from").is_some() {
        return Err(not_alone(alloc));
    }
    if is_set(found, "recursive") {
        return Err(not_alone(alloc));
    }
    let (zero, json) = (is_set(found, "zero"), is_set(found, "json"));
    match key_form(alloc, found, Form::Placed, KEYS) {
        Ok(form) => Ok(StreamPlan {
            form,
            zero,
            json,
            stream,
        }),
        Err(usage) => Err(usage),
    }
}

/// What `keys` asks for, with what was found for it, where standard input is named once at most.
fn keys<'a>(alloc: Global, found: &ArgMatches<'a>) -> Result<Request<'a>, Usage>
    requires { ¬ NamesInputTwice (Some (codes "keys", rows_of (found_of found.now))) }
    ensures ok { IfOk result (IsRequestOf (Some (codes "keys", rows_of (found_of found.now)))) }
    ensures refused { IfErr result
        (Explains [] (Some (codes "keys", rows_of (found_of found.now)))) }
{
    match value(found, "stream") {
        Some(stream) => match over_stream(alloc, found, stream) {
            Ok(plan) => Ok(Request::Stream(plan)),
            Err(usage) => Err(usage),
        },
        None => match any_files(alloc, found, Form::Placed, KEYS) {
            Ok(plan) => Ok(Request::Keys(plan)),
            Err(usage) => Err(usage),
        },
    }
}

/// How many of these names are standard input.
fn inputs_among(names: &[&str]) -> u64
    ensures { result ≡ count_by (λ name. bytes_eq name.now (codes "-")) names.now }
{
    let mut count = 0;
    for name in names {
        if *name == "-" {
            count += 1;
        }
    }
    count
}

/// How many of the values under a name are standard input.
fn inputs(found: &ArgMatches<'_>, id: &str) -> u64
    ensures { result ≡ input_count_under id.now (rows_of (found_of found.now)) }
{
    match found.get_strs(id) {
        Some(names) => inputs_among(names),
        None => 0,
    }
}

/// Whether standard input is named twice.
fn names_input_twice(found: &ArgMatches<'_>) -> bool
    ensures { IsTrue result ↔ (1 < input_count (rows_of (found_of found.now))) }
{
    let files = u128::from(inputs(found, "FILE"));
    let pair = u128::from(inputs(found, "A")) + u128::from(inputs(found, "B"));
    let table = u128::from(inputs(found, "table"));
    let list = u128::from(inputs(found, "from"));
    files + pair + table + list > 1
}

/// The plan of a command for a task, with what was found for it, where standard input is named once at most.
fn from_command(alloc: Global, command: &str, found: &ArgMatches<'_>) -> Result<TaskPlan, Usage>
    requires task { AreOfTask (Some (command.now, rows_of (found_of found.now))) }
    requires once { ¬ NamesInputTwice (Some (command.now, rows_of (found_of found.now))) }
    ensures ok { IfOk result (IsTaskPlanOf (Some (command.now, rows_of (found_of found.now)))) }
    ensures refused { IfErr result
        (Explains [] (Some (command.now, rows_of (found_of found.now)))) }
{
    match command {
        "canon" => match form(alloc, found, Form::Placed, CANON) {
            Ok(form) => over_file(alloc, found, Task::Canon(form)),
            Err(usage) => Err(usage),
        },
        "convert" => match target(alloc, found) {
            Ok(target) => over_file(alloc, found, Task::Convert(target)),
            Err(usage) => Err(usage),
        },
        "same" => match form(alloc, found, Form::Placed, SAME) {
            Ok(form) => over_files(alloc, found, Task::Same(form), "A", "B"),
            Err(usage) => Err(usage),
        },
        "show" => show(alloc, found),
        "step" => step(alloc, found),
        _ => unreachable!(),
    }
}

/// What a command asks for, with what was found for it, where standard input is named once at most.
fn request_of<'a>(
    alloc: Global,
    command: &str,
    found: &ArgMatches<'a>,
) -> Result<Request<'a>, Usage>
    requires whole { AreWhole (Some (command.now, rows_of (found_of found.now))) }
    requires once { ¬ NamesInputTwice (Some (command.now, rows_of (found_of found.now))) }
    ensures ok { IfOk result (IsRequestOf (Some (command.now, rows_of (found_of found.now)))) }
    ensures refused { IfErr result
        (Explains [] (Some (command.now, rows_of (found_of found.now)))) }
{
    match command {
        "keys" => keys(alloc, found),
        "duplicates" => match any_files(alloc, found, Form::Moved, DUPLICATES) {
            Ok(plan) => Ok(Request::Duplicates(plan)),
            Err(usage) => Err(usage),
        },
        _ => match from_command(alloc, command, found) {
            Ok(plan) => Ok(Request::Work(plan)),
            Err(usage) => Err(usage),
        },
    }
}

/// What matches ask for that have what their command wants.
fn from_matches<'a>(alloc: Global, matches: &ArgMatches<'a>) -> Result<Request<'a>, Usage>
    requires { AreWhole (subcommand_rows_of matches.now) }
    ensures ok { IfOk result (IsRequestOf (subcommand_rows_of matches.now)) }
    ensures once { OnOk result (¬ NamesInputTwice (subcommand_rows_of matches.now)) }
    ensures refused { IfErr result (Explains [] (subcommand_rows_of matches.now)) }
{
    let Some((command, found)) = matches.subcommand() else {
        unreachable!()
    };
    if names_input_twice(found) {
        return Err(Usage::TwoInputs);
    }
    request_of(alloc, command, found)
}

/// What the words ask for. They begin with the program's own name.
///
/// # Errors
///
/// `Words` with the text to show, where `clap` finds a fault in the words, as which `--help` and `--version` count too, by its kind; where the word after
/// `--to` is that of no format, the one after `--form` that of no form, the one after `--generations` no number below 2^64, or the one after `--within` or
/// `--period` no such number or 0, or where `--within` is given without `--form phases`, as `InvalidValue`; where `keys` or `duplicates` is given neither a
/// file nor a list, and `keys` no stream either, as `MissingRequiredArgument`; where `keys` is given a stream and also a file, a list or `-r`, as
/// `ArgumentConflict`; and where `clap`, or the list of their files, gets no memory, as `OutOfMemory`.
/// `TwoInputs` where words without a fault name `-` for two files, whatever follows these options. `Memory` where all is right but there is
/// no memory for the copy of a file's name.
pub fn request<'a, S: AsStr>(alloc: Global, words: &'a [S]) -> Result<Request<'a>, Usage>
    ensures faultless { OnOk result (fault_of program (map S.text words.entry.now) ≡ []) }
    ensures ok { IfOk result (IsRequestOf (subcommand_of program (map S.text words.entry.now))) }
    ensures files { IfOk result (IfWork (λ p. IsSome p.second ↔ HasSecond p.task)) }
    ensures once { OnOk result
        (¬ NamesInputTwice (subcommand_of program (map S.text words.entry.now))) }
    ensures refused { IfErr result (Explains (fault_of program (map S.text words.entry.now))
        (subcommand_of program (map S.text words.entry.now))) }
{
    let matches = parse(alloc, words)?;
    from_matches(alloc, &matches)
}

/// The job of a task that takes patterns as they lie, and no number of generations or greatest period.
fn job_of(task: Task) -> Option<Job>
    ensures { MatchOption result (HasNoJob task) (λ job. task ≡ task_of job) }
{
    match task {
        Task::Show => Some(Job::Show),
        Task::Canon(Form::Placed) => Some(Job::Canon),
        Task::Convert(target) => Some(Job::Convert(target)),
        Task::Same(Form::Placed) => Some(Job::Same),
        Task::Step => Some(Job::Step),
        Task::StepTable => Some(Job::StepTable),
        Task::Canon(_) | Task::Same(_) => None,
        Task::ShowPeriod(_) | Task::Later(_) | Task::LaterTable(_) => None,
    }
}

/// The plan of the job, where the task of the plan is one.
fn as_job(alloc: Global, plan: TaskPlan) -> Result<Plan, Usage>
    ensures ok { IfOk result (λ p. plan ≡ task_plan_of plan.explain p) }
    ensures err { IfErr result (RefusesWord (HasNoJob plan.task)) }
{
    match job_of(plan.task) {
        Some(job) => Ok(Plan {
            job,
            first: plan.first,
            second: plan.second,
        }),
        None => Err(refusal(
            alloc,
            CALL,
            "a job takes no form but placed, no number of generations and no period",
        )),
    }
}

/// The plan of words that ask for a job, as `request` has it.
///
/// # Errors
///
/// Those of `request`, and `Words` of words that ask for keys or duplicates, as `InvalidSubcommand`, or for another form than `placed`, a
/// number of generations or a greatest period, as `InvalidValue`: `request` has a plan for these too. That `--explain` is given isn't stored.
pub fn plan<S: AsStr>(alloc: Global, words: &[S]) -> Result<Plan, Usage>
    ensures faultless { OnOk result (fault_of program (map S.text words.entry.now) ≡ []) }
    ensures ok { IfOk result (IsPlanOf (subcommand_of program (map S.text words.entry.now))) }
    ensures files { IfOk result (λ p. IsSome p.second ↔ HasSecond (task_of p.job)) }
    ensures once { OnOk result
        (¬ NamesInputTwice (subcommand_of program (map S.text words.entry.now))) }
    ensures refused { IfErr result (ExplainsPlan (fault_of program (map S.text words.entry.now))
        (subcommand_of program (map S.text words.entry.now))) }
{
    match request(alloc, words) {
        Ok(Request::Work(plan)) => as_job(alloc, plan),
        Ok(Request::Keys(_)) => Err(no_job(alloc)),
        Ok(Request::Stream(_)) => Err(no_job(alloc)),
        Ok(Request::Duplicates(_)) => Err(no_job(alloc)),
        Err(usage) => Err(usage),
    }
}
