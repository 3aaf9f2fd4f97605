//! The commands, as `clap` reads them.

ghost use Rattle.std.specs.Prelude.{IfOk, codes, map};
ghost use Rattle.clap.specs.Words.{fault_of};
ghost use Rattle.command_line.specs.Words.{App, Rule, HasMatchesOf, FailsBy, new_app, with_rule, with_subcommand, required_file, option, required_option, with_explain, with_form, one_file_line, two_files_line, canon_line, convert_line, same_line, show_line, step_line, files_rule, files_line, keys_line, flag, short_flag, named_program, program, HasRule, ReadsAs};

use super::help::{CANON, CONVERT, DUPLICATES, Help, KEYS, PROGRAM, SAME, SHOW, STEP};
use clap::{Arg, ArgAction, ArgMatches, Command, Error};
use std::alloc::{AllocError, Global};
use std::convert::AsStr;

/// An argument that has to be given, by its place.
fn file<'a>(alloc: Global, id: &'a str, help: &'a str) -> Arg<'a>
    ensures { HasRule (required_file id.entry.now) result }
{
    let file = Arg::new(alloc, id).required(true).action(ArgAction::Set);
    file.help(help)
}

/// An option whose value the help calls `value`.
fn option<'a>(alloc: Global, id: &'a str, value: &'a str, help: &'a str) -> Arg<'a>
    ensures { HasRule (option id.entry.now) result }
{
    let option = Arg::new(alloc, id).long(id).action(ArgAction::Set);
    option.value_name(value).help(help)
}

/// The same, where it has to be given.
fn needed_option<'a>(alloc: Global, id: &'a str, value: &'a str, help: &'a str) -> Arg<'a>
    ensures { HasRule (required_option id.entry.now) result }
{
    option(alloc, id, value, help).required(true)
}

/// The help of the option of a command that takes a pattern in a form: as it lies, where none is given.
const PLACED_UNLESS_GIVEN: &str = "The form to take: placed (the default), moved, turned or phases";

/// The same of a command that takes the moved form, where none is given.
const MOVED_UNLESS_GIVEN: &str = "The form to take: placed, moved (the default), turned or phases";

/// Files by their places, any number of them.
fn files<'a>(alloc: Global, help: &'a str) -> Arg<'a>
    ensures { HasRule files_rule result }
{
    let files = Arg::new(alloc, "FILE").action(ArgAction::Append);
    files.help(help)
}

/// A flag.
fn flag<'a>(alloc: Global, id: &'a str, help: &'a str) -> Arg<'a>
    ensures { HasRule (flag id.entry.now) result }
{
    let flag = Arg::new(alloc, id).long(id).action(ArgAction::SetTrue);
    flag.help(help)
}

/// A flag that also has a name of one letter.
fn short_flag<'a>(alloc: Global, id: &'a str, letter: char, help: &'a str) -> Arg<'a>
    ensures { HasRule (short_flag id.entry.now letter) result }
{
    flag(alloc, id, help).short(letter)
}

/// A command with its texts, and no argument yet.
fn new_command<'a>(alloc: Global, name: &'a str, help: Help) -> Command<'a>
    ensures { ReadsAs (new_app name.entry.now) result }
{
    Command::new(alloc, name)
        .about(help.summary)
        .long_about(help.about)
        .after_long_help(help.notes)
}

/// A command with one argument more, where the command was made.
fn with_argument<'a>(
    command: Result<Command<'a>, AllocError>,
    argument: Arg<'a>,
) -> Result<Command<'a>, AllocError>
    ensures { (line : App) (rule : Rule) → IfOk command.entry (ReadsAs line)
        → HasRule rule argument.entry → IfOk result (ReadsAs (with_rule line rule)) }
{
    command?.arg(argument)
}

/// The flag that asks for a sentence about an error.
fn explain<'a>(alloc: Global) -> Arg<'a>
    ensures { HasRule (flag (codes "explain")) result }
{
    let long_help =
        "After the line on standard error, say in a sentence what is wrong and what to do.
On a terminal this is the default.";
    let flag = flag(alloc, "explain", "Say in a sentence, too, what is wrong");
    flag.long_help(long_help)
}

/// A command with that flag too.
fn with_explain<'a>(
    alloc: Global,
    command: Result<Command<'a>, AllocError>,
) -> Result<Command<'a>, AllocError>
    ensures { (line : App) → IfOk command.entry (ReadsAs line)
        → IfOk result (ReadsAs (with_explain line)) }
{
    with_argument(command, explain(alloc))
}

/// A command that takes a pattern in a form too, with the greatest period of `phases`. `help` is that of the form.
fn with_form<'a>(
    alloc: Global,
    command: Result<Command<'a>, AllocError>,
    help: &'a str,
) -> Result<Command<'a>, AllocError>
    ensures { (line : App) → IfOk command.entry (ReadsAs line)
        → IfOk result (ReadsAs (with_form line)) }
{
    let command = with_argument(command, option(alloc, "form", "FORM", help));
    let help = "With --form phases: the greatest period that is sought, 128 unless given";
    with_argument(command, option(alloc, "within", "MOST", help))
}

/// A command over one file.
fn one_file<'a>(alloc: Global, name: &'a str, help: Help) -> Result<Command<'a>, AllocError>
    ensures { IfOk result (ReadsAs (one_file_line name.entry.now)) }
{
    let file = file(alloc, "FILE", "The pattern file, or - for standard input");
    with_argument(Ok(new_command(alloc, name, help)), file)
}

fn canon<'a>(alloc: Global) -> Result<Command<'a>, AllocError>
    ensures { IfOk result (ReadsAs canon_line) }
{
    let command = one_file(alloc, "canon", CANON);
    let command = with_form(alloc, command, PLACED_UNLESS_GIVEN);
    with_explain(alloc, command)
}

fn convert<'a>(alloc: Global) -> Result<Command<'a>, AllocError>
    ensures { IfOk result (ReadsAs convert_line) }
{
    let command = one_file(alloc, "convert", CONVERT);
    let help = "The format to write: rle or mc";
    let command = with_argument(command, needed_option(alloc, "to", "FORMAT", help));
    with_explain(alloc, command)
}

/// A command over two files.
fn two_files<'a>(alloc: Global, name: &'a str, help: Help) -> Result<Command<'a>, AllocError>
    ensures { IfOk result (ReadsAs (two_files_line name.entry.now)) }
{
    let first = file(alloc, "A", "A pattern file, or - for standard input");
    let command = with_argument(Ok(new_command(alloc, name, help)), first);
    let second = file(alloc, "B", "Another one; only one of the two may be -");
    with_argument(command, second)
}

fn same<'a>(alloc: Global) -> Result<Command<'a>, AllocError>
    ensures { IfOk result (ReadsAs same_line) }
{
    let command = two_files(alloc, "same", SAME);
    let command = with_form(alloc, command, PLACED_UNLESS_GIVEN);
    with_explain(alloc, command)
}

fn show<'a>(alloc: Global) -> Result<Command<'a>, AllocError>
    ensures { IfOk result (ReadsAs show_line) }
{
    let command = one_file(alloc, "show", SHOW);
    let help = "Write the period too, if it is at most MOST: a number from 1 to 2^64 - 1";
    let command = with_argument(command, option(alloc, "period", "MOST", help));
    with_explain(alloc, command)
}

/// A command over any number of files, in a form. `form_help` is the help of its option.
fn any_files<'a>(
    alloc: Global,
    name: &'a str,
    help: Help,
    form_help: &'a str,
) -> Result<Command<'a>, AllocError>
    ensures { IfOk result (ReadsAs (files_line name.entry.now)) }
{
    let files = files(alloc, "Pattern files; one of them may be -, standard input");
    let command = with_argument(Ok(new_command(alloc, name, help)), files);
    let command = with_form(alloc, command, form_help);
    let help = "Take each pattern as if its generation were 0";
    let command = with_argument(command, flag(alloc, "ignore-generation", help));
    let help = "End names in NUL, and write them as they are";
    let command = with_argument(command, flag(alloc, "zero", help));
    let help = "Take the files that LIST names too, a file or -: a name a line";
    let command = with_argument(command, option(alloc, "from", "LIST", help));
    let help = "Take the files in a folder and below it, where a FILE is a folder";
    with_argument(command, short_flag(alloc, "recursive", 'r', help))
}

fn keys<'a>(alloc: Global) -> Result<Command<'a>, AllocError>
    ensures { IfOk result (ReadsAs keys_line) }
{
    let command = any_files(alloc, "keys", KEYS, PLACED_UNLESS_GIVEN);
    let help = "Write an object of JSON for each file, one a line";
    let command = with_argument(command, flag(alloc, "json", help));
    let help = "Take the patterns of STREAM, a file or -: each ends in NUL";
    with_argument(command, option(alloc, "stream", "STREAM", help))
}

fn step<'a>(alloc: Global) -> Result<Command<'a>, AllocError>
    ensures { IfOk result (ReadsAs step_line) }
{
    let command = one_file(alloc, "step", STEP);
    let help = "A rule table, a .rule file; only one of the two may be -";
    let command = with_argument(command, option(alloc, "table", "RULE", help));
    let help = "Go on by N generations in place of 1: a number from 0 to 2^64 - 1";
    let command = with_argument(command, option(alloc, "generations", "N", help));
    with_explain(alloc, command)
}

/// The program without its commands.
fn bare<'a>(alloc: Global) -> Result<Command<'a>, AllocError>
    ensures { IfOk result (λ command. ReadsAs named_program command) }
{
    let command = new_command(alloc, "golly_canon", PROGRAM).version("0.2.0");
    command.subcommand_required(true).bin_name("golly_canon")
}

/// A command with one command more, where both were made.
fn with_command<'a>(
    command: Result<Command<'a>, AllocError>,
    added: Result<Command<'a>, AllocError>,
) -> Result<Command<'a>, AllocError>
    ensures { (line more : App) → IfOk command.entry (ReadsAs line)
        → IfOk added.entry (ReadsAs more)
        → IfOk result (ReadsAs (with_subcommand line more.top)) }
{
    let command = command?;
    command.subcommand(added?)
}

/// The program.
fn golly_canon<'a>(alloc: Global) -> Result<Command<'a>, AllocError>
    ensures { IfOk result (λ command. ReadsAs program command) }
{
    let command = bare(alloc);
    let command = with_command(command, canon(alloc));
    let command = with_command(command, convert(alloc));
    let command = with_command(command, same(alloc));
    let command = with_command(command, show(alloc));
    let command = with_command(command, step(alloc));
    let command = with_command(command, keys(alloc));
    let duplicates = any_files(alloc, "duplicates", DUPLICATES, MOVED_UNLESS_GIVEN);
    with_command(command, duplicates)
}

/// The matches of the program's words.
///
/// # Errors
///
/// An error of one of the kinds that `clap` states for the words, which help and version are too, or for lack of memory. Where it states
/// none, only for lack of memory.
pub fn parse<'a, S: AsStr>(alloc: Global, words: &'a [S]) -> Result<ArgMatches<'a>, Error>
    ensures ok { IfOk result (HasMatchesOf program (map S.text words.entry.now)) }
    ensures kinds { FailsBy (fault_of program (map S.text words.entry.now)) result }
{
    let command = golly_canon(alloc)?;
    command.try_get_matches_from(words)
}
