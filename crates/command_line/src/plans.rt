//! What the arguments of the command line ask for.

use clap::Error;
pub use life_base::Form;
use std::alloc::AllocError;

/// What a run can do with patterns as they lie.
#[derive(Clone, Copy, PartialEq, Eq)]
pub enum Job {
    /// Write what the pattern is, in five lines.
    Show,
    /// Write the canonical text of the pattern.
    Canon,
    /// Write the pattern in a format.
    Convert(Target),
    /// Report whether two files are the same pattern.
    Same,
    /// Write the next generation, under the pattern's own B/S rule.
    Step,
    /// Write the next generation, by the rule table that is the second file.
    StepTable,
}

/// What a run can do with patterns: a job, with the form that it takes them in.
#[derive(Clone, Copy, PartialEq, Eq, Debug)]
pub enum Task {
    /// Write the canonical text of the pattern, in a form.
    Canon(Form),
    /// Write the pattern in a format.
    Convert(Target),
    /// Report whether two files are the same pattern, in a form.
    Same(Form),
    /// Write what the pattern is, in five lines.
    Show,
    /// Write the same, and a line with the pattern's period under its own B/S rule, which is sought up to so many generations.
    ShowPeriod(u64),
    /// Write the next generation, under the pattern's own B/S rule.
    Step,
    /// Write the next generation, by the rule table that is the second file.
    StepTable,
    /// Write the generation so many after this one, under the pattern's own B/S rule.
    Later(u64),
    /// Write the generation so many after this one, by the rule table that is the second file.
    LaterTable(u64),
}

impl From<Job> for Task {
    ghost use Rattle.std.specs.Prelude.{◌≡◌};
    ghost use Rattle.command_line.specs.Plans.{task_of};

    ghost from_gives = { λ job task. task ≡ task_of job };

    /// The job, on patterns as they lie.
    fn from(job: Job) -> Task {
        match job {
            Job::Show => Task::Show,
            Job::Canon => Task::Canon(Form::Placed),
            Job::Convert(target) => Task::Convert(target),
            Job::Same => Task::Same(Form::Placed),
            Job::Step => Task::Step,
            Job::StepTable => Task::StepTable,
        }
    }
}

/// The format that a pattern is converted to.
#[derive(Clone, Copy, PartialEq, Eq, Debug)]
pub enum Target {
    /// Extended RLE.
    Rle,
    /// Macrocell: the canonical text.
    Mc,
}

/// What of a pattern its key depends on: the form, and whether the generation counts.
#[derive(Clone, Copy)]
pub struct KeyForm {
    pub form: Form,
    /// Whether the pattern is taken as if its generation were 0.
    pub ignores_generation: bool,
}

/// A job and its files. A file named `-` is standard input.
#[derive(Drop)]
pub struct Plan {
    pub job: Job,
    pub first: String,
    pub second: Option<String>,
}

/// A task and its files. A file named `-` is standard input.
#[derive(Drop)]
pub struct TaskPlan {
    pub task: Task,
    pub first: String,
    pub second: Option<String>,
    /// Whether an error is also explained in a sentence.
    pub explain: bool,
}

/// A command over any number of files, `keys` or `duplicates`: what it takes, and how it writes.
#[derive(Drop)]
pub struct KeysPlan<'a> {
    pub form: KeyForm,
    /// Whether names end in NUL in place of LF.
    pub zero: bool,
    /// Whether `keys` writes an object of JSON for each file. `duplicates` has no such option.
    pub json: bool,
    /// Whether a folder represents the files in it and below it.
    pub recursive: bool,
    /// The list of further files, if one is named.
    pub from: Option<&'a str>,
    pub files: Vec<&'a str>,
}

/// The command `keys` over the patterns of one stream, each of which ends in NUL: what it takes, and how it writes.
#[derive(Clone, Copy)]
pub struct StreamPlan<'a> {
    pub form: KeyForm,
    /// Whether the line of a key ends in NUL in place of LF.
    pub zero: bool,
    /// Whether an object of JSON is written for each pattern.
    pub json: bool,
    /// The name of the stream: a file, or `-`.
    pub stream: &'a str,
}

/// What the words ask for.
#[derive(Drop)]
pub enum Request<'a> {
    /// A task over one file or two.
    Work(TaskPlan),
    /// The keys of any number of files.
    Keys(KeysPlan<'a>),
    /// The keys of the patterns of a stream.
    Stream(StreamPlan<'a>),
    /// The groups of files, among any number of them, that are the same pattern.
    Duplicates(KeysPlan<'a>),
}

/// Why the words ask for nothing that can be done.
#[derive(Drop)]
pub enum Usage {
    /// What `clap` says: what is wrong with the words, the text of `--help` or `--version`, or that it is out of memory.
    Words(Error),
    /// The words name `-` for two files.
    TwoInputs,
    /// The arguments are right, but there was no memory for the copy of a file's name.
    Memory,
}

impl From<AllocError> for Usage {
    ghost use Rattle.std.specs.Prelude.{◌≡◌};
    ghost use Rattle.command_line.specs.declared.plans.Usage.TheVariants.{Memory};

    ghost from_gives = { λ _ usage. usage ≡ Memory };

    /// `Memory`.
    fn from(_refused: AllocError) -> Usage {
        Usage::Memory
    }
}

impl From<Error> for Usage {
    ghost use Rattle.std.specs.Prelude.{◌≡◌};
    ghost use Rattle.command_line.specs.declared.plans.Usage.TheVariants.{Words};

    ghost from_gives = { λ error usage. usage ≡ Words error };

    /// `Words`.
    fn from(error: Error) -> Usage {
        Usage::Words(error)
    }
}

mod commands;
mod help;
pub(crate) mod requests;
