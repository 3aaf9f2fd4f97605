//! The line on a terminal that says how far a run of the command `keys` is, that `step` makes many generations, or that `show` seeks a period.

ghost use Rattle.std.specs.Prelude.{◌≡◌, ◌≤◌, ◌↔◌, IsTrue};

use life_cli::plans::{KeysPlan, Task};
use std::alloc::AllocError;
use std::cell::Cell;
use std::io::{IsTerminal, Write};
use std::rt::Stderr;
use std::time::Instant;

/// After how many milliseconds the line is first shown.
const FIRST: u128 = 1000;

/// How many milliseconds pass at least until it is shown again.
const PAUSE: u128 = 250;

/// Whether the line is to be shown, by the time and that of the next line.
fn is_due(now: u128, next: u128) -> bool
    ensures { IsTrue result ↔ next ≤ now }
{
    now >= next
}

/// A line on the terminal of standard error, which is cleared before anything else is written.
#[derive(Drop)]
pub(crate) struct TerminalLine {
    terminal: Stderr,
    // Whether the line is shown.
    stands: Cell<bool>,
}

impl TerminalLine {
    /// No line is shown yet.
    fn new(rt: &HostRuntime) -> TerminalLine {
        TerminalLine {
            terminal: rt.stderr(),
            stands: Cell::new(false),
        }
    }

    /// Shows a text in the line.
    fn show(&self, text: &[u8]) {
        self.stands.set(true);
        let mut terminal = self.terminal;
        let _ = terminal.write_all(text);
    }

    /// Clears the line, if it is shown.
    pub(crate) fn clear(&self) {
        if self.stands.get() {
            self.stands.set(false);
            let mut terminal = self.terminal;
            let _ = terminal.write_all(b"\r\x1b[K");
        }
    }
}

/// The line that says that `step` makes many generations, or that `show` seeks a period, which takes as long as it takes. There is none for other tasks, where standard error is no
/// terminal, and without memory for it.
#[derive(Drop)]
pub(crate) struct GenerationsLine {
    pub line: TerminalLine,
    text: Option<String>,
}

/// What the line says of so many generations: also what stops them, and what limits what they cost.
fn generations_text(rt: &HostRuntime, generations: u64) -> Result<String, AllocError> {
    let ending = if generations == 1 { "" } else { "s" };
    format!(in rt.alloc();
        "\rmaking {generations} generation{ending}; Ctrl-C stops, ulimit -v limits memory"
    )
}

/// What the line says of a period that is sought up to so many generations.
fn period_text(rt: &HostRuntime, most: u64) -> Result<String, AllocError> {
    format!(in rt.alloc(); "\rseeking a period up to {most}; Ctrl-C stops, ulimit -v limits memory")
}

impl GenerationsLine {
    /// The line of a task that isn't shown yet.
    pub(crate) fn new(rt: &HostRuntime, task: &Task) -> GenerationsLine {
        let text = match task {
            Task::Later(generations) | Task::LaterTable(generations) if rt.stderr().is_terminal() =>
                { generations_text(rt, *generations).ok() }
            Task::ShowPeriod(most) if rt.stderr().is_terminal() => period_text(rt, *most).ok(),
            _ => None,
        };
        GenerationsLine {
            line: TerminalLine::new(rt),
            text,
        }
    }

    /// Shows the line, if there is one.
    pub(crate) fn show(&self) {
        if let Some(text) = &self.text {
            self.line.show(text.as_bytes());
        }
    }
}

/// The line of `keys` on standard error. Where that is no terminal, nothing is written and no clock is read.
#[derive(Drop)]
pub(crate) struct ProgressLine {
    pub line: TerminalLine,
    // When the run began, where the line is shown.
    begin: Option<Instant>,
    /// Whether standard output is a terminal too.
    pub is_shared: bool,
    // How many files the plan names, without those of a list.
    named: usize,
    // Whether the plan names a list.
    has_list: bool,
    // How often a file was opened, or the list, which is the first.
    opened: Cell<u64>,
    // At which millisecond the line may be shown next.
    next_time: Cell<u128>,
}

impl ProgressLine {
    /// The line of a run that begins.
    pub(crate) fn new(rt: &HostRuntime, plan: &KeysPlan<'_>) -> ProgressLine {
        let is_shown = rt.stderr().is_terminal();
        ProgressLine {
            line: TerminalLine::new(rt),
            begin: if is_shown {
                Instant::now(rt).ok()
            } else {
                None
            },
            is_shared: is_shown && rt.stdout().is_terminal(),
            named: plan.files.len(),
            has_list: plan.from.is_some(),
            opened: Cell::new(0),
            next_time: Cell::new(FIRST),
        }
    }

    /// Counts a file that is now opened, or the list, and shows how many files came before it, where that is due. `listed` is how many files the list
    /// names.
    pub(crate) fn advance(&self, rt: &HostRuntime, listed: usize) {
        let done = self.opened.get();
        self.opened.set(done.saturating_add(1));
        let Some(begin) = self.begin else {
            return;
        };
        let Ok(elapsed) = begin.elapsed(rt) else {
            return;
        };
        let now = elapsed.as_millis();
        if is_due(now, self.next_time.get()) {
            self.next_time.set(now.saturating_add(PAUSE));
            self.write(rt, done, listed);
        }
    }

    /// Writes the line, where there is memory for it.
    fn write(&self, rt: &HostRuntime, opened: u64, listed: usize) {
        let done = opened.saturating_sub(u64::from(self.has_list));
        let total = self.named.saturating_add(listed);
        if let Ok(text) = format!(in rt.alloc(); "\r{done} of {total} files") {
            self.line.show(text.as_bytes());
        }
    }
}
