//! Why a file has no key, and what the file is instead of a pattern.

ghost use Rattle.std.specs.Prelude.{◌≡◌};
ghost use Rattle.file_keys.specs.Words.{advice_lead, without_advice};

use file_hints::Foreign;
use life_base::Fault;

/// A file that was opened.
#[derive(Drop)]
pub struct OpenedFile<R> {
    pub source: R,
    /// What the file is, if its first bytes are those of something that the program doesn't read.
    pub foreign: Option<Foreign>,
}

/// Why a file has no key.
#[derive(Clone, Copy)]
pub struct FileRefusal {
    pub fault: Fault,
    /// What the file is, if it is something that the program doesn't read.
    pub foreign: Option<Foreign>,
}

impl FileRefusal {
    /// A fault that has nothing to do with what the file is.
    pub(crate) fn of(fault: Fault) -> FileRefusal
        ensures { result ≡ without_advice fault }
    {
        FileRefusal {
            fault,
            foreign: None,
        }
    }
}

/// What comes between the sentence on a fault and the advice, if there is one.
pub(super) fn lead(foreign: Option<Foreign>) -> &'static [u8]
    ensures { result.now ≡ advice_lead foreign }
{
    match foreign {
        Some(_) => b" ",
        None => b"",
    }
}
