//! The files that the words name, and the order in which they are opened.

ghost use Rattle.std.specs.Prelude.{◌≡◌, ◌↔◌, IsSome, IfOk, IfErr, IfSome, OnErr, false};
ghost use Rattle.life_cli.specs.Words.{has_failed, OpensFiles, FailsToOpen};

use command_line::{Origin, TaskPlan, origin_of};
use life_base::{Device, Kind};
use std::io::{Read, Result as IoResult};

/// A file that was opened: what it is read from, and about how many bytes it has, or 0.
#[derive(Drop)]
pub struct Opened<R> {
    pub input: R,
    pub bytes: u64,
}

/// Opens the files of a plan by `opener`, the first one first.
///
/// # Errors
///
/// `ReadFault` where one can't be opened. Where that is the first, `opener` isn't called again.
pub fn open_files<R: Read + Drop, F: FnMut(Origin<'_>) -> IoResult<Opened<R>> + Drop>(
    plan: &TaskPlan,
    mut opener: F,
) -> Result<(Device<R>, Option<Device<R>>), Kind>
    requires { F.IsAlwaysCallable opener }
    ensures opened { IfOk result (OpensFiles F.step plan.now opener) }
    ensures given { IfOk result (λ files. IsSome files.1 ↔ IsSome plan.now.second) }
    ensures fresh { IfOk result (λ files. (has_failed files.0 ≡ false)
        × IfSome files.1 (λ second. has_failed second ≡ false)) }
    ensures failed { OnErr result (FailsToOpen F.step plan.now opener) }
    ensures kind { IfErr result (λ kind. kind ≡ Kind.ReadFault) }
{
    let Ok(first) = opener(origin_of(plan.first.as_str())) else {
        return Err(Kind::ReadFault);
    };
    let first = Device::new(first.input).expecting(first.bytes);
    match &plan.second {
        Some(name) => {
            let Ok(second) = opener(origin_of(name.as_str())) else {
                return Err(Kind::ReadFault);
            };
            let second = Device::new(second.input).expecting(second.bytes);
            Ok((first, Some(second)))
        }
        None => Ok((first, None)),
    }
}
