//! The work of a task.

ghost use Rattle.std.specs.Prelude.{◌≡◌, ◌⊎◌, ◌<◌, ◌++◌, ℕ, List, [], take, true, false, Some, IfSome, IsSomeAnd};
ghost use Rattle.program_theorems.specs.Words.{HasClaimedSecond, IsGiven, IsOutcome, IsShortFile, IsRefused, DeviceHolds};

use crate::laws::layers_agree;
use crate::runs::ProgramRun;
use life_base::{Sink, Source};
use life_cli::work_seeded;
use std::alloc::Global;

/// A task writes the text that the bytes of its files ask for to `out`, after what that held, and ends with its status: 0 or 1.
/// Or it reports on `err` why not, by the line of a fault, ends with the fault's status, and `out` is as it was, if it works.
/// A sink that fails, or takes no bytes, has a prefix of the text or of the line.
pub fn does_its_job<A: Source, B: Source, O: Sink, E: Sink>(
    alloc: Global,
    run: &mut ProgramRun<A, B, O, E>,
) -> u8
    requires { IsGiven run.old.task (A.failures run.old.first) B.failures run.old.second
        (O.failures run.old.out) (O.stalled run.old.out)
        (E.failures run.old.err) (E.stalled run.old.err) }
    ensures done { (file other : List ℕ) → A.remaining run.old.first ≡ Some file
        → IfSome run.old.second (λ b. B.remaining b ≡ Some other) → result < 2
        → (text : List ℕ) × IsOutcome run.old.task file other result text
        × ((held : List ℕ) → O.contents run.old.out ≡ Some held
        → O.contents run.new.out ≡ Some (held ++ text)) }
    ensures flushed { result < 2 → O.flushed run.new.out ≡ true }
    ensures quiet { result < 2 → run.new.err ≡ run.old.err }
    ensures whole { (file : List ℕ) → A.remaining run.old.first ≡ Some file → result < 2
        → (A.remaining run.new.first ≡ Some []) × IsShortFile file }
    ensures second_whole { (other : List ℕ) → HasClaimedSecond run.old.task
        → IfSome run.old.second (λ b. B.remaining b ≡ Some other) → result < 2
        → IsSomeAnd run.new.second (λ b. B.remaining b ≡ Some []) × IsShortFile other }
    ensures refused { (file other : List ℕ) → A.remaining run.old.first ≡ Some file
        → IfSome run.old.second (λ b. B.remaining b ≡ Some other) → 1 < result
        → (line : List ℕ) × IsRefused run.old.task file other
        ((A.failures run.new.first ≡ 1) ⊎ IsSomeAnd run.new.second (λ b. B.failures b ≡ 1))
        ((O.failures run.new.out ≡ 1) ⊎ (O.stalled run.new.out ≡ true)) result line
        × ((heard : List ℕ) → E.contents run.old.err ≡ Some heard
        → DeviceHolds heard line ((E.failures run.new.err ≡ 1) ⊎ (E.stalled run.new.err ≡ true))
        (E.contents run.new.err)) }
    ensures unwritten { 1 < result → O.failures run.new.out ≡ 0 → O.stalled run.new.out ≡ false
        → run.new.out ≡ run.old.out }
    ensures broken { (file other : List ℕ) → A.remaining run.old.first ≡ Some file
        → IfSome run.old.second (λ b. B.remaining b ≡ Some other)
        → (O.failures run.new.out ≡ 1) ⊎ (O.stalled run.new.out ≡ true)
        → (result ≡ 3) × ((status : ℕ) × (text : List ℕ)
        × IsOutcome run.old.task file other status text
        × ((held : List ℕ) → O.contents run.old.out ≡ Some held
        → (n : ℕ) × (O.contents run.new.out ≡ Some (held ++ take n text)))) }
    ensures unread { (A.failures run.new.first ≡ 1)
        ⊎ IsSomeAnd run.new.second (λ b. B.failures b ≡ 1) → result ≡ 3 }
{
    layers_agree();
    let (first, second) = (&mut run.first, &mut run.second);
    let (out, err) = (&mut run.out, &mut run.err);
    work_seeded(alloc, &run.seeds, &run.task, first, second, out, err)
}
