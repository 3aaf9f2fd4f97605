//! What runs write.

ghost use Rattle.std.specs.Prelude.{◌≡◌, ◌⊎◌, ◌↔◌, ◌<◌, ◌≤◌, ◌^◌, ◌++◌, ℕ, List, Some, Ok, IfOk};
ghost use Rattle.program_theorems.specs.Words.{claimed_node_lines, SayOnePattern, pattern_of, Pattern, IsClaimedShown, IsGiven, WritesCanonical, FormValue, SameIn};

use crate::laws::layers_agree;
use crate::runs::ProgramRun;
use life_base::{Fault, Sink, Source};
use life_canon::canon;
use life_cli::plans::{Form, Target, Task};
use life_cli::work_seeded;
use life_quad::{Seed, Shared};
use std::alloc::Global;

/// What `canon`, without a form, and `convert --to mc` write is the canonical text that `canon` of `life_canon` makes of the bytes of the file.
pub fn written_text_is_that_of_canon<A: Source, B: Source, O: Sink, E: Sink>(
    alloc: Global,
    run: &mut ProgramRun<A, B, O, E>,
    file: &[u8],
    limit: u64,
    seed: Seed,
) -> (u8, Result<Vec<u8>, Fault>)
    requires given { IsGiven run.old.task (A.failures run.old.first) B.failures run.old.second
        (O.failures run.old.out) (O.stalled run.old.out)
        (E.failures run.old.err) (E.stalled run.old.err) }
    requires limit { limit ≤ 2 ^ 62 }
    ensures { (held : List ℕ) → A.remaining run.old.first ≡ Some file.now
        → O.contents run.old.out ≡ Some held → result.0 < 2
        → (run.old.task ≡ Task.Canon Form.Placed) ⊎ (run.old.task ≡ Task.Convert Target.Mc)
        → IfOk result.1 (λ text. O.contents run.new.out ≡ Some (held ++ text.items)) }
{
    layers_agree();
    let (first, second) = (&mut run.first, &mut run.second);
    let (out, err) = (&mut run.out, &mut run.err);
    let status = work_seeded(alloc, &run.seeds, &run.task, first, second, out, err);
    let mut store = Shared::seeded(alloc, seed, limit);
    (status, canon(alloc, &mut store, file))
}

/// Two runs that write canonical texts, of files or of next generations, write the same bytes exactly if these are files of the
/// same pattern; two runs of `canon` in one form exactly if the files that they read are the same in that form; and `show` says how many
/// node lines the text has that `canon` writes of the same bytes without a form.
pub fn outputs_of_two_runs<A: Source, B: Source, O: Sink, E: Sink>(
    alloc: Global,
    one: &mut ProgramRun<A, B, O, E>,
    two: &mut ProgramRun<A, B, O, E>,
) -> (u8, u8)
    requires given { IsGiven one.old.task (A.failures one.old.first) B.failures one.old.second
        (O.failures one.old.out) (O.stalled one.old.out)
        (E.failures one.old.err) (E.stalled one.old.err) }
    requires other_given { IsGiven two.old.task (A.failures two.old.first) B.failures
        two.old.second (O.failures two.old.out) (O.stalled two.old.out)
        (E.failures two.old.err) (E.stalled two.old.err) }
    ensures equal { (held kept : List ℕ) → O.contents one.old.out ≡ Some held
        → O.contents two.old.out ≡ Some kept → result.0 < 2 → result.1 < 2
        → WritesCanonical one.old.task → WritesCanonical two.old.task
        → (text : List ℕ) × (other : List ℕ) × (O.contents one.new.out ≡ Some (held ++ text))
        × (O.contents two.new.out ≡ Some (kept ++ other))
        × ((text ≡ other) ↔ SayOnePattern text other) }
    ensures forms { (form : FormValue) (file other_file held kept : List ℕ)
        → O.contents one.old.out ≡ Some held → O.contents two.old.out ≡ Some kept → result.0 < 2
        → result.1 < 2 → one.old.task ≡ Task.Canon form → two.old.task ≡ Task.Canon form
        → A.remaining one.old.first ≡ Some file → A.remaining two.old.first ≡ Some other_file
        → (text : List ℕ) × (other : List ℕ) × (O.contents one.new.out ≡ Some (held ++ text))
        × (O.contents two.new.out ≡ Some (kept ++ other))
        × ((text ≡ other) ↔ SameIn form file other_file) }
    ensures shown { (file held kept : List ℕ) → O.contents one.old.out ≡ Some held
        → O.contents two.old.out ≡ Some kept → result.0 < 2 → result.1 < 2
        → one.old.task ≡ Task.Canon Form.Placed → two.old.task ≡ Task.Show
        → A.remaining one.old.first ≡ Some file → A.remaining two.old.first ≡ Some file
        → (text : List ℕ) × (lines : List ℕ) × (O.contents one.new.out ≡ Some (held ++ text))
        × (O.contents two.new.out ≡ Some (kept ++ lines))
        × ((pattern : Pattern) × (pattern_of file ≡ Ok pattern)
        × IsClaimedShown pattern (claimed_node_lines text) lines) }
{
    layers_agree();
    let (first, second) = (&mut one.first, &mut one.second);
    let (out, err) = (&mut one.out, &mut one.err);
    let status = work_seeded(alloc, &one.seeds, &one.task, first, second, out, err);
    let (first, second) = (&mut two.first, &mut two.second);
    let (out, err) = (&mut two.out, &mut two.err);
    let other = work_seeded(alloc, &two.seeds, &two.task, first, second, out, err);
    (status, other)
}
