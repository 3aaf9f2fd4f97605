//! Calls and types of `life_cli`.

ghost use Rattle.std.specs.Prelude.{◌≡◌, ◌↔◌, IsSome, IfSome, false};
ghost use Rattle.life_cli.specs.Plans.{HasSecond, task_of};

use life_base::{Sink, Source};
use life_cli::{Job, Plan, Target, Usage, plan, work};
use std::alloc::Global;

pub fn job_variants(job: Job) -> u8 {
    match job {
        Job::Show => 0,
        Job::Canon => 1,
        Job::Convert(Target::Rle) => 2,
        Job::Convert(Target::Mc) => 3,
        Job::Same => 4,
        Job::Step => 5,
        Job::StepTable => 6,
    }
}

pub fn worked<A: Source, B: Source, O: Sink, E: Sink>(
    alloc: Global,
    job: &Job,
    first: &mut A,
    second: &mut Option<B>,
    out: &mut O,
    err: &mut E,
) -> u8
    requires first_reads { A.failures first.old ≡ 0 }
    requires second_reads { IfSome second.old (λ b. B.failures b ≡ 0) }
    requires second_given { IsSome second.old ↔ HasSecond (task_of job.now) }
    requires writes { O.failures out.old ≡ 0 }
    requires takes { O.stalled out.old ≡ false }
    requires reports { E.failures err.old ≡ 0 }
    requires takes_report { E.stalled err.old ≡ false }
{
    work(alloc, job, first, second, out, err)
}

pub fn plan_fields(plan: Plan) -> (Job, String, Option<String>) {
    let Plan { job, first, second } = plan;
    (job, first, second)
}

pub fn planned(alloc: Global, words: &[&str]) -> Result<Plan, Usage> {
    plan(alloc, words)
}

pub fn usage_variants(usage: Usage) -> Option<clap::Error> {
    match usage {
        Usage::Words(error) => Some(error),
        Usage::TwoInputs => None,
        Usage::Memory => None,
    }
}
