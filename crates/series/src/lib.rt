// Smoothing a series.
#![tactic(auto)]

ghost use Rattle.meaning.specs.Extension.{fold};
ghost use Rattle.meaning.specs.Calls.{smooth_series};
ghost use Rattle.plan.specs.Structs.{stages_of, answer_of};
ghost use Rattle.series.specs.Contract.{Gives};

use plan::{Plan, Refusal};

pub mod inner;
mod testing;

// Smooths the samples into the results, and leaves zeros in work. A refused call changes no cell.
pub fn smooth_series(
    plan: Plan,
    bound: u64,
    samples: &[i32],
    results: &mut [i64],
    work: &mut [i64],
) -> Result<(), Refusal>
    ensures { Gives (smooth_series fold (stages_of plan) bound samples.now results.old work.old) (answer_of result) results.new work.new }
{
    testing::allowed(plan, bound, samples, results.len(), work.len())?;
    inner::smooth_into(plan, plan.passes, samples, results, work);
    pass::inner::clear(work);
    Ok(())
}
