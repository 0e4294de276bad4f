// An edit of a stored smoothing: one sample, and the results within its reach.
#![tactic(auto)]

ghost use Rattle.meaning.specs.Extension.{fold};
ghost use Rattle.meaning.specs.Calls.{edit_series};
ghost use Rattle.plan.specs.Structs.{stages_of, answer_of, value_or};
ghost use Rattle.edit.specs.Contract.{Gives};

use plan::{Plan, Refusal};

pub mod inner;
mod testing;

// Sets sample `position` to the value, gives each result within reach its gain, and leaves zeros in work. Answers how many results change. A refused call changes no cell.
pub fn edit_series(
    plan: Plan,
    bound: u64,
    position: usize,
    value: i64,
    samples: &mut [i32],
    results: &mut [i64],
    work: &mut [i64],
) -> Result<usize, Refusal>
    ensures { Gives (edit_series fold (stages_of plan) bound position value samples.old results.old work.old) (answer_of result) (value_or 0 result) samples.new results.new work.new }
{
    let room = work.len();
    let count = inner::edit_within(plan, bound, position, value, samples, results, room)?;
    pass::inner::clear(work);
    Ok(count)
}
