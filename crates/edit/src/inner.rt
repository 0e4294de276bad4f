// An edit without its work: no step of it needs any.
ghost use Rattle.std.specs.Prelude.{ℤ, ◌≡◌, List, length};
ghost use Rattle.meaning.specs.Extension.{fold};
ghost use Rattle.meaning.specs.Calls.{asked, edit_series};
ghost use Rattle.plan.specs.Structs.{stages_of, answer_of, value_or};
ghost use Rattle.edit.specs.Contract.{GivesAlone};

use crate::testing;
use plan::{Plan, Refusal};

// The edit of a call that is lent so many cells of work, whatever they hold.
pub fn edit_within(
    plan: Plan,
    bound: u64,
    position: usize,
    value: i64,
    samples: &mut [i32],
    results: &mut [i64],
    room: usize,
) -> Result<usize, Refusal>
    ensures { (w : List ℤ) → length w ≡ room → GivesAlone (edit_series fold (stages_of plan) bound position value samples.old results.old w) (answer_of result) (value_or 0 result) samples.new results.new }
{
    testing::allowed(plan, bound, position, value, samples, results.len(), room)?;
    let change = value - i64::from(samples[position]);
    let count = stored::inner::edit_results(plan, bound, position, change, results)?;
    samples[position] = value as i32;
    Ok(count)
}

// The edit of a call that is lent as much work as it asks.
pub fn edit_alone(
    plan: Plan,
    bound: u64,
    position: usize,
    value: i64,
    samples: &mut [i32],
    results: &mut [i64],
) -> Result<usize, Refusal>
    ensures { GivesAlone (edit_series fold (stages_of plan) bound position value samples.old results.old (asked (stages_of plan) (length samples.old))) (answer_of result) (value_or 0 result) samples.new results.new }
{
    let room = refusals::inner::edit_room(samples.len());
    edit_within(plan, bound, position, value, samples, results, room)
}
