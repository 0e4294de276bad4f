// The smoothed value at one point, from the samples within its reach.
#![tactic(auto)]

ghost use Rattle.meaning.specs.Extension.{fold};
ghost use Rattle.meaning.specs.Calls as C;
ghost use Rattle.plan.specs.Structs.{stages_of};
ghost use Rattle.point.specs.Contract.{Gives};

use plan::{Plan, Refusal};

pub mod inner;
mod testing;

// The result at `position` over the divisor, and zeros left in work. A refused call changes no cell.
pub fn point(
    plan: Plan,
    bound: u64,
    position: usize,
    samples: &[i32],
    work: &mut [i64],
) -> Result<f64, Refusal>
    ensures { Gives (C.point fold (stages_of plan) bound position samples.now work.old) result work.new }
{
    let value = inner::point_within(plan, bound, position, samples, work.len())?;
    pass::inner::clear(work);
    Ok(value)
}
