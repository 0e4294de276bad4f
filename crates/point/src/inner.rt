// A point without its work: no step of it needs any.
ghost use Rattle.std.specs.Prelude.{ℤ, ◌≡◌, List, length};
ghost use Rattle.meaning.specs.Extension.{fold};
ghost use Rattle.meaning.specs.Calls as C;
ghost use Rattle.plan.specs.Structs.{stages_of};
ghost use Rattle.point.specs.Contract.{Tells};

use crate::testing;
use plan::{Plan, Refusal};

// The point of a call that is lent so many cells of work, whatever they hold.
pub fn point_within(
    plan: Plan,
    bound: u64,
    position: usize,
    samples: &[i32],
    room: usize,
) -> Result<f64, Refusal>
    ensures { (w : List ℤ) → length w ≡ room → Tells (C.point fold (stages_of plan) bound position samples.now w) result }
{
    testing::allowed(plan, bound, position, samples, room)?;
    let result = result::inner::result(plan, samples, position);
    Ok(doubles::inner::ratio(result, plan.divisor()))
}

// The point of a call that is lent as much work as it asks.
pub fn point_alone(plan: Plan, bound: u64, position: usize, samples: &[i32]) -> Result<f64, Refusal>
    ensures { Tells (C.point fold (stages_of plan) bound position samples.now (C.asked (stages_of plan) (length samples.now))) result }
{
    let room = refusals::inner::edit_room(samples.len());
    point_within(plan, bound, position, samples, room)
}
