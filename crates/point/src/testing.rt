// The test of a point.
ghost use Rattle.std.specs.Prelude.{◌≡◌};
ghost use Rattle.meaning.specs.Refusals as R;
ghost use Rattle.meaning.specs.Calls as C;
ghost use Rattle.plan.specs.Structs.{stages_of, answer_of};

use plan::{Plan, Refusal};
use refusals::inner::{edit_room, position_allowed, samples_allowed, within_reach};

// Of the samples only those within reach are looked at.
pub(crate) fn allowed(
    plan: Plan,
    bound: u64,
    position: usize,
    samples: &[i32],
    work: usize,
) -> Result<(), Refusal>
    ensures { answer_of result ≡ R.first_of (C.point_rows (stages_of plan) bound position samples.now work) }
{
    let n = samples.len();
    let wrong_length = work != edit_room(n);
    position_allowed(plan, bound, n, wrong_length, position)?;
    let span = within_reach(n, position, plan.reach() as usize);
    samples_allowed(bound, samples, span)
}
