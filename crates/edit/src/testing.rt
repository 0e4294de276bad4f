// The test of an edit before its results are looked at.
ghost use Rattle.std.specs.Prelude.{◌≡◌};
ghost use Rattle.meaning.specs.Refusals as R;
ghost use Rattle.plan.specs.Structs.{stages_of, answer_of};
ghost use Rattle.edit.specs.Rows.{front_rows};

use plan::inner::row;
use plan::{Plan, Refusal};
use refusals::inner::{Span, edit_room, lengths_differ, position_allowed, samples_allowed};

// Rows 1 to 11.
pub(crate) fn allowed(
    plan: Plan,
    bound: u64,
    position: usize,
    value: i64,
    samples: &[i32],
    results: usize,
    work: usize,
) -> Result<(), Refusal>
    ensures { answer_of result ≡ R.first_of (front_rows (stages_of plan) bound position value samples.now results work) }
{
    let n = samples.len();
    let wrong_length = lengths_differ(results, n, work, edit_room(n));
    position_allowed(plan, bound, n, wrong_length, position)?;
    row(bound < value.unsigned_abs(), Refusal::NewValue)?;
    let place = Span {
        start: position,
        end: position + 1,
    };
    samples_allowed(bound, samples, place)
}
