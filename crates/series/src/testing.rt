// What smoothing a series answers.
ghost use Rattle.std.specs.Prelude.{◌≡◌, length};
ghost use Rattle.meaning.specs.Refusals as R;
ghost use Rattle.meaning.specs.Calls as C;
ghost use Rattle.plan.specs.Structs.{stages_of, answer_of};

use plan::{Plan, Refusal};
use refusals::inner::{Span, lengths_differ, samples_allowed, series_allowed};

pub(crate) fn allowed(
    plan: Plan,
    bound: u64,
    samples: &[i32],
    results: usize,
    work: usize,
) -> Result<(), Refusal>
    ensures { answer_of result ≡ R.first_of (C.smooth_rows (R.series_of (stages_of plan) (length samples.now)) bound samples.now results work) }
{
    let n = samples.len();
    let wrong_length = lengths_differ(results, n, work, n);
    series_allowed(plan, bound, n, wrong_length)?;
    samples_allowed(bound, samples, Span { start: 0, end: n })
}
