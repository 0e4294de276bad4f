// The results of an edit, by the plan's taps.
ghost use Rattle.std.specs.Prelude.{◌≡◌, ◌*◌};
ghost use Rattle.meaning.specs.Kernel.{divisor};
ghost use Rattle.plan.specs.Structs.{stages_of, answer_of, value_or};
ghost use Rattle.taps.specs.Lent.{Whole};
ghost use Rattle.stored.specs.Changes.{Changes, Editable};

use gains::inner::Edit;
use plan::inner::scaled;
use plan::{Plan, Refusal};
use taps::inner::with_taps;

// The results of an edit that is so far not refused, and how many change.
pub fn edit_results(
    plan: Plan,
    bound: u64,
    p: usize,
    change: i64,
    results: &mut [i64],
) -> Result<usize, Refusal>
    requires { Editable (stages_of plan) bound p change results.old }
    ensures { Changes (stages_of plan) (bound * divisor (stages_of plan)) p change results.old (answer_of result) (value_or 0 result) results.new }
{
    with_taps(plan, results, |taps, results| {
        by_taps(plan, taps, bound, p, change, results)
    })
}

// The same, by these taps.
fn by_taps(
    plan: Plan,
    taps: &[i64],
    bound: u64,
    p: usize,
    change: i64,
    results: &mut [i64],
) -> Result<usize, Refusal>
    requires whole { Whole (stages_of plan) taps.now }
    requires editable { Editable (stages_of plan) bound p change results.old }
    ensures { Changes (stages_of plan) (bound * divisor (stages_of plan)) p change results.old (answer_of result) (value_or 0 result) results.new }
{
    let len = results.len();
    let edit = Edit {
        taps,
        len,
        p,
        change,
    };
    edit.apply(scaled(bound, plan), results)
}
