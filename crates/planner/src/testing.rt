// The rows of the planner.
ghost use Rattle.std.specs.Prelude.{◌≡◌};
ghost use Rattle.meaning.specs.Refusals.{first_of};
ghost use Rattle.meaning.specs.Planner.{planner_rows};
ghost use Rattle.plan.specs.Structs.{answer_of};

use crate::Planned;
use plan::inner::{outside, row};
use plan::{Plan, Refusal};

// Row 15 is not tested: where 1, 3 and 13 do not apply, no radius answered is above 443.
pub(crate) fn allowed(sigma: u64, passes: u64, inner: u64) -> Result<(), Refusal>
    ensures { answer_of result ≡ first_of (planner_rows sigma passes inner) }
{
    let bad_passes = outside(Plan::LEAST, Plan::MAX_PASSES, passes);
    let bad_inner = outside(Plan::LEAST, Plan::MAX_INNER, inner);
    let bad_sigma = outside(Plan::LEAST, Planned::MAX_SIGMA, sigma);
    row(bad_passes, Refusal::Passes)?;
    row(bad_inner, Refusal::InnerWeight)?;
    row(bad_sigma, Refusal::Sigma)?;
    Ok(())
}
