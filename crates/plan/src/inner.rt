// The tests of a plan. A refusal is that of the first row that applies.
ghost use Rattle.std.specs.Prelude.{◌≡◌, [], ◌∷◌, ◌+◌, ◌*◌, ◌≤◌};
ghost use Rattle.meaning.specs.Limits.{least, max_passes, max_radius, max_inner, max_bound, max_result, max_length, max_side};
ghost use Rattle.meaning.specs.Kernel.{tap_sum, tap_reach, divisor};
ghost use Rattle.meaning.specs.Refusals as R;
ghost use Rattle.meaning.specs.Refusals.{◌when◌};
ghost use Rattle.plan.specs.Structs.{stage_of, stages_of, refused, answer_of};
ghost use Rattle.plan.specs.Tested.{Tested};
ghost use Rattle.plan.specs.Capped.{capped};

use crate::{Plan, Refusal};

// A picture's columns and rows, once they are allowed.
#[derive(Clone, Copy)]
pub struct Sides {
    pub width: usize,
    pub height: usize,
}

// No code calls this: it is proved, so that each constant is the number of the definitions.
fn limits_agree()
    ensures plans { (least ≡ Plan.LEAST) × (max_passes ≡ Plan.MAX_PASSES) × (max_radius ≡ Plan.MAX_RADIUS) × (max_inner ≡ Plan.MAX_INNER) }
    ensures sizes { (max_bound ≡ Plan.MAX_BOUND) × (max_result ≡ Plan.MAX_RESULT) × (max_length ≡ Plan.MAX_LENGTH) × (max_side ≡ Plan.MAX_SIDE) }
{}

// Is x not from low to high?
pub fn outside(low: u64, high: u64, x: u64) -> bool
    ensures { result ≡ R.outside low high x }
{
    !(low..=high).contains(&x)
}

// A row of the table of numbers: a refusal where it applies.
#[tactic(auto, unfolding(meaning::specs::Refusals::first_of))]
pub fn row(applies: bool, refusal: Refusal) -> Result<(), Refusal>
    ensures { answer_of result ≡ R.first_of (record { answer = refused refusal; applies = applies } ∷ []) }
{
    if applies {
        return Err(refusal);
    }
    Ok(())
}

// Rows 1 to 4.
pub fn allowed(plan: Plan) -> Result<(), Refusal>
    ensures { answer_of result ≡ R.first_of (R.plan_rows (stages_of plan ∷ [])) }
{
    let passes = outside(Plan::LEAST, Plan::MAX_PASSES, plan.passes);
    let inner = outside(Plan::LEAST, Plan::MAX_INNER, plan.inner);
    row(passes, Refusal::Passes)?;
    row(Plan::MAX_RADIUS < plan.radius, Refusal::Radius)?;
    row(inner, Refusal::InnerWeight)?;
    row(plan.inner <= plan.edge, Refusal::EdgeWeight)
}

// ---- of a plan that is allowed
// A clause and no type: a test asks it in the line after the one that finds it, and all others hold it within a larger fact, `Passable` or `Editable`, from which a type would have to be made anew.

// The sum of one pass's taps.
fn tap_sum(plan: Plan) -> u64
    requires { Tested plan }
    ensures { result ≡ tap_sum (stage_of plan) }
{
    (2 * plan.radius + 1) * plan.inner + 2 * plan.edge
}

// How far a sample is felt after one pass.
pub(crate) fn tap_reach(plan: Plan) -> u64
    requires { Tested plan }
    ensures { result ≡ tap_reach (stage_of plan) }
{
    if plan.edge == 0 {
        plan.radius
    } else {
        plan.radius + 1
    }
}

// x times d, or one above the largest result where that is larger.
fn capped_times(x: u64, d: u64) -> u64
    requires { 1 ≤ d }
    ensures { result ≡ capped (x * d) }
{
    // no `saturating_mul`: it needs a product of 128 bits, for which wasm32 would have to import a function
    if Plan::MAX_RESULT / d < x {
        return Plan::MAX_RESULT + 1;
    }
    x * d
}

// x times the divisor of an allowed plan, or above the largest result where that is.
pub fn scaled(x: u64, plan: Plan) -> u64
    requires { Tested plan }
    ensures { capped result ≡ capped (x * divisor (stages_of plan)) }
{
    let d = tap_sum(plan);
    let passes = plan.passes;
    let mut product = x;
    // the proof goes by k
    for k in 0..passes {
        product = capped_times(product, d);
    }
    product
}
