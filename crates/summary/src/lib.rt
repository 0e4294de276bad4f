// The lowest and the highest of results.
#![tactic(auto)]

ghost use Rattle.std.specs.Prelude.{◌≡◌};
ghost use Rattle.meaning.specs.Values as meant;
ghost use Rattle.plan.specs.Structs.{stages_of};
ghost use Rattle.summary.specs.Structs.{summary_of};

use plan::{Plan, Raster, Refusal};

mod extremes;

// The lowest and the highest result as doubles, and the first index of each.
#[derive(Clone, Copy)]
pub struct Summary {
    pub lowest: f64,
    pub highest: f64,
    pub lowest_at: usize,
    pub highest_at: usize,
}

// The lowest and the highest of the results.
pub fn summary_series(plan: Plan, bound: u64, results: &[i64]) -> Result<Summary, Refusal>
    ensures { summary_of result ≡ meant.summary_series (stages_of plan) bound results.now }
{
    let quotients = outputs::inner::series(plan, bound, results, results.len())?;
    Ok(extremes::summary(quotients))
}

// The same of a picture, over the product of both divisors.
pub fn summary_picture(raster: Raster, results: &[i64]) -> Result<Summary, Refusal>
    ensures { summary_of result ≡ meant.summary_picture (stages_of raster.across) (stages_of raster.down) raster.bound raster.width raster.height results.now }
{
    let quotients = outputs::inner::picture(raster, results, results.len())?;
    Ok(extremes::summary(quotients))
}
