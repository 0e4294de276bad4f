// Results as whole numbers that add up: what a cell leaves of its quotient is carried on to the next.
#![tactic(auto)]

ghost use Rattle.meaning.specs.Carry as meant;
ghost use Rattle.plan.specs.Structs.{stages_of, answer_of};
ghost use Rattle.carry.specs.Structs.{carry_of};
ghost use Rattle.carry.specs.Contract.{Gives};

use plan::{Plan, Raster, Refusal};

mod carrying;

// Each result and the carry over the divisor, rounded down; the rest is carried on. What the last cell leaves is answered, from 0 to the divisor less one. A refused call changes no cell.
pub fn carry_series(
    plan: Plan,
    bound: u64,
    results: &[i64],
    cells: &mut [i32],
) -> Result<u64, Refusal>
    ensures { Gives (meant.carry_series (stages_of plan) bound results.now cells.old) (answer_of result) (carry_of result) cells.new }
{
    let quotients = outputs::inner::series(plan, bound, results, cells.len())?;
    Ok(carrying::carry_into(quotients, cells))
}

// The same of a picture, row after row as one run, over the product of both divisors.
pub fn carry_picture(raster: Raster, results: &[i64], cells: &mut [i32]) -> Result<u64, Refusal>
    ensures { Gives (meant.carry_picture (stages_of raster.across) (stages_of raster.down) raster.bound raster.width raster.height results.now cells.old) (answer_of result) (carry_of result) cells.new }
{
    let quotients = outputs::inner::picture(raster, results, cells.len())?;
    Ok(carrying::carry_into(quotients, cells))
}
