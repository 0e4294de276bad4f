// Results as doubles.
#![tactic(auto)]

ghost use Rattle.meaning.specs.Values as meant;
ghost use Rattle.plan.specs.Structs.{stages_of, answer_of};
ghost use Rattle.plan.specs.Contract.{Gives};

use plan::{Plan, Raster, Refusal};

mod converting;
pub mod inner;

// Each result over the divisor as a double, by one division. A refused call changes no cell.
pub fn doubles_series(
    plan: Plan,
    bound: u64,
    results: &[i64],
    cells: &mut [f64],
) -> Result<(), Refusal>
    ensures { Gives (meant.doubles_series (stages_of plan) bound results.now cells.old) (answer_of result) cells.new }
{
    let quotients = outputs::inner::series(plan, bound, results, cells.len())?;
    converting::doubles_into(quotients, cells);
    Ok(())
}

// The same of a picture, over the product of both divisors.
pub fn doubles_picture(raster: Raster, results: &[i64], cells: &mut [f64]) -> Result<(), Refusal>
    ensures { Gives (meant.doubles_picture (stages_of raster.across) (stages_of raster.down) raster.bound raster.width raster.height results.now cells.old) (answer_of result) cells.new }
{
    let quotients = outputs::inner::picture(raster, results, cells.len())?;
    converting::doubles_into(quotients, cells);
    Ok(())
}
