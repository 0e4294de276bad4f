// Results as whole numbers.
#![tactic(auto)]

ghost use Rattle.meaning.specs.Values as meant;
ghost use Rattle.plan.specs.Structs.{stages_of, answer_of};
ghost use Rattle.plan.specs.Contract.{Gives};

use mode::Rounding;
use plan::{Plan, Raster, Refusal};

mod converting;
mod mode;

// The mode in which a half goes to the even neighbour.
pub const EVEN: u64 = 0;

// The mode in which it goes upward, for columns that are stored so.
pub const UPWARD: u64 = 1;

// Each result over the divisor, to the nearest whole number, a half going by the mode: any number, as another mode than these two is refused. A refused call changes no cell.
pub fn whole_series_by(
    plan: Plan,
    bound: u64,
    mode: u64,
    results: &[i64],
    cells: &mut [i32],
) -> Result<(), Refusal>
    ensures { Gives (meant.whole_series_by (stages_of plan) bound mode results.now cells.old) (answer_of result) cells.new }
{
    let quotients = outputs::inner::series(plan, bound, results, cells.len())?;
    let rounding = Rounding::try_from(mode)?;
    converting::whole_into(quotients, rounding, cells);
    Ok(())
}

// The same, a half going to the even neighbour.
pub fn whole_series(
    plan: Plan,
    bound: u64,
    results: &[i64],
    cells: &mut [i32],
) -> Result<(), Refusal>
    ensures { Gives (meant.whole_series (stages_of plan) bound results.now cells.old) (answer_of result) cells.new }
{
    whole_series_by(plan, bound, EVEN, results, cells)
}

// Of a picture, by a mode, over the product of both divisors.
pub fn whole_picture_by(
    raster: Raster,
    mode: u64,
    results: &[i64],
    cells: &mut [i32],
) -> Result<(), Refusal>
    ensures { Gives (meant.whole_picture_by (stages_of raster.across) (stages_of raster.down) raster.bound raster.width raster.height mode results.now cells.old) (answer_of result) cells.new }
{
    let quotients = outputs::inner::picture(raster, results, cells.len())?;
    let rounding = Rounding::try_from(mode)?;
    converting::whole_into(quotients, rounding, cells);
    Ok(())
}

// The same of a picture, a half going to the even neighbour.
pub fn whole_picture(raster: Raster, results: &[i64], cells: &mut [i32]) -> Result<(), Refusal>
    ensures { Gives (meant.whole_picture (stages_of raster.across) (stages_of raster.down) raster.bound raster.width raster.height results.now cells.old) (answer_of result) cells.new }
{
    whole_picture_by(raster, EVEN, results, cells)
}
