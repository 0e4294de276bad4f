// Smoothing a picture.
#![tactic(auto)]

ghost use Rattle.meaning.specs.Extension.{fold};
ghost use Rattle.meaning.specs.Calls.{smooth_picture};
ghost use Rattle.plan.specs.Structs.{stages_of, answer_of};
ghost use Rattle.series.specs.Contract.{Gives};

use plan::inner::Sides;
use plan::{Raster, Refusal};

mod smoothing;
mod testing;

// Smooths the samples into the results, rows by the plan across and columns by the plan down, and leaves zeros in work.
// Column x of row y is cell y·width + x. A refused call changes no cell.
pub fn smooth_picture(
    raster: Raster,
    samples: &[i32],
    results: &mut [i64],
    work: &mut [i64],
) -> Result<(), Refusal>
    ensures { Gives (smooth_picture fold fold (stages_of raster.across) (stages_of raster.down) raster.bound raster.width raster.height samples.now results.old work.old) (answer_of result) results.new work.new }
{
    testing::allowed(raster, samples, results.len(), work.len())?;
    let sides = Sides {
        width: raster.width as usize,
        height: raster.height as usize,
    };
    smoothing::smooth_into(
        raster.across,
        raster.down,
        raster.down.passes,
        sides,
        samples,
        results,
        work,
    );
    pass::inner::clear(work);
    Ok(())
}
