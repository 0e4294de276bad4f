// What smoothing a picture answers.
ghost use Rattle.std.specs.Prelude.{◌≡◌, ◌||◌};
ghost use Rattle.meaning.specs.Refusals as R;
ghost use Rattle.meaning.specs.Calls as C;
ghost use Rattle.plan.specs.Structs.{stages_of, answer_of};

use plan::{Raster, Refusal};
use refusals::inner::{Span, picture_allowed, picture_cells, samples_allowed};

// Is one of the three slices not of so many cells?
fn lengths_differ(cells: usize, samples: usize, results: usize, work: usize) -> bool
    ensures { result ≡ R.differs samples cells || R.differs results cells || R.differs work cells }
{
    samples != cells || refusals::inner::lengths_differ(results, cells, work, cells)
}

// Where row 7 applies the cells are 0, and whether lengths differ from that does not matter.
pub(crate) fn allowed(
    raster: Raster,
    samples: &[i32],
    results: usize,
    work: usize,
) -> Result<(), Refusal>
    ensures { answer_of result ≡ R.first_of (C.smooth_rows (R.picture_of (stages_of raster.across) (stages_of raster.down) raster.width raster.height) raster.bound samples.now results work) }
{
    let n = samples.len();
    let cells = picture_cells(raster.width, raster.height).unwrap_or(0);
    let wrong_length = lengths_differ(cells, n, results, work);
    picture_allowed(raster, wrong_length)?;
    samples_allowed(raster.bound, samples, Span { start: 0, end: n })
}
