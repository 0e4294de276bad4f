// What the outputs answer, each of a series or of a picture.
ghost use Rattle.std.specs.Prelude.{◌≡◌, [], ◌∷◌, length, IfOk};
ghost use Rattle.meaning.specs.Extension.{at};
ghost use Rattle.meaning.specs.Refusals as R;
ghost use Rattle.meaning.specs.Values as meant;
ghost use Rattle.plan.specs.Structs.{stages_of, answer_of};
ghost use Rattle.outputs.specs.Ready.{Passed};

pub use crate::quotients::Quotients;
use plan::{Plan, Raster, Refusal};

// Row 12: the first result whose size is above the limit. No `position`, which reads a slice by an `Option` of a reference to a cell: the reason stands at `tap_at` of `taps`.
pub fn results_allowed(limit: u64, results: &[i64]) -> Result<(), Refusal>
    ensures { answer_of result ≡ R.first_of (R.row_at 12 (length results.now) (λ i. R.above limit (at results.now i)) ∷ []) }
{
    for (position, z) in results.iter().enumerate() {
        if limit < z.unsigned_abs() {
            return Err(Refusal::BadResult { position });
        }
    }
    Ok(())
}

// The results over the divisor, where a series may be put out. A summary has no cells, and gives the results' own length.
pub fn series(
    plan: Plan,
    bound: u64,
    results: &[i64],
    cells: usize,
) -> Result<Quotients<'_>, Refusal>
    ensures answer { answer_of result ≡ R.first_of (meant.output_rows (R.series_of (stages_of plan) (length results.now)) bound results.now cells) }
    ensures passed { IfOk result (λ q. Passed (R.series_of (stages_of plan) (length results.now)) results.now cells q.results.now q.divisor) }
{
    let n = results.len();
    refusals::inner::series_allowed(plan, bound, n, cells != n)?;
    let divisor = plan.divisor();
    results_allowed(bound * divisor, results)?;
    Ok(Quotients { results, divisor })
}

// The same of a picture, over the product of both divisors. All that it shares with a series is in `Quotients`, here and in each output: a trait over both shapes would take more lines than it saves. Where row 7 applies the cells asked are 0, and whether lengths differ from that does not matter.
pub fn picture(raster: Raster, results: &[i64], cells: usize) -> Result<Quotients<'_>, Refusal>
    ensures answer { answer_of result ≡ R.first_of (meant.output_rows (R.picture_of (stages_of raster.across) (stages_of raster.down) raster.width raster.height) raster.bound results.now cells) }
    ensures passed { IfOk result (λ q. Passed (R.picture_of (stages_of raster.across) (stages_of raster.down) raster.width raster.height) results.now cells q.results.now q.divisor) }
{
    let asked = refusals::inner::picture_cells(raster.width, raster.height).unwrap_or(0);
    let wrong_length = refusals::inner::lengths_differ(results.len(), asked, cells, asked);
    refusals::inner::picture_allowed(raster, wrong_length)?;
    let divisor = raster.across.divisor() * raster.down.divisor();
    results_allowed(raster.bound * divisor, results)?;
    Ok(Quotients { results, divisor })
}
