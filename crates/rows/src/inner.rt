// Rows, each smoothed as a series of its own.
ghost use Rattle.std.specs.Prelude.{◌≡◌, length};
ghost use Rattle.meaning.specs.Extension.{fold};
ghost use Rattle.meaning.specs.Smoothing.{results};
ghost use Rattle.meaning.specs.Picture as P;
ghost use Rattle.plan.specs.Structs.{stages_of};
ghost use Rattle.rows.specs.Rows.{RowsReady};

use plan::Plan;
use plan::inner::Sides;

// Smooths each row of the samples into its own stretch of dst. The same stretch of the other slice holds the pass before.
pub fn smooth_rows(plan: Plan, sides: Sides, samples: &[i32], dst: &mut [i64], other: &mut [i64])
    requires { RowsReady plan sides.width sides.height samples.now (length dst.old) (length other.old) }
    ensures { dst.new ≡ P.across (results fold (stages_of plan)) sides.width sides.height samples.now }
{
    for y in 0..sides.height {
        // three slices, two of them written: chunks zipped twice are no plainer
        let start = y * sides.width;
        let end = start + sides.width;
        series::inner::smooth_into(
            plan,
            plan.passes,
            &samples[start..end],
            &mut dst[start..end],
            &mut other[start..end],
        );
    }
}
