// The passes of smoothing a picture: rows first.
ghost use Rattle.std.specs.Prelude.{◌≡◌, ◌≤◌, length};
ghost use Rattle.picture.specs.Ready.{Ready, after};

use plan::Plan;
use plan::inner::Sides;

// All passes across and k passes down, of the samples into dst. The pass before stands in the other slice.
// A recursion over two slices that are no struct: the reason stands at `smooth_into` of `series`.
pub(crate) fn smooth_into(
    across: Plan,
    down: Plan,
    k: u64,
    sides: Sides,
    samples: &[i32],
    dst: &mut [i64],
    other: &mut [i64],
)
    requires { (k ≤ down.passes) × Ready across down sides.width sides.height samples.now (length dst.old) (length other.old) }
    ensures { dst.new ≡ after k across down sides.width sides.height samples.now }
{
    if k == 0 {
        rows::inner::smooth_rows(across, sides, samples, dst, other);
        return;
    }
    smooth_into(across, down, k - 1, sides, samples, other, dst);
    columns::inner::pass(down, sides, other, dst);
}
