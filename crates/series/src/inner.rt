// K passes over a series.
ghost use Rattle.std.specs.Prelude.{◌≡◌, ◌≤◌, length};
ghost use Rattle.series.specs.Ready.{Ready, after};

use pass::inner::pass;
use plan::Plan;

// Copies the samples.
pub fn load(samples: &[i32], dst: &mut [i64])
    requires { length dst.old ≡ length samples.now }
    ensures { dst.new ≡ samples.now }
{
    cells::inner::map_into(samples, dst, i64::from);
}

// k passes of the samples into dst. The pass before stands in the other slice, so none reads a cell that it has written.
// A recursion, as in `picture` and `taps`: one function for the three would take two closures, and its contract would say what both slices hold
// at every turn, which is longer than these lines. `dst` and `other` are no struct: they change places at every turn.
pub fn smooth_into(plan: Plan, k: u64, samples: &[i32], dst: &mut [i64], other: &mut [i64])
    requires { (k ≤ plan.passes) × Ready plan samples.now (length dst.old) (length other.old) }
    ensures { dst.new ≡ after k plan samples.now }
{
    if k == 0 {
        load(samples, dst);
        return;
    }
    smooth_into(plan, k - 1, samples, other, dst);
    pass(plan, other, dst);
}
