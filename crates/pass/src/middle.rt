// A pass where the window and the cells beside it lie within the series: nothing turns.
ghost use Rattle.std.specs.Prelude.{◌+◌, ◌*◌, ◌-◌, ◌≤◌, length};
ghost use Rattle.pass.specs.Ready.{Passable, Reached};

use crate::inner::{slide, weigh};
use plan::Plan;

// All such cells, from radius + 1 on. sum is the window around the first of them; answers the one after the last.
// `walk`, this and `stage_more` of taps are three loops by one running sum. What each reads differs, and so do the laws of its reads:
// a closure for the reads would be called three times a cell, and its contract would be proved by those laws again.
pub(crate) fn straight(plan: Plan, src: &[i64], sum: i64, dst: &mut [i64]) -> i64
    requires passable { Passable plan src.now (length dst.old) }
    requires reached { Reached plan src.now dst.old (plan.radius + 1) sum }
    requires radius_in_bounds { 2 * (plan.radius + 1) ≤ length src.now }
    ensures { Reached plan src.now dst.new (length src.now - (plan.radius + 1)) result }
{
    let radius = plan.radius as usize;
    let beyond = radius + 1;
    let end = src.len() - beyond;
    let mut w = sum;
    // indices: three cells of one slice and one of another
    for n in beyond..end {
        let lo = src[n - beyond];
        let first = src[n - radius];
        let hi = src[n + beyond];
        let v = weigh(plan, w, lo, hi);
        dst[n] = v;
        w = slide(w, hi, first);
    }
    w
}
