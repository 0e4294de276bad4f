// One pass over a series, by a running sum; zeros.
ghost use Rattle.std.specs.Prelude.{◌≡◌, length, replicate, pos, ◌+ℤ◌, ◌-ℤ◌, ◌*ℤ◌};
ghost use Rattle.meaning.specs.Extension.{fold};
ghost use Rattle.meaning.specs.Smoothing as S;
ghost use Rattle.plan.specs.Structs.{stage_of};
ghost use Rattle.plan.specs.Tested.{Tested};
ghost use Rattle.pass.specs.Ready.{CellFits, Passable, SlideFits};

use crate::ends::{Window, walk};
use crate::middle::straight;
use crate::window::first_window;
use extension::inner::{next, periods_before};
use plan::Plan;

// A window and the cells beside it, weighed.
pub fn weigh(plan: Plan, w: i64, lo: i64, hi: i64) -> i64
    requires tested { Tested plan }
    requires fits { CellFits (pos plan.inner) (pos plan.edge) w lo hi }
    ensures { result ≡ pos plan.inner *ℤ w +ℤ pos plan.edge *ℤ (lo +ℤ hi) }
{
    let inner = plan.inner as i64;
    let edge = plan.edge as i64;
    inner * w + edge * (lo + hi)
}

// The window one cell on: hi enters, first leaves.
pub fn slide(w: i64, hi: i64, first: i64) -> i64
    requires { SlideFits w hi first }
    ensures { result ≡ w +ℤ hi -ℤ first }
{
    w + hi - first
}

// One pass of src into dst, every cell of it. What stands at -1 - j stands as far from the period's end as j does from its start.
// `Passable` is a clause: it speaks of source, plan and room together, and its largest size is its prover's choice, so no field of one argument can hold it.
#[tactic(auto, using(crate::specs::Course::reached_done))]
pub fn pass(plan: Plan, src: &[i64], dst: &mut [i64])
    requires { Passable plan src.now (length dst.old) }
    ensures { dst.new ≡ S.pass fold (stage_of plan) src.now }
{
    let len = src.len();
    let beyond = plan.radius as usize + 1;
    let periods = periods_before(plan.radius as usize, len);
    let first = Window {
        at: 0,
        sum: first_window(src, periods),
        low: 2 * len - 1 - periods.rest,
        high: next(periods.rest, len),
    };
    // too short for a middle
    if len <= 2 * beyond {
        walk(plan, src, first, len, dst);
        return;
    }
    let entering = walk(plan, src, first, beyond, dst);
    let leaving = straight(plan, src, entering, dst);
    let end = len - beyond;
    let last = Window {
        at: end,
        sum: leaving,
        low: end - beyond,
        high: len,
    };
    walk(plan, src, last, len, dst);
}

// Writes zeros.
pub fn clear(dst: &mut [i64])
    ensures { dst.new ≡ replicate (length dst.old) (pos 0) }
{
    dst.fill(0);
}
