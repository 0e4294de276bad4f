// The taps of a plan, its kernel from the centre outward, by running sums; and by them how much a sample weighs in a result.
ghost use Rattle.std.specs.Prelude.{◌≡◌, [], ◌+◌, ◌≤◌, length, replicate, pos, ◌+ℤ◌};
ghost use Rattle.meaning.specs.Limits.{max_taps};
ghost use Rattle.meaning.specs.Extension.{at};
ghost use Rattle.meaning.specs.Kernel as K;
ghost use Rattle.meaning.specs.Bounds.{AcceptedPlan};
ghost use Rattle.theory.specs.Slide.{window};
ghost use Rattle.plan.specs.Structs.{stage_of, stages_of};
ghost use Rattle.pass.specs.Turn.{Windowed};
ghost use Rattle.taps.specs.Taps.{mirrored, staged, taps_of, Held, Stageable, Ready};
ghost use Rattle.taps.specs.Weigh.{strided_in, weight_in, Stridable, Weighable};

pub use crate::lent::with_taps;
use pass::inner::{slide, weigh};
use plan::Plan;

// The most taps that an accepted plan has from the centre outward.
pub const MOST_TAPS: usize = 4097;

// No code calls this: it is proved, so that the constant is the number of the definitions.
fn most_taps_agree()
    ensures { max_taps ≡ MOST_TAPS }
{}

// How many a plan has.
#[tactic(auto, using(theory::specs::Accepted::accepted_reach, theory::specs::Farthest::reach_most))]
pub fn tap_count(plan: Plan) -> usize
    requires { AcceptedPlan (stages_of plan) }
    ensures { (result ≡ K.reach (stages_of plan) + 1) × (result ≤ max_taps) }
{
    plan.reach() as usize + 1
}

// The tap at i, 0 past the last. No `get`: an `Option` of a reference to a cell lies otherwise where a pointer has 32 bits.
fn tap_at(taps: &[i64], i: usize) -> i64
    ensures { result ≡ at taps.now i }
{
    if i < taps.len() { taps[i] } else { 0 }
}

// The window around the centre: on either side stand the same taps.
fn first_window(taps: &[i64], radius: usize) -> i64
    requires { Windowed radius (mirrored taps.now) }
    ensures { result ≡ window (mirrored taps.now) radius (pos 0) }
{
    let mut s = tap_at(taps, 0);
    // no plainer by `1..=radius`: that loop has two ends, and each asks a proof of its own
    for j in 0..radius {
        let t = tap_at(taps, j + 1);
        s += t + t;
    }
    s
}

// The taps of one stage more, from src into dst, by a running sum as in a pass.
fn stage_more(plan: Plan, src: &[i64], dst: &mut [i64])
    requires { Stageable plan src.now (length dst.old) }
    ensures { dst.new ≡ staged (stage_of plan) src.now }
{
    let radius = plan.radius as usize;
    let mut w = first_window(src, radius);
    let mut lo = tap_at(src, radius + 1);
    for (n, tap) in dst.iter_mut().enumerate() {
        let first = tap_at(src, n.abs_diff(radius));
        let hi = tap_at(src, n + radius + 1);
        *tap = weigh(plan, w, lo, hi);
        w = slide(w, hi, first);
        lo = first;
    }
}

// The taps of no stage.
#[tactic(auto, using(crate::specs::Taps::taps_of_none))]
fn no_stages(dst: &mut [i64])
    requires { 1 ≤ length dst.old }
    ensures { dst.new ≡ taps_of (length dst.old) [] }
{
    dst.fill(0);
    dst[0] = 1;
}

// The taps of k stages into dst. Those of one stage less stand in the other slice.
// A recursion over two slices that are no struct: the reason stands at `smooth_into` of `series`.
fn stages_into(plan: Plan, k: u64, dst: &mut [i64], other: &mut [i64])
    requires { (k ≤ plan.passes) × Ready plan (length dst.old) (length other.old) }
    ensures { dst.new ≡ taps_of (length dst.old) (replicate k (stage_of plan)) }
{
    if k == 0 {
        no_stages(dst);
        return;
    }
    stages_into(plan, k - 1, other, dst);
    stage_more(plan, other, dst);
}

// The taps of a plan, in a slice of just as many or more. The other slice is room.
pub fn taps_into(plan: Plan, taps: &mut [i64], other: &mut [i64])
    requires { Ready plan (length taps.old) (length other.old) }
    ensures { Held (stages_of plan) taps.new }
{
    stages_into(plan, plan.passes, taps, other);
}

// ---- weights

// The sum so far, and the taps at start, start + step, and so on.
#[tactic(auto, using(crate::proofs::Sums::striding))]
fn strided(taps: &[i64], start: usize, step: usize, so_far: i64) -> i64
    requires { Stridable taps.now start step so_far }
    ensures { result ≡ so_far +ℤ strided_in taps.now start step }
{
    let mut s = so_far;
    let mut i = start;
    // std's `step_by` goes through every tap between: of 2049 taps at a step of 100 it takes 2 us in place of 10 ns
    while i < taps.len() {
        s += taps[i];
        i += step;
    }
    s
}

// How much sample p of len weighs in the result at n: the taps at its images, which lie so far from n, on either side, and every 2 len on.
#[tactic(auto, using(crate::proofs::Sums::weighing), unfolding(crate::specs::Weigh::weight_in))]
pub fn weight(taps: &[i64], len: usize, n: usize, p: usize) -> i64
    requires { Weighable taps.now len n p }
    ensures { result ≡ weight_in taps.now len n p }
{
    let period = 2 * len;
    let direct = n.abs_diff(p);
    let mirror = n + p + 1;
    let a = strided(taps, direct, period, 0);
    let b = strided(taps, period - direct, period, a);
    let c = strided(taps, mirror, period, b);
    strided(taps, period - mirror, period, c)
}
