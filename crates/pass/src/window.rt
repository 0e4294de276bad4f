// The window around 0, the first of a pass.
ghost use Rattle.std.specs.Prelude.{◌≡◌, ◌+◌, ◌*◌, ◌≤◌, ◌<◌, length, pos, ◌+ℤ◌, ◌*ℤ◌};
ghost use Rattle.std.specs.Int.{w64};
ghost use Rattle.std.proofs.Common.{SFits};
ghost use Rattle.meaning.specs.Extension.{fold, ext};
ghost use Rattle.theory.specs.Slide.{window};
ghost use Rattle.theory.specs.Period.{up_to};
ghost use Rattle.pass.specs.Ready.{Summable};

use extension::inner::{Periods, read};

// `Summable` is a clause and no type: each function here asks room for another count of cells.

// The extension summed from 0 up to end, within one period.
#[tactic(auto, using(crate::proofs::Sums::summing))]
fn sum_to(src: &[i64], end: usize) -> i64
    requires summable { Summable end src.now }
    requires end_bound { end ≤ 2 * length src.now }
    ensures { result ≡ up_to (ext fold src.now) end }
{
    let mut s: i64 = 0;
    for i in 0..end {
        s += read(src, i);
    }
    s
}

// Whole periods summed: one, so many times.
#[tactic(auto, using(crate::proofs::Sums::periods))]
fn sum_periods(src: &[i64], periods: usize) -> i64
    requires { Summable (periods * (2 * length src.now)) src.now }
    ensures { result ≡ pos periods *ℤ up_to (ext fold src.now) (2 * length src.now) }
{
    if periods == 0 {
        return 0;
    }
    let one = sum_to(src, 2 * src.len());
    (periods as i64) * one
}

// The window around 0 whose radius is so many whole periods and a rest. What stands at -1 - j stands at j: so it is
// twice what lies from 0 up to the radius, and the cell that stands there.
pub(crate) fn first_window(src: &[i64], radius: Periods) -> i64
    requires summable { Summable (2 * (radius.whole * (2 * length src.now) + radius.rest) + 1) src.now }
    requires rest_bound { radius.rest < 2 * length src.now }
    ensures { result ≡ window (ext fold src.now) (radius.whole * (2 * length src.now) + radius.rest) (pos 0) }
{
    let side = sum_periods(src, radius.whole) + sum_to(src, radius.rest);
    side + side + read(src, radius.rest)
}
