// A pass where the window or the cells beside it reach beyond the ends of the series.
ghost use Rattle.std.specs.Prelude.{◌≤◌, length};
ghost use Rattle.pass.specs.Ready.{Passable, Reached, Beside};

use crate::inner::{slide, weigh};
use extension::inner::{next, read};
use plan::Plan;

// The window around a cell: its sum, and the places of the cells beside it.
#[derive(Clone, Copy)]
pub(crate) struct Window {
    pub at: usize,
    pub sum: i64,
    pub low: usize,
    pub high: usize,
}

// The cells from the window's own to end. The window walks with them, and what leaves it is the next cell on its low side.
// Answers the sum of the window around end.
pub(crate) fn walk(plan: Plan, src: &[i64], window: Window, end: usize, dst: &mut [i64]) -> i64
    requires passable { Passable plan src.now (length dst.old) }
    requires reached { Reached plan src.now dst.old window.at window.sum }
    requires beside { Beside plan (length src.now) window.at window.low window.high }
    requires at_le_end { window.at ≤ end }
    requires end_in_bounds { end ≤ length src.now }
    ensures { Reached plan src.now dst.new end result }
{
    let Window {
        at,
        mut sum,
        mut low,
        mut high,
    } = window;
    let mut lo = read(src, low);
    // by index: `Reached` counts the cells of dst from its first, and a slice from `at` on would count them anew
    for n in at..end {
        low = next(low, src.len());
        let first = read(src, low);
        let hi = read(src, high);
        dst[n] = weigh(plan, sum, lo, hi);
        sum = slide(sum, hi, first);
        lo = first;
        high = next(high, src.len());
    }
    sum
}
