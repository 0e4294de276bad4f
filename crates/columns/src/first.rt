// The first row of a pass down: a sum of rows of what is read, each with one weight.
ghost use Rattle.std.specs.Prelude.{◌≡◌, ◌+◌, ◌*◌, ◌<◌, ◌≤◌, length, pos};
ghost use Rattle.meaning.specs.Limits.{max_length};
ghost use Rattle.meaning.specs.Smoothing.{list_of};
ghost use Rattle.meaning.specs.Picture as P;
ghost use Rattle.plan.specs.Structs.{stage_of};
ghost use Rattle.columns.specs.Ready.{Addable, added, Begins, Passable, passed, row_of, RowsAddable, rows_added, sides as both_sides};

use extension::inner::{Periods, next, reflect};
use plan::Plan;
use plan::inner::Sides;

// Where the row begins that stands at a place of the extension.
pub(crate) fn row_at(place: usize, sides: Sides) -> usize
    requires le_width { 1 ≤ sides.width }
    requires place_bound { place < 2 * sides.height }
    requires height_bound { sides.width * sides.height ≤ max_length }
    ensures { Begins sides.width sides.height (pos place) result }
{
    reflect(place, sides.height) * sides.width
}

// Adds to each cell of row its weighted cell of the row of src that begins at start.
fn add_row(weight: i64, src: &[i64], start: usize, row: &mut [i64])
    requires { Addable weight src.now start row.old }
    ensures { row.new ≡ list_of (length row.old) (added weight src.now start row.old) }
{
    // no zip: see `map_into` of `cells`
    for (x, cell) in row.iter_mut().enumerate() {
        *cell += weight * src[start + x];
    }
}

// Adds so many rows, those at the places from 0 on, each times the weight.
fn add_rows(weight: i64, count: usize, sides: Sides, src: &[i64], row: &mut [i64])
    requires { RowsAddable weight sides.width sides.height count src.now row.old }
    ensures { row.new ≡ list_of sides.width (rows_added weight sides.width sides.height count src.now row.old) }
{
    for k in 0..count {
        add_row(weight, src, row_at(k, sides), row);
    }
}

// Whole periods of rows on either side of row 0, weighed: one period, so many times.
fn whole_periods(plan: Plan, periods: usize, sides: Sides, src: &[i64], row: &mut [i64])
    requires passable { Passable plan sides.width sides.height src.now (sides.width * sides.height) }
    requires row_len { length row.old ≡ sides.width }
    requires height_bound { periods * (2 * sides.height) ≤ plan.radius }
    ensures { row.new ≡ row_of sides.width sides.height src.now (λ e. both_sides (stage_of plan) e (periods * (2 * sides.height))) }
{
    row.fill(0);
    if periods == 0 {
        return;
    }
    let weight = (2 * plan.inner * (periods as u64)) as i64;
    add_rows(weight, 2 * sides.height, sides, src, row);
}

// Row 0 of the pass, whose radius is so many whole periods and a rest. What stands at -1 - j stands at j. So the rows from 0 up to the radius count
// twice within the window; the row at the radius once, and at the low edge; the next at the high edge.
pub(crate) fn first_row(plan: Plan, radius: Periods, sides: Sides, src: &[i64], row: &mut [i64])
    requires passable { Passable plan sides.width sides.height src.now (sides.width * sides.height) }
    requires row_len { length row.old ≡ sides.width }
    requires radius_value { plan.radius ≡ radius.whole * (2 * sides.height) + radius.rest }
    requires rest_bound { radius.rest < 2 * sides.height }
    ensures { row.new ≡ P.row sides.width (passed plan sides.width sides.height src.now) 0 }
{
    whole_periods(plan, radius.whole, sides, src, row);
    add_rows((2 * plan.inner) as i64, radius.rest, sides, src, row);
    let low = row_at(radius.rest, sides);
    add_row((plan.inner + plan.edge) as i64, src, low, row);
    let high = row_at(next(radius.rest, sides.height), sides);
    add_row(plan.edge as i64, src, high, row);
}
